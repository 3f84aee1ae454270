//! Tables of sites, by position and by the capital letters of their connectors.
ghost use Rattle.std.specs.Prelude.{◌≡◌, ◌↔◌, ◌≤◌, true, not, length, IfOk, OnOk, IsTrue};
ghost use Rattle.std.specs.List.{Any};
ghost use Rattle.lg_member.specs.Cells.{IsEmpty};
ghost use Rattle.lg_sharpen.specs.Filling.{MaySpan};
ghost use Rattle.lg_sharpen.specs.Sites.{AddsOpen, AddsSites, HasPartner, IsColumnOf, IsPartner, IsTableOf, MayBeLone, MeetsOver, across as position_across, items_in};

use crate::gaps::Gaps;
use crate::site::{Site, are_open, meets};
use lg_base::NoMemory;
use lg_member::{Cells, Side, class_of};
use std::alloc::Global;

/// The sites of the lists that are in use and have a distance left for each of their sites, among so many words.
pub(crate) fn table_of(
    alloc: Global,
    words: u32,
    sides: &[Side<'_>],
    used: &[bool],
    lists: &[Vec<Site>],
) -> Result<Cells<Site>, NoMemory>
    requires same_length { length used.now ≡ length sides.now }
    requires long { length lists.now ≡ length sides.now }
    ensures { IfOk result (IsTableOf sides.now used.now (items_in lists.now)) }
{
    let mut table = Cells::new(alloc, words)?;
    fill(sides, used, lists, &mut table)?;
    Ok(table)
}

// Adds the sites of these lists to a table that has none.
fn fill(
    sides: &[Side<'_>],
    used: &[bool],
    lists: &[Vec<Site>],
    table: &mut Cells<Site>,
) -> Result<(), NoMemory>
    requires same_length { length used.now ≡ length sides.now }
    requires long { length lists.now ≡ length sides.now }
    requires none { IsEmpty table.old }
    ensures { OnOk result (IsTableOf sides.now used.now (items_in lists.now) table.new) }
{
    for index in 0..sides.len() {
        if used[index] {
            push_open(sides[index].position, &lists[index], table)?;
        }
    }
    Ok(())
}

// Adds the sites of a list, where each has a distance left.
fn push_open(position: u32, sites: &[Site], table: &mut Cells<Site>) -> Result<(), NoMemory>
    ensures { OnOk result (AddsOpen position sites.now table.old table.new) }
{
    if !are_open(sites) {
        return Ok(());
    }
    push_sites(position, sites, table)?;
    Ok(())
}

// Adds the sites of a list.
fn push_sites(position: u32, sites: &[Site], table: &mut Cells<Site>) -> Result<(), NoMemory>
    ensures { OnOk result (AddsSites position sites.now (length sites.now) table.old table.new) }
{
    for site in sites {
        table.push(position as usize, site.connector.caps(), site)?;
    }
    Ok(())
}

/// A table, and the class of the capital letters of a connector, in which its partners are.
#[derive(Clone, Copy)]
pub(crate) struct Column<'a> {
    pub(crate) cells: &'a Cells<Site>,
    pub(crate) class: usize,
}

/// The column of a site in a table.
pub(crate) fn column_of<'a>(cells: &'a Cells<Site>, site: &Site) -> Column<'a>
    ensures cells { result.cells.now ≡ cells.now }
    ensures class { IsColumnOf site.now result }
{
    let class = class_of(site.connector.caps());
    Column { cells, class }
}

/// Whether the table has a partner of a site of the position, of a list to the right, or to the left, over this distance. Most cells
/// have no site, and then little is done.
#[inline(always)]
pub(crate) fn has_partner(
    right: bool,
    most: u64,
    gaps: &Gaps,
    position: u32,
    site: &Site,
    distance: u32,
    table: &Column<'_>,
) -> bool
    requires { IsColumnOf site.now table.now }
    ensures { HasPartner right most gaps.now position table.now.cells.now site.now distance → IsTrue result }
{
    let others = table
        .cells
        .at(across(right, position, distance), table.class);
    if others.is_empty() {
        return false;
    }
    has_partner_in(right, most, gaps, position, site, distance, others)
}

// The same of the sites that lie this far away.
#[inline(never)]
fn has_partner_in(
    right: bool,
    most: u64,
    gaps: &Gaps,
    position: u32,
    site: &Site,
    distance: u32,
    others: &[Site],
) -> bool
    ensures { IsTrue result ↔ Any (IsPartner right most gaps.now position distance site.now) others.now }
{
    if !may_be_nearest(right, gaps, position, distance, site.nearest) {
        return false;
    }
    let lone = may_be_lone(right, most, gaps, position, distance, site.nearest);
    has_other(right, lone, distance, site, others)
}

// Whether a link of this length can be the nearest of the position, where it is to be.
fn may_be_nearest(right: bool, gaps: &Gaps, position: u32, distance: u32, nearest: bool) -> bool
    ensures { IsTrue result ↔ (nearest ≡ true → MaySpan right gaps.now position distance) }
{
    !nearest || gaps.may_span(right, position as usize, distance as usize)
}

// Whether a link of this length can be the nearest of its other end.
fn may_be_lone(
    right: bool,
    most: u64,
    gaps: &Gaps,
    position: u32,
    distance: u32,
    nearest: bool,
) -> bool
    ensures { IsTrue result ↔ MayBeLone right most gaps.now position distance nearest }
{
    is_short(most, distance, nearest) && may_reach(right, gaps, position, distance)
}

fn is_short(most: u64, distance: u32, nearest: bool) -> bool
    ensures { IsTrue result ↔ (nearest ≡ true → distance ≤ most) }
{
    !nearest || u64::from(distance) <= most
}

fn may_reach(right: bool, gaps: &Gaps, position: u32, distance: u32) -> bool
    ensures { IsTrue result ↔ MaySpan (not right) gaps.now (position_across right position distance) distance }
{
    gaps.may_span(!right, across(right, position, distance), distance as usize)
}

fn across(right: bool, position: u32, distance: u32) -> usize
    ensures { result ≡ position_across right position distance }
{
    if right {
        position as usize + distance as usize
    } else {
        position.saturating_sub(distance) as usize
    }
}

fn has_other(right: bool, lone: bool, distance: u32, site: &Site, others: &[Site]) -> bool
    ensures { IsTrue result ↔ Any (MeetsOver right lone distance site.now) others.now }
{
    others
        .iter()
        .any(|other| meets(right, lone, distance, site, other))
}
