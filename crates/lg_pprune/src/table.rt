//! Tables of sites, by position and by the capital letters of their connectors.
ghost use Rattle.std.specs.Prelude.{◌≡◌, ◌↔◌, length, IfOk, OnOk, IsTrue};
ghost use Rattle.std.specs.List.{Any};
ghost use Rattle.lg_member.specs.Cells.{IsEmpty};
ghost use Rattle.lg_pprune.specs.Sites.{AddsSites, AreServed, HasPartner, IsServed, IsTableOf, MeetsAt};

use crate::site::{Site, meets_at, site_of};
use lg_base::NoMemory;
use lg_member::{Cells, Side, class_of};
use std::alloc::Global;

/// The sites of the lists that are in use, which are lists to the right, or to the left, among so many words. A site that is
/// no wider than another stands for nothing of its own, and may be left out.
pub(crate) fn table_of(
    alloc: Global,
    right: bool,
    words: u32,
    sides: &[Side<'_>],
    used: &[bool],
) -> Result<Cells<Site>, NoMemory>
    requires { length used.now ≡ length sides.now }
    ensures { IfOk result (IsTableOf right words sides.now used.now) }
{
    let mut table = Cells::new(alloc, words)?;
    fill(right, words, sides, used, &mut table)?;
    Ok(table)
}

// Adds the sites of the lists that are in use to a table that has none.
fn fill(
    right: bool,
    words: u32,
    sides: &[Side<'_>],
    used: &[bool],
    table: &mut Cells<Site>,
) -> Result<(), NoMemory>
    requires same_length { length used.now ≡ length sides.now }
    requires none { IsEmpty table.old }
    ensures { OnOk result (IsTableOf right words sides.now used.now table.new) }
{
    for index in 0..sides.len() {
        if used[index] {
            push_sites(right, words, &sides[index], table)?;
        }
    }
    Ok(())
}

// Adds the sites of a list.
fn push_sites(
    right: bool,
    words: u32,
    side: &Side<'_>,
    table: &mut Cells<Site>,
) -> Result<(), NoMemory>
    ensures { OnOk result (AddsSites right words side.now.position side.now.list.now (length side.now.list.now) table.old table.new) }
{
    for place in 0..side.list.len() {
        let site = site_of(side, right, words, place);
        table.push(site.position as usize, site.connector.caps(), &site)?;
    }
    Ok(())
}

/// Which of the lists in use have a partner in the table for each connector.
pub(crate) fn served(
    alloc: Global,
    right: bool,
    words: u32,
    sides: &[Side<'_>],
    used: &[bool],
    table: &Cells<Site>,
) -> Result<Vec<bool>, NoMemory>
    requires { length used.now ≡ length sides.now }
    ensures { IfOk result (λ good. AreServed right words table.now sides.now used.now good.items) }
{
    let mut good = Vec::new(alloc);
    for index in 0..sides.len() {
        let is_good = is_good(used[index], right, words, &sides[index], table);
        good.push(is_good)?;
    }
    Ok(good)
}

// Whether a list is served, where it is in use.
fn is_good(used: bool, right: bool, words: u32, side: &Side<'_>, table: &Cells<Site>) -> bool
    ensures { IsTrue used → (IsTrue result ↔ IsServed right words table.now side.now.position side.now.list.now) }
{
    used && is_served(right, words, side, table)
}

fn is_served(right: bool, words: u32, side: &Side<'_>, table: &Cells<Site>) -> bool
    ensures { IsTrue result ↔ IsServed right words table.now side.now.position side.now.list.now }
{
    for place in 0..side.list.len() {
        let site = site_of(side, right, words, place);
        if !has_partner(right, &site, table) {
            return false;
        }
    }
    true
}

// Looks where the site's link may end, and in the cells of its capital letters alone.
fn has_partner(right: bool, site: &Site, table: &Cells<Site>) -> bool
    ensures { IsTrue result ↔ HasPartner right table.now site.now }
{
    let class = class_of(site.connector.caps());
    for position in site.from..site.end {
        if has_other(right, position, site, table.at(position, class)) {
            return true;
        }
    }
    false
}

fn has_other(right: bool, position: usize, site: &Site, others: &[Site]) -> bool
    ensures { IsTrue result ↔ Any (MeetsAt right position site.now) others.now }
{
    others
        .iter()
        .any(|other| meets_at(right, position, site, other))
}
