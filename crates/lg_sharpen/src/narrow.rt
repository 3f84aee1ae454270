//! How far away the partners of a list's connectors may be.
ghost use Rattle.std.specs.Prelude.{◌≡◌, ◌<◌, length};
ghost use Rattle.lg_sharpen.specs.Sites.{IsAfter, IsAhead, IsBeforeOf, IsBehindOf, IsBelow, IsColumnOf, IsEndOf, IsFrom, IsFromOf, items_in};
ghost use Rattle.lg_sharpen.specs.Bounds.{IsNarrowed, Narrows, NarrowsAll};

use crate::gaps::Gaps;
use crate::site::{Site, Span};
use crate::table::{Column, column_of, has_partner};
use lg_member::{Cells, Side};

/// Narrows the sites of each list in use, of lists to the right, or to the left, to where the table has partners.
pub(crate) fn narrow_all(
    right: bool,
    most: u64,
    gaps: &Gaps,
    sides: &[Side<'_>],
    used: &[bool],
    table: &Cells<Site>,
    lists: &mut [Vec<Site>],
)
    requires same_length { length used.now ≡ length sides.now }
    requires long { length lists.old ≡ length sides.now }
    ensures { NarrowsAll right most gaps.now sides.now table.now (items_in lists.old) (items_in lists.new) }
{
    for index in 0..sides.len() {
        if used[index] {
            narrow(
                right,
                most,
                gaps,
                sides[index].position,
                table,
                &mut lists[index],
            );
        }
    }
}

fn narrow(
    right: bool,
    most: u64,
    gaps: &Gaps,
    position: u32,
    table: &Cells<Site>,
    sites: &mut Vec<Site>,
)
    ensures { Narrows right most gaps.now position table.now sites.old.items sites.new.items }
{
    if !narrow_up(right, most, gaps, position, table, sites) {
        return;
    }
    narrow_down(right, most, gaps, position, table, sites);
}

// From the first place to the last, so that each is farther than the one before. Ends at a place without a distance, and says whether there is none.
fn narrow_up(
    right: bool,
    most: u64,
    gaps: &Gaps,
    position: u32,
    table: &Cells<Site>,
    sites: &mut Vec<Site>,
) -> bool
    ensures { Narrows right most gaps.now position table.now sites.old.items sites.new.items }
{
    let count = sites.len();
    for place in 0..count {
        let site = narrowed(right, most, gaps, position, table, sites, place);
        sites[place] = site;
        if is_shut(&site) {
            return false;
        }
    }
    true
}

fn is_shut(site: &Site) -> bool {
    site.span.end <= site.span.from
}

// From the last place but one to the first, so that each is nearer than the next.
fn narrow_down(
    right: bool,
    most: u64,
    gaps: &Gaps,
    position: u32,
    table: &Cells<Site>,
    sites: &mut Vec<Site>,
)
    ensures { Narrows right most gaps.now position table.now sites.old.items sites.new.items }
{
    let count = sites.len();
    for behind in 1..count {
        let place = count - 1 - behind;
        sites[place] = again(right, most, gaps, position, table, sites, place);
    }
}

// The same as `narrowed`. A site stays as it is where the next one has the end that it had before.
fn again(
    right: bool,
    most: u64,
    gaps: &Gaps,
    position: u32,
    table: &Cells<Site>,
    sites: &[Site],
    place: usize,
) -> Site
    requires { place < length sites.now }
    ensures { IsNarrowed right most gaps.now position table.now sites.now place result }
{
    let old = sites[place];
    if behind_of(sites, place) == old.behind {
        return old;
    }
    narrowed(right, most, gaps, position, table, sites, place)
}

// The site of a place with the distances, of those that the sites beside it leave, from that of the first partner to that of the last. The first of a
// connector at the first place is its nearest link, also where it is multi.
fn narrowed(
    right: bool,
    most: u64,
    gaps: &Gaps,
    position: u32,
    cells: &Cells<Site>,
    sites: &[Site],
    place: usize,
) -> Site
    requires { place < length sites.now }
    ensures { IsNarrowed right most gaps.now position cells.now sites.now place result }
{
    let old = sites[place];
    let column = column_of(cells, &old);
    let table = &column;
    let span = Span {
        from: from_of(sites, place),
        end: end_of(sites, place),
    };
    let all = Site {
        span,
        before: before_of(sites, place),
        behind: behind_of(sites, place),
        ..old
    };
    let near = Site {
        nearest: place == 0,
        ..all
    };
    let from = first(right, most, gaps, position, table, &near);
    let far = Site {
        span: Span {
            from,
            end: span.end,
        },
        ..all
    };
    let end = last(right, most, gaps, position, table, &far);
    Site {
        span: Span { from, end },
        ..far
    }
}

// How long each link of the place before is at least.
fn before_of(sites: &[Site], place: usize) -> u32
    requires { place < length sites.now }
    ensures { IsBeforeOf sites.now place result }
{
    if place == 0 {
        return 0;
    }
    let earlier = place - 1;
    let before = sites[earlier];
    before.span.from
}

// More than the length of each link of the next place, where there is one.
fn behind_of(sites: &[Site], place: usize) -> u32
    requires { place < length sites.now }
    ensures { IsBehindOf sites.now place result }
{
    let here = sites[place];
    let later = place + 1;
    if later == sites.len() {
        return here.behind;
    }
    let next = sites[later];
    next.span.end
}

fn from_of(sites: &[Site], place: usize) -> u32
    requires { place < length sites.now }
    ensures { IsFromOf sites.now place result }
{
    let here = sites[place];
    if place == 0 {
        return here.span.from;
    }
    let earlier = place - 1;
    let before = sites[earlier];
    after(here.span.from, before.span.from)
}

fn after(from: u32, before: u32) -> u32
    ensures { IsAfter from before result }
{
    if before < from {
        from
    } else {
        before.saturating_add(1)
    }
}

fn end_of(sites: &[Site], place: usize) -> u32
    requires { place < length sites.now }
    ensures { IsEndOf sites.now place result }
{
    let here = sites[place];
    let later = place + 1;
    if later == sites.len() {
        return here.span.end;
    }
    let behind = sites[later];
    ahead(here.span.end, behind.span.end)
}

fn ahead(end: u32, behind: u32) -> u32
    ensures { IsAhead end behind result }
{
    if end < behind {
        end
    } else {
        behind.saturating_sub(1)
    }
}

// The distance of the first partner, or the end.
fn first(right: bool, most: u64, gaps: &Gaps, position: u32, table: &Column<'_>, site: &Site) -> u32
    requires { IsColumnOf site.now table.now }
    ensures { IsFrom right most gaps.now position table.now.cells.now site.now result }
{
    for distance in site.span.from..site.span.end {
        if has_partner(right, most, gaps, position, site, distance, table) {
            return distance;
        }
    }
    site.span.end
}

// The distance behind the last partner. The first distance is not looked at again: where it has no partner, the site has none.
fn last(right: bool, most: u64, gaps: &Gaps, position: u32, table: &Column<'_>, site: &Site) -> u32
    requires { IsColumnOf site.now table.now }
    ensures { IsBelow right most gaps.now position table.now.cells.now site.now result }
{
    let mut end = site.span.end;
    let second = site.span.from.saturating_add(1);
    while second < end {
        if has_partner(right, most, gaps, position, site, end - 1, table) {
            return end;
        }
        end -= 1;
    }
    end
}
