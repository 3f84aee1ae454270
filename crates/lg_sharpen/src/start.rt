//! The sites of lists before anything is known of their partners.
ghost use Rattle.std.specs.Prelude.{◌≡◌, ◌<◌, length, IfOk};
ghost use Rattle.lg_sharpen.specs.Sites.{AreStarted, AreStartedAll, IsReach, IsStarted, items_in};

use crate::site::{Site, Span};
use lg_base::NoMemory;
use lg_gram::Connector;
use lg_member::Side;
use std::alloc::Global;

/// The sites of each list, which are lists to the right, or to the left, among so many words.
pub(crate) fn sites_of(
    alloc: Global,
    right: bool,
    words: u32,
    sides: &[Side<'_>],
) -> Result<Vec<Vec<Site>>, NoMemory>
    ensures { IfOk result (λ lists. AreStartedAll right words sides.now (items_in lists.items)) }
{
    let mut lists = Vec::with_capacity(alloc, sides.len())?;
    for side in sides {
        let end = reach(right, words, side.position);
        let sites = started(alloc, side.list, end)?;
        lists.push(sites)?;
    }
    Ok(lists)
}

// More than the length of each link of the position to the right, or to the left.
fn reach(right: bool, words: u32, position: u32) -> u32
    ensures { IsReach right words position result }
{
    if right {
        words.saturating_sub(position)
    } else if position < words {
        position + 1
    } else {
        words
    }
}

fn started(alloc: Global, list: &[Connector], end: u32) -> Result<Vec<Site>, NoMemory>
    ensures { IfOk result (λ sites. AreStarted list.now end sites.items) }
{
    let mut sites = Vec::with_capacity(alloc, list.len())?;
    for place in 0..list.len() {
        let site = site_at(list, end, place);
        sites.push(site)?;
    }
    Ok(sites)
}

fn site_at(list: &[Connector], end: u32, place: usize) -> Site
    requires { place < length list.now }
    ensures { IsStarted list.now end place result }
{
    let connector = list[place];
    Site {
        connector,
        span: Span { from: 1, end },
        nearest: place == 0 && !connector.is_multi(),
        later: place + 1 < list.len(),
        before: 0,
        behind: u32::MAX,
        need: 0,
    }
}
