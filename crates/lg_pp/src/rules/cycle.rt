//! Rules that ask for cycles.
ghost use Rattle.std.specs.Prelude.{◌≡◌, ◌≢◌, ◌↔◌, ◌≤◌, false, length, slice_index_or, IsTrue, IfOk};
ghost use Rattle.std.specs.List.{All, Contains};
ghost use Rattle.lg_gram.specs.Limits.{LINKAGE_POSITIONS};
ghost use Rattle.lg_gram.specs.Rules.{HasLink};
ghost use Rattle.lg_gram.specs.declared.linkage.Link.{Link};
ghost use Rattle.lg_walks.specs.Islands.{IsWithin};
ghost use Rattle.lg_pp.specs.Judging.{AreCycled, IsBridge, IsBridgeAt, IsFirst};
ghost use Rattle.lg_pp.specs.Labels.{IsGood};

use lg_base::NoMemory;
use lg_gram::linkage::LINKAGE_POSITIONS;
use lg_gram::{Link, Linkage};
use lg_walks::label_islands;
use std::alloc::Global;

/// The number of the first link that matches and is a bridge: no walk over the other links joins its ends. Notes the
/// links that are none, and walks for no link that is noted; a walk takes as many steps as there are words and links.
pub(super) fn first_bridge(
    alloc: Global,
    g: &Linkage,
    matching: &[bool],
    cycled: &mut Vec<bool>,
) -> Result<Option<usize>, NoMemory>
    requires good { IsGood g.now }
    requires matching { length g.now.links ≤ length matching.now }
    requires enough { length g.now.links ≤ length cycled.old.items }
    requires cycled { AreCycled g.now cycled.old.items }
    ensures first { IfOk result (IsFirst (λ n. IsTrue (slice_index_or matching.now n false) × IsBridgeAt g.now n) (length g.now.links)) }
    ensures enough { length cycled.new.items ≡ length cycled.old.items }
    ensures cycled { AreCycled g.now cycled.new.items }
{
    for (n, link) in g.links().iter().enumerate() {
        if matching[n] && !cycled[n] {
            if is_bridge(alloc, g, link)? {
                return Ok(Some(n));
            }
            cycled[n] = true;
        }
    }
    Ok(None)
}

fn is_bridge(alloc: Global, g: &Linkage, link: &Link) -> Result<bool, NoMemory>
    requires good { IsGood g.now }
    requires has { HasLink g.now link.now }
    ensures { IfOk result (λ is. IsTrue is ↔ IsBridge g.now link.now) }
{
    let mut islands = [0; LINKAGE_POSITIONS];
    let others = others(alloc, g, link)?;
    label_islands(&others, &mut islands);
    Ok(islands[link.left as usize] != islands[link.right as usize])
}

// The links but this one.
fn others(alloc: Global, g: &Linkage, link: &Link) -> Result<Vec<Link>, NoMemory>
    requires { IsGood g.now }
    ensures exactly { IfOk result (λ links. (l : Link) → Contains links.items l ↔ (HasLink g.now l × (l ≢ link.now))) }
    ensures within { IfOk result (λ links. All (IsWithin LINKAGE_POSITIONS) links.items) }
    ensures few { length g.now.chosen ≤ LINKAGE_POSITIONS }
{
    let mut links = Vec::new(alloc);
    for other in g.links() {
        if differ(other, link) {
            links.push(*other)?;
        }
    }
    Ok(links)
}

fn differ(a: &Link, b: &Link) -> bool
    ensures { IsTrue result ↔ (a.now ≢ b.now) }
{
    a != b
}
