//! Which links lie in the domain that a link starts.
ghost use Rattle.std.specs.Prelude.{◌≡◌, ◌≢◌, ◌↔◌, ◌<◌, ◌≤◌, ℕ, length, IsTrue, IfOk};
ghost use Rattle.std.specs.List.{All};
ghost use Rattle.lg_gram.specs.Limits.{LINKAGE_POSITIONS};
ghost use Rattle.lg_gram.specs.Rules.{HasLink};
ghost use Rattle.lg_walks.specs.Islands.{IsWithin};
ghost use Rattle.lg_knowread.specs.declared.knowledge.Knowledge.{Knowledge as Known};
ghost use Rattle.lg_pp.specs.Domains.{InDomain};
ghost use Rattle.lg_pp.specs.Labels.{IsGood, AreLabels};
ghost use Rattle.lg_pp.specs.Reach.{Ignores, IsCollected, AreFlags, AreOffRoot, AreRows, IsRow, IsStart, TellReach};

use crate::flags::Flags;
use crate::label::Labels;
use lg_base::NoMemory;
use lg_gram::linkage::LINKAGE_POSITIONS;
use lg_gram::{Link, Linkage};
use lg_knowread::Knowledge;
use lg_walks::label_islands;
use std::alloc::Global;

/// For each link that starts a domain, a flag for each link: whether it lies in that domain, which is the same for all
/// kinds that the start link has. No flags for the other links. Takes a walk over the links for each start.
pub(crate) fn rows(
    alloc: Global,
    know: &Knowledge,
    g: &Linkage,
    labels: &Labels,
) -> Result<Vec<Flags>, NoMemory>
    requires good { IsGood g.now }
    requires labels { AreLabels g.now labels.now }
    ensures { IfOk result (λ rows. AreRows know.now g.now rows.items) }
{
    let ignored = labels.picked(alloc, &know.ignored)?;
    let starts = labels.picked(alloc, &know.starts)?;
    found_rows(alloc, g, ignored.items(), starts.items())
}

fn found_rows(
    alloc: Global,
    g: &Linkage,
    ignored: &[bool],
    starts: &[bool],
) -> Result<Vec<Flags>, NoMemory>
    requires good { IsGood g.now }
    requires ignored { length g.now.links ≤ length ignored.now }
    requires starts { length g.now.links ≤ length starts.now }
    ensures { IfOk result (λ rows. (know : Known) → Ignores know g.now ignored.now → AreFlags (IsStart know g.now) g.now.links starts.now
        → AreRows know g.now rows.items) }
{
    let mut rows = Vec::new(alloc);
    for (n, start) in g.links().iter().enumerate() {
        rows.push(row(alloc, g, ignored, start, starts[n])?)?;
    }
    Ok(rows)
}

// Which links lie in the domain of a link; no flags where it starts none.
fn row(
    alloc: Global,
    g: &Linkage,
    ignored: &[bool],
    start: &Link,
    starts: bool,
) -> Result<Flags, NoMemory>
    requires good { IsGood g.now }
    requires ignored { length g.now.links ≤ length ignored.now }
    requires has { HasLink g.now start.now }
    requires within { start.now.right < LINKAGE_POSITIONS }
    ensures { IfOk result (λ row. (know : Known) → Ignores know g.now ignored.now → (IsTrue starts ↔ IsStart know g.now start.now)
        → IsRow know g.now start.now row) }
{
    if starts {
        domain(alloc, g, ignored, start)
    } else {
        Ok(Flags::of(Vec::new(alloc)))
    }
}

// Which links lie in the domain of a link that starts one.
fn domain(alloc: Global, g: &Linkage, ignored: &[bool], start: &Link) -> Result<Flags, NoMemory>
    requires good { IsGood g.now }
    requires ignored { length g.now.links ≤ length ignored.now }
    requires has { HasLink g.now start.now }
    requires within { start.now.right < LINKAGE_POSITIONS }
    ensures { IfOk result (λ flags. (know : Known) → Ignores know g.now ignored.now → AreFlags (InDomain know g.now start.now) g.now.links flags) }
{
    let mut islands = [0; LINKAGE_POSITIONS];
    let links = off_root(alloc, g, ignored, start.left)?;
    label_islands(&links, &mut islands);
    collected(alloc, g, ignored, start, &islands)
}

// The links that are not ignored and do not touch the root.
fn off_root(alloc: Global, g: &Linkage, ignored: &[bool], root: u32) -> Result<Vec<Link>, NoMemory>
    requires good { IsGood g.now }
    requires ignored { length g.now.links ≤ length ignored.now }
    ensures exactly { IfOk result (λ links. (know : Known) → Ignores know g.now ignored.now → AreOffRoot know g.now root links.items) }
    ensures within { IfOk result (λ links. All (IsWithin LINKAGE_POSITIONS) links.items) }
{
    let mut links = Vec::new(alloc);
    for (n, link) in g.links().iter().enumerate() {
        if is_off_root(ignored[n], root, link) {
            links.push(*link)?;
        }
    }
    Ok(links)
}

fn is_off_root(ignored: bool, root: u32, link: &Link) -> bool
    ensures { IsTrue result ↔ (IsTrue ignored → ⊥) × (link.now.left ≢ root) × (link.now.right ≢ root) }
{
    !ignored && link.left != root && link.right != root
}

// The start link, and the links that are not ignored and have an end that is reached.
fn collected(
    alloc: Global,
    g: &Linkage,
    ignored: &[bool],
    start: &Link,
    islands: &[usize],
) -> Result<Flags, NoMemory>
    requires good { IsGood g.now }
    requires ignored { length g.now.links ≤ length ignored.now }
    requires has { HasLink g.now start.now }
    requires enough { LINKAGE_POSITIONS ≤ length islands.now }
    ensures { IfOk result (λ flags. (know : Known) → Ignores know g.now ignored.now → TellReach know g.now start.now islands.now
        → AreFlags (InDomain know g.now start.now) g.now.links flags) }
{
    let mut flags = Vec::new(alloc);
    for (n, link) in g.links().iter().enumerate() {
        flags.push(is_collected(ignored[n], start, islands, link))?;
    }
    Ok(Flags::of(flags))
}

fn is_collected(ignored: bool, start: &Link, islands: &[usize], link: &Link) -> bool
    requires start { start.now.right < length islands.now }
    requires left { link.now.left < length islands.now }
    requires right { link.now.right < length islands.now }
    ensures { IsTrue result ↔ IsCollected ignored start.now islands.now link.now }
{
    let home = islands[start.right as usize];
    let is_reached = islands[link.left as usize] == home || islands[link.right as usize] == home;
    link == start || (is_reached && !ignored)
}
