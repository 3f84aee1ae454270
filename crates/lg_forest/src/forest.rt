//! Forests, and how they are made.
ghost use Rattle.std.specs.Prelude.{◌≡◌, ◌≢◌, ◌↔◌, ◌+◌, ◌<◌, ◌≤◌, ◌^◌, [], ℕ, List, length, IfOk, MatchOption, Contains};
ghost use Rattle.std.specs.Map.{keys_of};
ghost use Rattle.lg_gram.specs.Connectors.{Connector};
ghost use Rattle.lg_gram.specs.Levels.{IsFewest};
ghost use Rattle.lg_gram.specs.declared.disjunct.Disjunct.{Disjunct};
ghost use Rattle.lg_region.specs.Fronts.{AreListsOf, AreOnce};
ghost use Rattle.lg_region.specs.declared.key.Key.{Key};
ghost use Rattle.lg_region.specs.declared.alternative.Alt.{Alt};
ghost use Rattle.lg_forest.specs.Demands.{IsDemanded, HasLinkageUnder};
ghost use Rattle.lg_forest.specs.Forests.{AreWorkers, IsForest, CountsKeys, HasStepped};
ghost use Rattle.lg_forest.specs.Known.{AreKnown};

use crate::known::Known;
use crate::law::keys_are_decided;
use crate::search::Search;
use crate::slots::Slots;
use crate::table::Table;
use crate::worker::Levels;
use crate::workers::known_of;
use lg_base::{NoMemory, Steps};
use lg_gram::Problem;
use lg_region::{Alts, Key, Lists};
use std::alloc::Global;
use std::marker::Model;
use std::thread::Threads;

/// The packed forest of a problem: the demanded keys that have a linkage, each with the alternatives all of whose keys have
/// one.
///
/// Contracts see `{ unused, entries }`: how many words are unlinked, and the keys with their alternatives.
#[derive(Drop)]
pub struct Forest {
    unused: u32,
    live: Slots<Key, Alts>,
}

impl Model for Forest {
    ghost use Rattle.lg_forest.specs.Forests.{Forest as Seen};

    ghost Value = { Seen };

    ghost view = { λ f. record { unused = f.unused; entries = f.live } };
}

impl Forest {
    // The forest of the keys that were asked for. Those without a linkage are let go.
    fn of(unused: u32, table: Table) -> Forest
        ensures unused { result.unused ≡ unused }
        ensures live { (k : Key) (alts : List Alt) → Contains result.entries (k, alts) ↔ (Contains table (k, alts) × (alts ≢ [])) }
        ensures once { AreOnce (keys_of result.entries) }
        ensures were_once { AreOnce (keys_of table) }
    {
        table.is_short();
        let live = table.into_live();
        // the call tells that the keys differ
        let _count = live.len();
        Forest { unused, live }
    }

    /// How many words the linkages of the whole sentence leave unlinked.
    pub fn unused(&self) -> u32
        ensures { result ≡ self.now.unused }
    {
        self.unused
    }

    /// How many keys there are: of a forest of a problem, the demanded keys that have a linkage.
    pub fn nodes(&self) -> u64
        ensures entries { result ≡ length self.now.entries }
        ensures counts { (positions : List (List Disjunct)) (from : ℕ) (is : IsForest positions from self.now) → CountsKeys (λ k. IsDemanded positions is.lists from self.now.unused k × HasLinkageUnder positions is.lists k) result }
    {
        self.live.len() as u64
    }

    /// The live alternatives of a key. None where the key was not asked for, or has no linkage. No memory.
    pub fn alts(&self, key: &Key) -> Option<&Alts>
        ensures { MatchOption result (Contains (keys_of self.now.entries) key.now → ⊥) (λ alts. Contains self.now.entries (key.now, alts.now)) }
    {
        self.live.get(key)
    }
}

/// The forest of a problem with as few unlinked words as a linkage can have.
///
/// From 1 to 16 workers look for it; where there are more than one, they first share what they find in a memo. Then the caller walks
/// alone, and what is not in the memo it finds itself: those are its steps. So they are at most the demanded keys: those of the whole
/// sentence with no unlinked word, with one, and so on up to that number. With one worker each demanded key is one step. The only
/// error is running out of memory: the steps up to it are counted still.
pub fn solve<R: Threads + Sync, L>(
    rt: &R,
    alloc: Global,
    problem: &Problem,
    workers: u32,
    steps: &mut Steps<L>,
) -> Result<Forest, NoMemory>
    requires workers { AreWorkers workers }
    requires room { steps.old < 2 ^ 126 }
    ensures forest { IfOk result (IsForest problem.now 0) }
    ensures fewest { IfOk result (λ forest. IsFewest problem.now forest.unused) }
    ensures steps { IfOk result (λ forest. (lists : List (List Connector)) → AreListsOf problem.now lists → (n : ℕ) × CountsKeys (IsDemanded problem.now lists 0 forest.unused) n × HasStepped workers steps.old steps.new n) }
    ensures later { steps.old ≤ steps.new }
{
    keys_are_decided();
    let last = problem.positions().len() as u32;
    let lists = Lists::of(alloc, problem)?;
    let levels = Levels { from: 0, end: last };
    let known = known_of(rt, alloc, problem, &lists, levels, workers)?;
    let mut search = Search::of(alloc, known);
    let unused = search.fewest(&lists, last, steps)?;
    Ok(Forest::of(unused, search.into_table()))
}

/// The forest of a problem with exactly so many unlinked words. Each demanded key is one step. The only error is running out of
/// memory: the steps up to it are counted still.
pub fn solve_at<L>(
    alloc: Global,
    problem: &Problem,
    nulls: u32,
    steps: &mut Steps<L>,
) -> Result<Forest, NoMemory>
    requires nulls { nulls ≤ length problem.now }
    requires room { steps.old < 2 ^ 126 }
    ensures forest { IfOk result (IsForest problem.now nulls) }
    ensures unused { IfOk result (λ forest. forest.unused ≡ nulls) }
    ensures steps { IfOk result (λ forest. (lists : List (List Connector)) → AreListsOf problem.now lists → (n : ℕ) × CountsKeys (IsDemanded problem.now lists nulls nulls) n × (steps.new ≡ steps.old + n)) }
    ensures later { steps.old ≤ steps.new }
{
    // the call tells that there are few positions
    let _positions = problem.positions();
    let lists = Lists::of(alloc, problem)?;
    let known = Known::nothing(alloc);
    let forest = forest_at(alloc, problem, &lists, nulls, known, steps)?;
    Ok(forest)
}

/// The same as `solve_at`, where from 1 to 16 workers first share what they find, as in `solve`: with more than one the steps are at
/// most the demanded keys. The only error is the same.
pub fn solve_at_by<R: Threads + Sync, L>(
    rt: &R,
    alloc: Global,
    problem: &Problem,
    nulls: u32,
    workers: u32,
    steps: &mut Steps<L>,
) -> Result<Forest, NoMemory>
    requires workers { AreWorkers workers }
    requires nulls { nulls ≤ length problem.now }
    requires room { steps.old < 2 ^ 126 }
    ensures forest { IfOk result (IsForest problem.now nulls) }
    ensures unused { IfOk result (λ forest. forest.unused ≡ nulls) }
    ensures steps { IfOk result (λ forest. (lists : List (List Connector)) → AreListsOf problem.now lists → (n : ℕ) × CountsKeys (IsDemanded problem.now lists nulls nulls) n × HasStepped workers steps.old steps.new n) }
    ensures later { steps.old ≤ steps.new }
{
    // the call tells that there are few positions
    let _positions = problem.positions();
    let lists = Lists::of(alloc, problem)?;
    let levels = Levels {
        from: nulls,
        end: nulls + 1,
    };
    let known = known_of(rt, alloc, problem, &lists, levels, workers)?;
    let forest = forest_at(alloc, problem, &lists, nulls, known, steps)?;
    Ok(forest)
}

// The same, where the alternatives of some keys are known.
fn forest_at<L>(
    alloc: Global,
    problem: &Problem,
    lists: &Lists<'_>,
    nulls: u32,
    known: Known,
    steps: &mut Steps<L>,
) -> Result<Forest, NoMemory>
    requires positions { lists.now.positions ≡ problem.now }
    requires nulls { nulls ≤ length problem.now }
    requires known { AreKnown lists.now known }
    requires room { steps.old < 2 ^ 126 }
    ensures forest { IfOk result (IsForest problem.now nulls) }
    ensures unused { IfOk result (λ forest. forest.unused ≡ nulls) }
    ensures steps { IfOk result (λ forest. (numbers : List (List Connector)) → AreListsOf problem.now numbers → (n : ℕ) × CountsKeys (IsDemanded problem.now numbers nulls nulls) n × (steps.new ≤ steps.old + n) × (known ≡ [] → steps.new ≡ steps.old + n)) }
    ensures later { steps.old ≤ steps.new }
{
    keys_are_decided();
    lists.are_numbered();
    // the call tells that there are few positions
    let _positions = problem.positions();
    let mut search = Search::of(alloc, known);
    search.visit(lists, Key::Whole { nulls }, steps)?;
    Ok(Forest::of(nulls, search.into_table()))
}
