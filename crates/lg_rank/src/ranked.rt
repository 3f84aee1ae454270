//! The good linkages of a problem with so many unlinked positions, one by one in order.
ghost use Rattle.std.specs.Prelude.{◌≡◌, ◌+◌, ◌<◌, ◌^◌, ℕ, List, length, slice_get, is_some, IfOk, OnOk, OnErr};
ghost use Rattle.lg_gram.specs.Levels.{IsLevel};
ghost use Rattle.lg_gram.specs.Linkages.{Linkage as Seen, linkage_cmp};
ghost use Rattle.lg_gram.specs.declared.disjunct.Disjunct.{Disjunct};
ghost use Rattle.lg_forest.specs.Forests.{IsForest};
ghost use Rattle.lg_region.specs.Parts.{UnderWhole};
ghost use Rattle.lg_rank.specs.Fronts.{IsFront, IsNext};
ghost use Rattle.lg_rank.specs.Rankings.{Ranking, IsListing, IsLinkageAt, given, passed_over, IsThere};
ghost use Rattle.lg_rank.specs.Tables.{parts};
ghost use Rattle.lg_rank.specs.Values.{value_of, nothing_of};

use crate::build::{Built, build};
use crate::law::values_are_linkages;
use crate::node::part_of;
use crate::part::Part;
use crate::table::Table;
use crate::unpack::linkage_of;
use lg_base::NoMemory;
use lg_forest::Forest;
use lg_gram::{Linkage, Problem};
use lg_region::sentences_are_cut_once;
use std::alloc::Global;
use std::marker::Model;

// The linkage of the value at `i` of the whole sentence, which can be read.
fn linkage_at(
    alloc: Global,
    problem: &Problem,
    nothing: &Part,
    table: &Table,
    root: Option<usize>,
    i: usize,
) -> Result<Linkage, NoMemory>
    requires listing { (nulls : ℕ) × IsListing problem.now (value_of nothing.now) table.now.nodes.items nulls root }
    requires there { i < length (parts (value_of nothing.now) table.now.nodes.items root) }
    ensures { IfOk result (IsLinkageAt problem.now (parts (value_of nothing.now) table.now.nodes.items root) i) }
{
    values_are_linkages();
    sentences_are_cut_once();
    let part = part_of(nothing, table.nodes.as_slice(), root, i);
    linkage_of(alloc, problem, part)
}

// The linkage at `i` of the level, counted from 0, or none where it has no more. After an error the next call goes on.
fn nth_linkage(
    alloc: Global,
    problem: &Problem,
    nothing: &Part,
    table: &mut Table,
    root: Option<usize>,
    i: usize,
) -> Result<Option<Linkage>, NoMemory>
    requires listing { (nulls : ℕ) × IsListing problem.now (value_of nothing.now) table.old.nodes.items nulls root }
    ensures keeps { (nulls : ℕ) → IsListing problem.now (value_of nothing.now) table.old.nodes.items nulls root → IsListing problem.now (value_of nothing.now) table.new.nodes.items nulls root }
    ensures next { (nulls : ℕ) (gs : List Seen) → IsListing problem.now (value_of nothing.now) table.old.nodes.items nulls root → IsFront linkage_cmp (UnderWhole problem.now nulls) gs → length gs ≡ i → IfOk result (λ g. IsNext linkage_cmp (UnderWhole problem.now nulls) gs g) }
    ensures listed { (nulls : ℕ) (level : List Seen) → IsListing problem.now (value_of nothing.now) table.old.nodes.items nulls root → IsLevel problem.now nulls level → IfOk result (λ g. g ≡ slice_get level i) }
{
    values_are_linkages();
    sentences_are_cut_once();
    if !table.has_part(alloc, nothing, root, i)? {
        return Ok(None);
    }
    let linkage = linkage_at(alloc, problem, nothing, table, root, i)?;
    Ok(Some(linkage))
}

// Whether the level has a linkage at `i`, counted from 0. It is not written. After an error the next call goes on.
fn has_linkage(
    alloc: Global,
    nothing: &Part,
    table: &mut Table,
    root: Option<usize>,
    i: usize,
) -> Result<bool, NoMemory>
    requires listing { (positions : List (List Disjunct)) × (nulls : ℕ) × IsListing positions (value_of nothing.now) table.old.nodes.items nulls root }
    ensures keeps { (positions : List (List Disjunct)) (nulls : ℕ) → IsListing positions (value_of nothing.now) table.old.nodes.items nulls root → IsListing positions (value_of nothing.now) table.new.nodes.items nulls root }
    ensures next { (positions : List (List Disjunct)) (nulls : ℕ) (gs : List Seen) → IsListing positions (value_of nothing.now) table.old.nodes.items nulls root → IsFront linkage_cmp (UnderWhole positions nulls) gs → length gs ≡ i → IfOk result (IsThere (IsNext linkage_cmp (UnderWhole positions nulls) gs)) }
    ensures listed { (positions : List (List Disjunct)) (nulls : ℕ) (level : List Seen) → IsListing positions (value_of nothing.now) table.old.nodes.items nulls root → IsLevel positions nulls level → IfOk result (λ there. there ≡ is_some (slice_get level i)) }
{
    values_are_linkages();
    sentences_are_cut_once();
    let there = table.has_part(alloc, nothing, root, i)?;
    Ok(there)
}

// The part of the whole sentence in which nothing is linked.
fn nothing_in(alloc: Global, problem: &Problem) -> Result<Part, NoMemory>
    ensures { IfOk result (λ part. value_of part ≡ nothing_of (length problem.now)) }
{
    Part::nothing(alloc, problem.positions().len())
}

// The linkage at `i` of the level of the whole sentence, counted from 0, or none where it has no more. After an error the next call
// goes on.
fn listed_at(
    alloc: Global,
    problem: &Problem,
    table: &mut Table,
    root: Option<usize>,
    i: usize,
) -> Result<Option<Linkage>, NoMemory>
    requires listing { (nulls : ℕ) × IsListing problem.now (nothing_of (length problem.now)) table.old.nodes.items nulls root }
    ensures keeps { (nulls : ℕ) → IsListing problem.now (nothing_of (length problem.now)) table.old.nodes.items nulls root → IsListing problem.now (nothing_of (length problem.now)) table.new.nodes.items nulls root }
    ensures next { (nulls : ℕ) (gs : List Seen) → IsListing problem.now (nothing_of (length problem.now)) table.old.nodes.items nulls root → IsFront linkage_cmp (UnderWhole problem.now nulls) gs → length gs ≡ i → IfOk result (λ g. IsNext linkage_cmp (UnderWhole problem.now nulls) gs g) }
    ensures listed { (nulls : ℕ) (level : List Seen) → IsListing problem.now (nothing_of (length problem.now)) table.old.nodes.items nulls root → IsLevel problem.now nulls level → IfOk result (λ g. g ≡ slice_get level i) }
{
    let nothing = nothing_in(alloc, problem)?;
    let found = nth_linkage(alloc, problem, &nothing, table, root, i)?;
    Ok(found)
}

// Whether the level of the whole sentence has a linkage at `i`, counted from 0. It is not written. After an error the next call goes
// on.
fn is_listed_at(
    alloc: Global,
    problem: &Problem,
    table: &mut Table,
    root: Option<usize>,
    i: usize,
) -> Result<bool, NoMemory>
    requires listing { (nulls : ℕ) × IsListing problem.now (nothing_of (length problem.now)) table.old.nodes.items nulls root }
    ensures keeps { (nulls : ℕ) → IsListing problem.now (nothing_of (length problem.now)) table.old.nodes.items nulls root → IsListing problem.now (nothing_of (length problem.now)) table.new.nodes.items nulls root }
    ensures next { (nulls : ℕ) (gs : List Seen) → IsListing problem.now (nothing_of (length problem.now)) table.old.nodes.items nulls root → IsFront linkage_cmp (UnderWhole problem.now nulls) gs → length gs ≡ i → IfOk result (IsThere (IsNext linkage_cmp (UnderWhole problem.now nulls) gs)) }
    ensures listed { (nulls : ℕ) (level : List Seen) → IsListing problem.now (nothing_of (length problem.now)) table.old.nodes.items nulls root → IsLevel problem.now nulls level → IfOk result (λ there. there ≡ is_some (slice_get level i)) }
{
    let nothing = nothing_in(alloc, problem)?;
    let there = has_linkage(alloc, &nothing, table, root, i)?;
    Ok(there)
}

/// The good linkages of a problem with so many unlinked positions, in order: the next is made when it is asked for.
///
/// Contracts see `{ positions, nulls, position }`: the problem, how many positions are unlinked, and how many linkages were
/// given or passed over.
#[derive(Drop)]
pub struct Ranked {
    problem: Problem,
    table: Table,
    root: Option<usize>,
    nulls: u32,
    position: u64,
}

impl Model for Ranked {
    ghost use Rattle.std.specs.Prelude.{length};
    ghost use Rattle.lg_rank.specs.Rankings.{Ranking, IsListing};
    ghost use Rattle.lg_rank.specs.Values.{nothing_of};

    ghost Value = { Ranking };

    ghost view = { λ r. record { positions = r.problem; nulls = r.nulls; position = r.position } };

    ghost invariant = { λ r. IsListing r.problem (nothing_of (length r.problem)) r.table.nodes.items r.nulls r.root };
}

impl Ranked {
    /// The listing of a table, from its first linkage.
    pub(crate) fn of(problem: Problem, table: Table, root: Option<usize>, nulls: u32) -> Ranked
        requires { IsListing problem (nothing_of (length problem)) table.nodes.items nulls root }
        ensures { result ≡ record { positions = problem; nulls = nulls; position = 0 } }
    {
        Ranked {
            problem,
            table,
            root,
            nulls,
            position: 0,
        }
    }

    /// The listing of the good linkages with as many unlinked positions as the forest has, from the first. The forest is one of
    /// the problem.
    pub fn new(alloc: Global, problem: Problem, forest: Forest) -> Result<Ranked, NoMemory>
        requires { (from : ℕ) × IsForest problem from forest }
        ensures { IfOk result (λ ranked. ranked ≡ record { positions = problem; nulls = forest.unused; position = 0 }) }
    {
        let built = build(alloc, &problem, &forest)?;
        let Built { table, root } = built;
        Ok(Ranked::of(problem, table, root, forest.unused()))
    }

    /// Turns to the level of another forest of the problem, before its first linkage. After an error nothing has changed.
    pub fn restart(&mut self, alloc: Global, forest: Forest) -> Result<(), NoMemory>
        requires { (from : ℕ) × IsForest self.old.positions from forest }
        ensures restarted { OnOk result (self.new ≡ record { positions = self.old.positions; nulls = forest.unused; position = 0 }) }
        ensures unchanged { OnErr result (self.new ≡ self.old) }
    {
        let built = build(alloc, &self.problem, &forest)?;
        self.turn_to(built, forest.unused());
        Ok(())
    }

    // Lists by other nodes of the same problem.
    fn turn_to(&mut self, built: Built, nulls: u32)
        requires { IsListing self.old.positions (nothing_of (length self.old.positions)) built.table.nodes.items nulls built.root }
        ensures { self.new ≡ record { positions = self.old.positions; nulls = nulls; position = 0 } }
    {
        let Built { table, root } = built;
        self.table = table;
        self.root = root;
        self.nulls = nulls;
        self.position = 0;
    }

    /// The next linkage, or none where all were given. After an error the next call gives the same one.
    pub fn next(&mut self, alloc: Global) -> Result<Option<Linkage>, NoMemory>
        requires { self.old.position < 2 ^ 63 }
        ensures next { (gs : List Seen) → IsFront linkage_cmp (UnderWhole self.old.positions self.old.nulls) gs → length gs ≡ self.old.position → IfOk result (λ g. IsNext linkage_cmp (UnderWhole self.old.positions self.old.nulls) gs g) }
        ensures listed { (level : List Seen) → IsLevel self.old.positions self.old.nulls level → IfOk result (λ g. g ≡ slice_get level self.old.position) }
        ensures moved { IfOk result (λ g. self.new ≡ record self.old { position = self.old.position + given g }) }
        ensures unchanged { OnErr result (self.new ≡ self.old) }
    {
        let i = self.position as usize;
        let found = listed_at(alloc, &self.problem, &mut self.table, self.root, i)?;
        if found.is_some() {
            self.position += 1;
        }
        Ok(found)
    }

    /// Passes over the next linkage without writing it: whether there is one. After an error nothing has changed.
    pub fn pass(&mut self, alloc: Global) -> Result<bool, NoMemory>
        requires { self.old.position < 2 ^ 63 }
        ensures next { (gs : List Seen) → IsFront linkage_cmp (UnderWhole self.old.positions self.old.nulls) gs → length gs ≡ self.old.position → IfOk result (IsThere (IsNext linkage_cmp (UnderWhole self.old.positions self.old.nulls) gs)) }
        ensures listed { (level : List Seen) → IsLevel self.old.positions self.old.nulls level → IfOk result (λ there. there ≡ is_some (slice_get level self.old.position)) }
        ensures moved { IfOk result (λ there. self.new ≡ record self.old { position = self.old.position + passed_over there }) }
        ensures unchanged { OnErr result (self.new ≡ self.old) }
    {
        let i = self.position as usize;
        let there = is_listed_at(alloc, &self.problem, &mut self.table, self.root, i)?;
        if there {
            self.position += 1;
        }
        Ok(there)
    }

    /// How many linkages were given or passed over.
    pub fn position(&self) -> u64
        ensures { result ≡ self.now.position }
    {
        self.position
    }

    /// How many positions are unlinked in each linkage.
    pub fn nulls(&self) -> u32
        ensures { result ≡ self.now.nulls }
    {
        self.nulls
    }

    /// The problem, when the listing is done with.
    pub fn into_problem(self) -> Problem
        ensures { result ≡ self.positions }
    {
        self.problem
    }

    /// The problem.
    pub fn problem(&self) -> &Problem
        ensures { result.now ≡ self.now.positions }
    {
        &self.problem
    }
}
