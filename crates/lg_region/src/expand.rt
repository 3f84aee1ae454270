//! The alternatives of a key.
ghost use Rattle.std.specs.Prelude.{◌≡◌, ◌↔◌, ◌+◌, ◌<◌, ◌≤◌, ◌^◌, List, [], length, slice_index_or, IfOk, OnOk, Contains};
ghost use Rattle.lg_gram.specs.Connectors.{Connector};
ghost use Rattle.lg_gram.specs.declared.disjunct.Disjunct.{Disjunct};
ghost use Rattle.lg_region.specs.Fronts.{AreOnce};
ghost use Rattle.lg_region.specs.Keys.{IsValidKey, IsAltOf, IsAltOfRegion, IsAltOfWhole, region_of_numbers};
ghost use Rattle.lg_region.specs.Ways.{AreExactly, AddsExactly};
ghost use Rattle.lg_region.specs.Groups.{AddsIn, AddsFirst, IsGroup, IsKnownGap, IsRightOf, region_of_gap};
ghost use Rattle.lg_region.specs.Openings.{IsGapOf, IsIn, LeavesLeft};
ghost use Rattle.lg_region.specs.declared.alternative.Alt.{Alt};

use crate::alternative::{Alt, Alts};
use crate::group::{Gap, Group, Right, rights};
use crate::key::Key;
use crate::lists::Lists;
use crate::opening::{beginnings, gap_of, groups_at, push_ended};
use lg_base::{NoMemory, Steps};
use std::alloc::Global;

/// The alternatives of a key, each once. One call is one step.
///
/// Those with the same left key and the same disjunct's left list stand together.
pub fn expand_key<L>(
    alloc: Global,
    lists: &Lists<'_>,
    key: Key,
    steps: &mut Steps<L>,
) -> Result<Alts, NoMemory>
    requires key { IsValidKey lists.now.positions lists.now.lists key }
    requires room { steps.old < 2 ^ 127 }
    ensures exactly { IfOk result (λ alts. (a : Alt) → Contains alts a ↔ IsAltOf lists.entry.now.positions lists.entry.now.lists key a) }
    ensures once { IfOk result (λ alts. AreOnce alts) }
    ensures step { steps.new ≡ steps.old + 1 }
{
    steps.tick();
    lists.are_numbered();
    lists.keep_limits();
    let items = alternatives(alloc, lists, key)?;
    Alts::of(alloc, &items)
}

fn alternatives(alloc: Global, lists: &Lists<'_>, key: Key) -> Result<Vec<Alt>, NoMemory>
    requires { IsValidKey lists.now.positions lists.now.lists key }
    ensures { IfOk result (λ items. AreExactly items.items (IsAltOf lists.entry.now.positions lists.entry.now.lists key)) }
{
    lists.are_numbered();
    if let Some(gap) = gap_of(lists, key) {
        return of_gap(alloc, lists, &gap);
    }
    match key {
        Key::Whole { nulls } => of_whole(alloc, lists, nulls),
        Key::Region {
            left,
            right,
            nulls,
            ..
        } => of_empty_gap(alloc, left, right, nulls),
    }
}

// The alternatives of a region with a list.
fn of_gap(alloc: Global, lists: &Lists<'_>, gap: &Gap) -> Result<Vec<Alt>, NoMemory>
    requires { (key : _) × IsGapOf lists.now key gap.now }
    ensures { IfOk result (λ items. AreExactly items.items (IsAltOfRegion lists.entry.now.positions lists.entry.now.lists (region_of_gap lists.entry.now.lists gap.now))) }
{
    lists.are_numbered();
    let mut out = Vec::new(alloc);
    for word in gap.left + 1..gap.right {
        push_word(alloc, lists, gap, word, &mut out)?;
    }
    Ok(out)
}

// Adds those that cut the region at a word.
fn push_word(
    alloc: Global,
    lists: &Lists<'_>,
    gap: &Gap,
    word: u32,
    out: &mut Vec<Alt>,
) -> Result<(), NoMemory>
    requires gap { (key : _) × IsGapOf lists.now key gap.now }
    requires after { gap.now.left < word }
    requires before { word < gap.now.right }
    ensures { OnOk result (AddsIn lists.entry.now gap.now word 0 (length (slice_index_or lists.entry.now.positions word [])) out.old.items out.new.items) }
{
    let groups = groups_at(lists, gap, word, Vec::new(alloc))?;
    for group in groups.iter() {
        push_group(alloc, lists, gap, group, out)?;
    }
    Ok(())
}

// Adds those of a group.
fn push_group(
    alloc: Global,
    lists: &Lists<'_>,
    gap: &Gap,
    group: &Group,
    out: &mut Vec<Alt>,
) -> Result<(), NoMemory>
    requires gap { (key : _) × IsGapOf lists.now key gap.now }
    requires group { IsGroup lists.now gap.now group.now }
    ensures { OnOk result (AddsIn lists.entry.now gap.now group.now.word group.now.from group.now.to out.old.items out.new.items) }
{
    lists.are_numbered();
    let rights = rights(lists, gap, group, Vec::new(alloc))?;
    for nulls in 0..gap.nulls + 1 {
        push_level(alloc, lists, gap, group, nulls, &rights, out)?;
    }
    Ok(())
}

// Adds those of a group that leave so many words unlinked on the left.
fn push_level(
    alloc: Global,
    lists: &Lists<'_>,
    gap: &Gap,
    group: &Group,
    nulls: u32,
    rights: &[Right],
    out: &mut Vec<Alt>,
) -> Result<(), NoMemory>
    requires gap { IsKnownGap lists.now gap.now }
    requires group { IsGroup lists.now gap.now group.now }
    requires rights { AreExactly rights.now (IsRightOf lists.now gap.now group.now) }
    ensures { OnOk result (AddsExactly out.old.items out.new.items (λ a. IsIn lists.entry.now gap.now group.now a × LeavesLeft nulls a)) }
{
    lists.are_numbered();
    let begins = beginnings(lists, gap, group, nulls, Vec::new(alloc))?;
    for begin in begins.iter() {
        push_ended(gap, group, begin, rights, out)?;
    }
    Ok(())
}

// Between two empty lists nothing is linked.
fn of_empty_gap(alloc: Global, left: u32, right: u32, nulls: u32) -> Result<Vec<Alt>, NoMemory>
    requires { left < right }
    ensures { (positions : List (List Disjunct)) (lists : List (List Connector)) → IfOk result (λ items. AreExactly items.items (IsAltOfRegion positions lists (region_of_numbers lists left right 0 0 nulls))) }
{
    let mut out = Vec::new(alloc);
    if nulls == right - left - 1 {
        out.push(Alt::AllNull)?;
    }
    Ok(out)
}

// The alternatives of the whole sentence.
fn of_whole(alloc: Global, lists: &Lists<'_>, nulls: u32) -> Result<Vec<Alt>, NoMemory>
    requires { nulls ≤ length lists.now.positions }
    ensures { IfOk result (λ items. AreExactly items.items (IsAltOfWhole lists.entry.now.positions lists.entry.now.lists nulls)) }
{
    let mut out = Vec::new(alloc);
    if nulls == lists.words() {
        out.push(Alt::AllNull)?;
        return Ok(out);
    }
    for word in 0..nulls + 1 {
        push_firsts(lists, nulls, word, &mut out)?;
    }
    Ok(out)
}

// Adds those whose first linked word is this one.
fn push_firsts(lists: &Lists<'_>, nulls: u32, word: u32, out: &mut Vec<Alt>) -> Result<(), NoMemory>
    requires few { nulls < length lists.now.positions }
    requires enough { word ≤ nulls }
    ensures { OnOk result (AddsFirst lists.entry.now nulls word 0 (length (slice_index_or lists.entry.now.positions word [])) out.old.items out.new.items) }
{
    for number in 0..lists.count(word) {
        push_first(lists, nulls, word, number, out)?;
    }
    Ok(())
}

fn push_first(
    lists: &Lists<'_>,
    nulls: u32,
    word: u32,
    number: u32,
    out: &mut Vec<Alt>,
) -> Result<(), NoMemory>
    requires few { nulls < length lists.now.positions }
    requires enough { word ≤ nulls }
    requires listed { number < length (slice_index_or lists.now.positions word []) }
    ensures { OnOk result (AddsFirst lists.entry.now nulls word number (number + 1) out.old.items out.new.items) }
{
    lists.are_numbered();
    let sides = lists.sides(word, number);
    if sides.left != 0 {
        return Ok(());
    }
    let rest = Key::Region {
        left: word,
        right: lists.words(),
        llist: sides.right,
        rlist: 0,
        nulls: nulls - word,
    };
    out.push(Alt::Split {
        word,
        disjunct: number,
        to_left: None,
        to_right: None,
        lkey: None,
        rkey: Some(rest),
    })?;
    Ok(())
}
