//! The least number of unlinked words of a span: each span is looked at once, depth first.
ghost use Rattle.std.specs.Prelude.{◌≡◌, ◌↔◌, ◌+◌, ◌<◌, ◌^◌, Some, IsTrue, IfOk, IfSome, MatchOption, OnOk};
ghost use Rattle.lg_region.specs.Groups.{IsGroup, StandsIn};
ghost use Rattle.lg_region.specs.Keys.{IsAltOfRegion, IsValidKey};
ghost use Rattle.lg_region.specs.Openings.{BeginsSo, IsGapOf, IsIn};
ghost use Rattle.lg_region.specs.Groups.{region_of_gap};
ghost use Rattle.lg_fewest.specs.Spans.{HasIn, HasUnlinked, HasSum, IsAltIn, IsCutSum, IsEnding, StandsAt, key_of, left_span, right_span, span_before};
ghost use Rattle.lg_fewest.specs.Least.{AreLeast, IsLeast, IsWithin, Lowers, SumsDecide};

use crate::span::{Span, right_of};
use crate::table::Table;
use lg_base::NoMemory;
use lg_region::{Alt, Beginning, Gap, Group, Lists, beginnings, gap_of, groups_at, push_endings};
use std::alloc::Global;

/// The least number of words that a linkage of the span leaves unlinked. None where it has no linkage.
#[cycle(search)]
pub(crate) fn least(
    alloc: Global,
    lists: &Lists<'_>,
    table: &mut Table,
    span: Span,
) -> Result<Option<u32>, NoMemory>
    requires law { SumsDecide lists.now }
    requires span { IsValidKey lists.now.positions lists.now.lists (key_of span) }
    requires table { AreLeast lists.now table.old }
    ensures least { IfOk result (IsLeast (HasUnlinked lists.entry.now span)) }
    ensures table { OnOk result (AreLeast lists.entry.now table.new) }
{
    if let Some(known) = table.get(&span) {
        return Ok(*known);
    }
    let found = explore(alloc, lists, table, span)?;
    table.add(span, found)?;
    Ok(found)
}

#[cycle(search)]
fn explore(
    alloc: Global,
    lists: &Lists<'_>,
    table: &mut Table,
    span: Span,
) -> Result<Option<u32>, NoMemory>
    requires law { SumsDecide lists.now }
    requires span { IsValidKey lists.now.positions lists.now.lists (key_of span) }
    requires table { AreLeast lists.now table.old }
    ensures least { IfOk result (IsLeast (HasUnlinked lists.entry.now span)) }
    ensures table { OnOk result (AreLeast lists.entry.now table.new) }
{
    match gap_of(lists, span.key()) {
        None => Ok(Some(span.right - span.left - 1)),
        Some(gap) => least_cut(alloc, lists, table, span, &gap),
    }
}

// The least sum over the cuts of a span that has a list.
#[cycle(search)]
fn least_cut(
    alloc: Global,
    lists: &Lists<'_>,
    table: &mut Table,
    span: Span,
    gap: &Gap,
) -> Result<Option<u32>, NoMemory>
    requires law { SumsDecide lists.now }
    requires span { IsValidKey lists.now.positions lists.now.lists (key_of span) }
    requires gap { IsGapOf lists.now (key_of span) gap.now }
    requires table { AreLeast lists.now table.old }
    ensures least { IfOk result (IsLeast (HasUnlinked lists.entry.now span)) }
    ensures table { OnOk result (AreLeast lists.entry.now table.new) }
{
    let mut least = None;
    for word in gap.left + 1..gap.right {
        if is_within(least, 0) {
            return Ok(least);
        }
        least = cut_at(alloc, lists, table, span, gap, word, least)?;
    }
    Ok(least)
}

// The least of a number, if there is one, and of the sums over the cuts at a word.
#[cycle(search)]
fn cut_at(
    alloc: Global,
    lists: &Lists<'_>,
    table: &mut Table,
    span: Span,
    gap: &Gap,
    word: u32,
    most: Option<u32>,
) -> Result<Option<u32>, NoMemory>
    requires law { SumsDecide lists.now }
    requires span { IsValidKey lists.now.positions lists.now.lists (key_of span) }
    requires gap { IsGapOf lists.now (key_of span) gap.now }
    requires after { gap.now.left < word }
    requires before { word < gap.now.right }
    requires table { AreLeast lists.now table.old }
    ensures lowers { IfOk result (Lowers (IsCutSum lists.entry.now span (StandsAt word)) most) }
    ensures table { OnOk result (AreLeast lists.entry.now table.new) }
{
    let spare = table.spare.take_groups(alloc);
    let groups = groups_at(lists, gap, word, spare)?;
    let mut least = most;
    for index in 0..groups.len() {
        let group = &groups[index];
        least = cut_in(alloc, lists, table, span, gap, group, least)?;
    }
    table.spare.keep_groups(groups);
    Ok(least)
}

// The same of the cuts of a group.
#[cycle(search)]
fn cut_in(
    alloc: Global,
    lists: &Lists<'_>,
    table: &mut Table,
    span: Span,
    gap: &Gap,
    group: &Group,
    most: Option<u32>,
) -> Result<Option<u32>, NoMemory>
    requires law { SumsDecide lists.now }
    requires span { IsValidKey lists.now.positions lists.now.lists (key_of span) }
    requires gap { IsGapOf lists.now (key_of span) gap.now }
    requires group { IsGroup lists.now gap.now group.now }
    requires table { AreLeast lists.now table.old }
    ensures lowers { IfOk result (Lowers (IsCutSum lists.entry.now span (StandsIn group.now.word group.now.from group.now.to)) most) }
    ensures table { OnOk result (AreLeast lists.entry.now table.new) }
{
    let spare = table.spare.take_begins(alloc);
    let begins = beginnings(lists, gap, group, 0, spare)?;
    let mut least = most;
    for index in 0..begins.len() {
        let begin = &begins[index];
        least = begin_with(alloc, lists, table, span, gap, group, begin, least)?;
    }
    table.spare.keep_begins(begins);
    Ok(least)
}

// The same of those that begin so.
#[cycle(search)]
fn begin_with(
    alloc: Global,
    lists: &Lists<'_>,
    table: &mut Table,
    span: Span,
    gap: &Gap,
    group: &Group,
    begin: &Beginning,
    most: Option<u32>,
) -> Result<Option<u32>, NoMemory>
    requires law { SumsDecide lists.now }
    requires span { IsValidKey lists.now.positions lists.now.lists (key_of span) }
    requires gap { IsGapOf lists.now (key_of span) gap.now }
    requires group { IsGroup lists.now gap.now group.now }
    requires begins { (a : _) × IsIn lists.now gap.now group.now a × BeginsSo gap.now group.now begin.now a }
    requires table { AreLeast lists.now table.old }
    ensures lowers { IfOk result (Lowers (IsCutSum lists.entry.now span (IsEnding gap.now group.now begin.now)) most) }
    ensures table { OnOk result (AreLeast lists.entry.now table.new) }
{
    let before = Span {
        left: gap.left,
        right: group.word,
        llist: begin.way.near,
        rlist: begin.way.far,
    };
    let found = least(alloc, lists, table, before)?;
    match found {
        None => Ok(most),
        Some(left) => go_on(alloc, lists, table, span, gap, group, begin, left, most),
    }
}

// The same, where the left side has this least number. Nothing is looked for on the right where it is no better than `most`.
#[cycle(search)]
fn go_on(
    alloc: Global,
    lists: &Lists<'_>,
    table: &mut Table,
    span: Span,
    gap: &Gap,
    group: &Group,
    begin: &Beginning,
    left: u32,
    most: Option<u32>,
) -> Result<Option<u32>, NoMemory>
    requires law { SumsDecide lists.now }
    requires span { IsValidKey lists.now.positions lists.now.lists (key_of span) }
    requires gap { IsGapOf lists.now (key_of span) gap.now }
    requires group { IsGroup lists.now gap.now group.now }
    requires begins { (a : _) × IsIn lists.now gap.now group.now a × BeginsSo gap.now group.now begin.now a }
    requires left { IsLeast (HasUnlinked lists.now (span_before gap.now group.now begin.now)) (Some left) }
    requires table { AreLeast lists.now table.old }
    ensures lowers { IfOk result (Lowers (IsCutSum lists.entry.now span (IsEnding gap.now group.now begin.now)) most) }
    ensures table { OnOk result (AreLeast lists.entry.now table.new) }
{
    if is_within(most, left) {
        return Ok(most);
    }
    let mut alts = Vec::new(alloc);
    push_endings(alloc, lists, gap, group, begin, &mut alts)?;
    let mut lowest = most;
    for index in 0..alts.len() {
        lowest = end_with(alloc, lists, table, span, alts[index], left, lowest)?;
    }
    Ok(lowest)
}

// The least of a number, if there is one, and of the sums of an alternative whose left side has this least number.
#[cycle(search)]
fn end_with(
    alloc: Global,
    lists: &Lists<'_>,
    table: &mut Table,
    span: Span,
    alt: Alt,
    left: u32,
    most: Option<u32>,
) -> Result<Option<u32>, NoMemory>
    requires law { SumsDecide lists.now }
    requires span { IsValidKey lists.now.positions lists.now.lists (key_of span) }
    requires alt { IsAltIn lists.now span alt }
    requires left { IsLeast (HasIn lists.now (left_span alt)) (Some left) }
    requires table { AreLeast lists.now table.old }
    ensures lowers { IfOk result (Lowers (HasSum lists.entry.now alt) most) }
    ensures table { OnOk result (AreLeast lists.entry.now table.new) }
{
    match right_of(alt) {
        None => Ok(most),
        Some(behind) => end_at(alloc, lists, table, span, alt, behind, left, most),
    }
}

// The same, where this is its right side.
#[cycle(search)]
fn end_at(
    alloc: Global,
    lists: &Lists<'_>,
    table: &mut Table,
    span: Span,
    alt: Alt,
    behind: Span,
    left: u32,
    most: Option<u32>,
) -> Result<Option<u32>, NoMemory>
    requires law { SumsDecide lists.now }
    requires span { IsValidKey lists.now.positions lists.now.lists (key_of span) }
    requires alt { IsAltIn lists.now span alt }
    requires behind { right_span alt ≡ Some behind }
    requires left { IsLeast (HasIn lists.now (left_span alt)) (Some left) }
    requires table { AreLeast lists.now table.old }
    ensures lowers { IfOk result (Lowers (HasSum lists.entry.now alt) most) }
    ensures table { OnOk result (AreLeast lists.entry.now table.new) }
{
    let right = least(alloc, lists, table, behind)?;
    Ok(lower(most, left, right))
}

// Whether a number, if there is one, is no more than another.
fn is_within(least: Option<u32>, number: u32) -> bool
    ensures { IsTrue result ↔ IsWithin least number }
{
    match least {
        Some(least) => least <= number,
        None => false,
    }
}

// The least of a number, if there is one, and of a sum, if it has both parts.
pub(crate) fn lower(most: Option<u32>, left: u32, right: Option<u32>) -> Option<u32>
    requires { IfSome right (λ right. left + right < 2 ^ 32) }
    ensures { MatchOption right (result ≡ most) (λ right. Lowers (λ m. m ≡ left + right) most result) }
{
    match right {
        None => most,
        Some(right) => least_of(most, left + right),
    }
}

fn least_of(most: Option<u32>, number: u32) -> Option<u32>
    ensures { Lowers (λ m. m ≡ number) most result }
{
    match most {
        None => Some(number),
        Some(most) => Some(most.min(number)),
    }
}
