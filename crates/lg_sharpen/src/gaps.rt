//! Which gaps the nearest links of words may span.
//!
//! The words under the nearest link of a word, to one side of it, link among themselves and with the other end of that link alone, since links do not
//! cross. So a word that has no disjunct for that is unlinked; and so is one elsewhere that has none at all. Of all these there are few.
ghost use Rattle.std.specs.Prelude.{◌≡◌, ◌≤◌, ◌<◌, ◌↔◌, ◌+◌, ◌-◌, ℕ, List, min, length, true, false, cond, ltb, slice_index_or, IfOk, IfSome, IsTrue, Some};
ghost use Rattle.lg_sharpen.specs.Filling.{AreGaps, AreLeast, AreSpans, AreStuck, AreVoids, CountsWord, IsLowered, IsNoted, IsSpanRow, MaySpan, Notes, Shuts, first_of as first_linked, flag_at as flag_in_rows, last_of as last_linked, least_at as least_in_rows, need_at as need_in, need_of, rows_in, under, void_beside, void_in, word_beside};
ghost use Rattle.lg_sharpen.specs.Sites.{items_in};

use crate::site::Site;
use lg_base::NoMemory;
use lg_member::Member;
use std::alloc::Global;
use std::marker::Model;

/// Which gaps the nearest links of words may span, to the right and to the left: for each position a flag for each length.
///
/// Contracts see `{ right, left }`, each a row of flags for each position.
#[derive(Drop)]
pub struct Gaps {
    right: Vec<Vec<bool>>,
    left: Vec<Vec<bool>>,
}

impl Model for Gaps {
    ghost use Rattle.lg_sharpen.specs.Filling.{Gaps as Seen, rows_in};

    ghost Value = { Seen };

    ghost view = { λ g. record { right = rows_in g.right.items; left = rows_in g.left.items } };
}

/// The ways to link words: for each word and each position up to it, how far to the right its links go at least, where none goes to the left
/// of the position. Contracts see these numbers, a row for each word.
#[derive(Drop)]
pub struct Ways {
    rows: Vec<Vec<u32>>,
}

impl Model for Ways {
    ghost use Rattle.std.specs.Prelude.{ℕ, List};
    ghost use Rattle.lg_sharpen.specs.Filling.{rows_in};

    ghost Value = { List (List ℕ) };

    ghost view = { λ w. rows_in w.rows.items };
}

// A way to link a position: how long its links to the left and to the right are at least. Many members of a position have the same.
#[derive(Clone, Copy)]
struct Way {
    position: u32,
    left: u32,
    right: u32,
}

impl Ways {
    /// No way to link any of so many words. The only error is running out of memory.
    pub fn none(alloc: Global, words: u32) -> Result<Ways, NoMemory> {
        let mut rows = Vec::new(alloc);
        for word in 0..words as usize {
            rows.push(vec![in alloc; u32::MAX; word + 1]?)?;
        }
        Ok(Ways { rows })
    }

    /// Notes a way to link the position: it has a link to the left that is at least so long, if that is not 0, and one to the right. No memory.
    pub fn note(&mut self, position: usize, left: usize, right: usize)
        ensures { Notes position left right self.old self.new }
    {
        note(position, left, right, &mut self.rows);
    }
}

impl Gaps {
    /// The gaps that nearest links may span among so many words: where fewer than `most` are left over, of those in the gap the words that have no
    /// way to link there, and of the others those that have none at all. The only error is running out of memory.
    pub fn of(alloc: Global, words: u32, most: u64, ways: &Ways) -> Result<Gaps, NoMemory>
        ensures { IfOk result (Shuts words most ways.now) }
    {
        let voids = voids_of(alloc, words, &ways.rows)?;
        let right = spans_of(alloc, true, words, most, &ways.rows, &voids)?;
        let left = spans_of(alloc, false, words, most, &ways.rows, &voids)?;
        Ok(Gaps { right, left })
    }

    /// Whether the nearest link of the position, to the right, or to the left, may be so long. No memory.
    pub fn may_span(&self, right: bool, position: usize, length: usize) -> bool
        ensures { IsTrue result ↔ MaySpan right self.now position length }
    {
        flag_at(self.rows(right), position, length)
    }

    fn rows(&self, right: bool) -> &[Vec<bool>]
        ensures { rows_in result.now ≡ cond right self.now.right self.now.left }
    {
        if right { &self.right } else { &self.left }
    }
}

fn flag_at(rows: &[Vec<bool>], position: usize, length: usize) -> bool
    ensures { result ≡ flag_in_rows (rows_in rows.now) position length }
{
    if position < rows.len() {
        flag_in(&rows[position], length)
    } else {
        true
    }
}

fn flag_in(row: &[bool], length: usize) -> bool
    ensures { result ≡ slice_index_or row.now length true }
{
    row.get(length).copied().unwrap_or(true)
}

/// The gaps among so many words that leave fewer than `most` over by the members' lists.
pub(crate) fn gaps_of(
    alloc: Global,
    words: u32,
    most: u64,
    left_lists: &[Vec<Site>],
    right_lists: &[Vec<Site>],
    members: &[Member<'_>],
) -> Result<Gaps, NoMemory>
    ensures { IfOk result (AreGaps words most (items_in left_lists.now) (items_in right_lists.now) members.now) }
{
    let mut ways = Ways::none(alloc, words)?;
    note_all(left_lists, right_lists, members, &mut ways);
    let gaps = Gaps::of(alloc, words, most, &ways)?;
    Ok(gaps)
}

fn note_all(
    left_lists: &[Vec<Site>],
    right_lists: &[Vec<Site>],
    members: &[Member<'_>],
    ways: &mut Ways,
)
    ensures { AreLeast (items_in left_lists.now) (items_in right_lists.now) members.now ways.new }
{
    let mut last = None;
    for member in members {
        let way = Way {
            position: member.position,
            left: need_at(left_lists, member.left),
            right: need_at(right_lists, member.right),
        };
        note_after(last, way, ways);
        last = Some(way);
    }
}

// Notes a way, where it is not the same as the last one.
fn note_after(last: Option<Way>, way: Way, ways: &mut Ways)
    ensures { IfSome last (λ w. IsNoted w ways.old) → Notes way.position way.left way.right ways.old ways.new }
{
    if is_last(last, way) {
        return;
    }
    ways.note(way.position as usize, way.left as usize, way.right as usize);
}

fn is_last(last: Option<Way>, way: Way) -> bool
    ensures { IsTrue result → last ≡ Some way }
{
    match last {
        Some(other) => is_same(other, way),
        None => false,
    }
}

fn is_same(a: Way, b: Way) -> bool
    ensures { IsTrue result → a ≡ b }
{
    a.position == b.position && a.left == b.left && a.right == b.right
}

// How long each link of a list is at least.
fn need_at(lists: &[Vec<Site>], index: usize) -> u32
    ensures { result ≡ need_in (items_in lists.now) index }
{
    if index < lists.len() {
        need(&lists[index])
    } else {
        0
    }
}

fn need(sites: &[Site]) -> u32
    ensures { result ≡ need_of sites.now }
{
    match sites.first() {
        Some(site) => site.span.from,
        None => 0,
    }
}

// Notes a way to link the position, by the least lengths of its links.
fn note(position: usize, left: usize, right: usize, rows: &mut [Vec<u32>])
    ensures { Notes position left right (rows_in rows.old) (rows_in rows.new) }
{
    if position < rows.len() {
        let count = position.saturating_sub(left) + 1;
        lower(&mut rows[position], count, end_of(position, right));
    }
}

// How far to the right links go; no more where that is a great number.
fn end_of(position: usize, right: usize) -> u32
    ensures { result ≤ position + right }
{
    u32::try_from(position.saturating_add(right)).unwrap_or(u32::MAX)
}

// Makes the first numbers no greater than the end.
fn lower(row: &mut Vec<u32>, count: usize, end: u32)
    ensures { IsLowered count end row.old.items row.new.items }
{
    let until = count.min(row.len());
    for place in 0..until {
        row[place] = row[place].min(end);
    }
}

// How many of the first words have no way to link at all: of none of them, of one, and so on up to all.
fn voids_of(alloc: Global, words: u32, least: &[Vec<u32>]) -> Result<Vec<u32>, NoMemory>
    ensures { IfOk result (λ voids. AreVoids words (rows_in least.now) voids.items) }
{
    let mut voids = Vec::with_capacity(alloc, words as usize + 1)?;
    let mut count = 0;
    voids.push(count)?;
    for word in 0..words {
        if is_stuck(least, 0, words as usize, word as usize) {
            count += 1;
        }
        voids.push(count)?;
    }
    Ok(voids)
}

fn spans_of(
    alloc: Global,
    right: bool,
    words: u32,
    most: u64,
    least: &[Vec<u32>],
    voids: &[u32],
) -> Result<Vec<Vec<bool>>, NoMemory>
    requires { AreVoids words (rows_in least.now) voids.now }
    ensures { IfOk result (λ rows. AreSpans right words most (rows_in least.now) (rows_in rows.items)) }
{
    let mut rows = Vec::new(alloc);
    for position in 0..words {
        let row = span_row(alloc, right, words, most, least, voids, position)?;
        rows.push(row)?;
    }
    Ok(rows)
}

// The flags of a position: which lengths its nearest link may have.
fn span_row(
    alloc: Global,
    right: bool,
    words: u32,
    most: u64,
    least: &[Vec<u32>],
    voids: &[u32],
    position: u32,
) -> Result<Vec<bool>, NoMemory>
    requires { AreVoids words (rows_in least.now) voids.now }
    ensures { IfOk result (λ row. IsSpanRow right words most (rows_in least.now) position row.items) }
{
    let counts = stuck_row(alloc, right, words, least, position)?;
    let mut row = Vec::with_capacity(alloc, counts.len())?;
    for length in 0..counts.len() {
        let others = beside(right, voids, position, length);
        row.push(is_open(&counts, length, others, most))?;
    }
    Ok(row)
}

fn is_open(counts: &[u32], index: usize, others: u32, most: u64) -> bool
    requires { index < length counts.now }
    ensures { result ≡ false → most ≤ slice_index_or counts.now index 0 + others }
{
    u64::from(counts[index]) + u64::from(others) < most
}

// How many words, but for those under a link of the position, have no way to link at all.
fn beside(right: bool, voids: &[u32], position: u32, length: usize) -> u32
    requires { length < 9223372036854775808 }
    ensures { (rows : List (List ℕ)) (n : ℕ) → AreVoids n rows voids.now → result ≤ void_beside right rows n position length }
{
    let first = first_under(right, position, length);
    let end = first + length.saturating_sub(1);
    before(voids, first).saturating_add(since(voids, end))
}

fn first_under(right: bool, position: u32, length: usize) -> usize
    ensures value { result ≡ under right position length }
    ensures small { result ≤ position + 1 }
{
    if right {
        position as usize + 1
    } else {
        (position as usize).saturating_sub(length) + 1
    }
}

// Of the words before one, and of those from it on.
fn before(voids: &[u32], word: usize) -> u32
    ensures { (rows : List (List ℕ)) (n : ℕ) → AreVoids n rows voids.now → result ≤ void_in rows n 0 (min word n) }
{
    voids.get(word).copied().unwrap_or(0)
}

fn since(voids: &[u32], word: usize) -> u32
    ensures { (rows : List (List ℕ)) (n : ℕ) → AreVoids n rows voids.now → result ≤ void_in rows n word (n - word) }
{
    if word < voids.len() {
        let all = voids[voids.len() - 1];
        all.saturating_sub(voids[word])
    } else {
        0
    }
}

// For each length how many words under such a link of the position have no way to link, where no link of the position is nearer; no more than
// are counted.
fn stuck_row(
    alloc: Global,
    right: bool,
    words: u32,
    least: &[Vec<u32>],
    position: u32,
) -> Result<Vec<u32>, NoMemory>
    ensures { IfOk result (λ counts. AreStuck right (rows_in least.now) position counts.items) }
{
    let lengths = lengths_of(right, words, position);
    let mut counts = vec![in alloc; 0; lengths as usize]?;
    for before in 0..lengths {
        count_word(right, least, position, before, &mut counts);
    }
    Ok(counts)
}

// How many lengths links of the position have, with 0.
fn lengths_of(right: bool, words: u32, position: u32) -> u32
    ensures { right ≡ false → result ≤ position + 1 }
{
    if right {
        words.saturating_sub(position)
    } else {
        position.saturating_add(1)
    }
}

// Counts a word at the lengths at which it has no way to link: there are so many words before it. Once it has a way, it has one under each longer
// link.
fn count_word(right: bool, least: &[Vec<u32>], position: u32, before: u32, counts: &mut [u32])
    requires { right ≡ false → length counts.old ≤ position + 1 }
    ensures { CountsWord right (rows_in least.now) position before counts.old counts.new }
{
    let word = word_at(right, position, before);
    for length in before as usize + 2..counts.len() {
        let first = first_of(right, position, length);
        let last = last_of(right, position, length);
        if !is_stuck(least, first, last, word) {
            return;
        }
        counts[length] = counts[length].saturating_add(1);
    }
}

// The word of a side with so many words before it.
fn word_at(right: bool, position: u32, before: u32) -> usize
    ensures { result ≡ word_beside right position before }
{
    if right {
        position as usize + before as usize + 1
    } else {
        position.saturating_sub(before).saturating_sub(1) as usize
    }
}

fn first_of(right: bool, position: u32, length: usize) -> usize
    ensures { result ≡ first_linked right position length }
{
    if right {
        position as usize + 1
    } else {
        (position as usize).saturating_sub(length)
    }
}

fn last_of(right: bool, position: u32, length: usize) -> usize
    requires { length < 9223372036854775808 }
    ensures { result ≡ last_linked right position length }
{
    if right {
        position as usize + length
    } else {
        position.saturating_sub(1) as usize
    }
}

fn is_stuck(least: &[Vec<u32>], first: usize, last: usize, word: usize) -> bool
    ensures { result ≡ ltb last (least_in_rows (rows_in least.now) word first) }
{
    last < least_at(least, word, first)
}

fn least_at(rows: &[Vec<u32>], word: usize, first: usize) -> usize
    ensures { result ≡ least_in_rows (rows_in rows.now) word first }
{
    if word < rows.len() {
        least_in(&rows[word], first)
    } else {
        0
    }
}

fn least_in(row: &[u32], first: usize) -> usize
    ensures { result ≡ slice_index_or row.now first 0 }
{
    row.get(first).copied().unwrap_or(0) as usize
}
