//! How a chunk of a sentence, which has no blanks, is cut into pieces.
ghost use Rattle.std.specs.Prelude.{◌≡◌, ◌+◌, ◌<◌, ◌^◌, ◌≤◌, length, IfOk, MatchOption};
ghost use Rattle.lg_token.specs.Words.{Has};
ghost use Rattle.lg_token.specs.Cuts.{is_closing, is_opening, possessive, HasNoClosing, HasNoOpening, HasNoPossessive, whole, AreCut};
ghost use Rattle.lg_token.specs.Steps.{pieces_in, total, HasPieces, IsClosing, IsOpening, IsPossessive, IsStep};

use crate::words::is_known;
use lg_base::NoMemory;
use lg_dict::View;
use std::alloc::Global;

const POSSESSIVE: &[u8] = b"'s";

/// The pieces of a chunk, in the order of the text: what was cut off before the middle piece, the middle piece, and
/// what was cut off after it.
#[derive(Debug, Drop)]
pub(crate) struct Cut<'a> {
    pub before: Vec<&'a [u8]>,
    pub middle: &'a [u8],
    pub after: Vec<&'a [u8]>,
}

/// On which side of what is left a piece was cut off.
#[derive(Clone, Copy, Debug, PartialEq, Eq)]
pub(crate) enum Side {
    Before,
    After,
}

/// A piece that was cut off, and what is left.
#[derive(Clone, Copy, Debug)]
pub(crate) struct Off<'a> {
    pub side: Side,
    pub piece: &'a [u8],
    pub rest: &'a [u8],
}

/// Cuts a chunk, after link-parser: of a chunk that has no word a closing sign is cut off, else an opening sign, else
/// `'s` where the dictionary has it, and then the rest is cut.
///
/// Each step looks the rest up, which reads it only where it is no longer than the longest word of the dictionary. So
/// the time is linear in the chunk, and for each piece that is cut off in the longest word.
pub(crate) fn cut_chunk<'a>(
    alloc: Global,
    view: &View,
    initial: bool,
    chunk: &'a [u8],
) -> Result<Cut<'a>, NoMemory>
    ensures pieces { IfOk result (λ cut. AreCut view.now initial chunk.now (pieces_in cut)) }
    ensures lengths { IfOk result (λ cut. let p = pieces_in cut in total p.before + (length p.middle + total p.after) ≡ length chunk.now) }
{
    let mut before = Vec::new(alloc);
    let mut after = Vec::new(alloc);
    let mut middle = chunk;
    while let Some(off) = next_cut(alloc, view, initial, middle)? {
        middle = off.rest;
        match off.side {
            Side::Before => before.push(off.piece)?,
            Side::After => after.push(off.piece)?,
        }
    }
    after.reverse();
    Ok(Cut {
        before,
        middle,
        after,
    })
}

/// How many pieces a chunk has.
pub(crate) fn count_pieces(
    alloc: Global,
    view: &View,
    initial: bool,
    chunk: &[u8],
) -> Result<u64, NoMemory>
    requires { length chunk.now < 2 ^ 32 }
    ensures pieces { IfOk result (HasPieces view.now initial chunk.now) }
    ensures few { IfOk result (λ count. count ≤ length chunk.now + 1) }
{
    let mut count = 0;
    let mut rest = chunk;
    while let Some(off) = next_cut(alloc, view, initial, rest)? {
        rest = off.rest;
        count += 1;
    }
    Ok(count + 1)
}

// What is cut off a chunk next, or `None` where it is one piece.
fn next_cut<'a>(
    alloc: Global,
    view: &View,
    initial: bool,
    chunk: &'a [u8],
) -> Result<Option<Off<'a>>, NoMemory>
    ensures { IfOk result (λ off. MatchOption off (AreCut view.now initial chunk.now (whole chunk.now)) (IsStep view.now initial chunk.now)) }
{
    if is_known(alloc, view, initial, chunk)? {
        return Ok(None);
    }
    if let Some(off) = closing_cut(chunk) {
        return Ok(Some(off));
    }
    if let Some(off) = opening_cut(chunk) {
        return Ok(Some(off));
    }
    if view.has(POSSESSIVE) {
        return Ok(possessive_cut(chunk));
    }
    Ok(None)
}

fn closing_cut(chunk: &[u8]) -> Option<Off<'_>>
    ensures { MatchOption result (HasNoClosing chunk.now) (IsClosing chunk.now) }
{
    let (last, rest) = chunk.split_last()?;
    if rest.is_empty() || !is_closing(*last) {
        return None;
    }
    Some(Off {
        side: Side::After,
        piece: &chunk[rest.len()..],
        rest,
    })
}

fn opening_cut(chunk: &[u8]) -> Option<Off<'_>>
    ensures { MatchOption result (HasNoOpening chunk.now) (IsOpening chunk.now) }
{
    let (first, rest) = chunk.split_first()?;
    if rest.is_empty() || !is_opening(*first) {
        return None;
    }
    Some(Off {
        side: Side::Before,
        piece: &chunk[..1],
        rest,
    })
}

fn possessive_cut(chunk: &[u8]) -> Option<Off<'_>>
    ensures { MatchOption result (HasNoPossessive chunk.now) (IsPossessive chunk.now) }
{
    let rest = chunk.strip_suffix(POSSESSIVE)?;
    if rest.is_empty() {
        return None;
    }
    Some(Off {
        side: Side::After,
        piece: &chunk[rest.len()..],
        rest,
    })
}

fn is_closing(byte: u8) -> bool
    ensures { result ≡ is_closing byte }
{
    matches!(
        byte,
        b'.' | b',' | b';' | b':' | b'!' | b'?' | b')' | b']' | b'}' | b'"' | b'\''
    )
}

fn is_opening(byte: u8) -> bool
    ensures { result ≡ is_opening byte }
{
    matches!(byte, b'(' | b'[' | b'{' | b'"' | b'\'')
}
