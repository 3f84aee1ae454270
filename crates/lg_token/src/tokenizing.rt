//! The tokens of a sentence.
ghost use Rattle.std.specs.Prelude.{◌≡◌, ◌+◌, ◌^◌, ◌<◌, [], ◌∷◌, length, map, true, false, IfOk, OnOk};
ghost use Rattle.lg_lex.specs.Runs.{runs_from};
ghost use Rattle.lg_lex.specs.declared.run.Separators.TheVariants.{Blanks};
ghost use Rattle.lg_dict.specs.Dictionary.{Dictionary};
ghost use Rattle.lg_token.specs.Places.{Lead};
ghost use Rattle.lg_token.specs.Steps.{total, Adds};
ghost use Rattle.lg_token.specs.Tokens.{cut_off, AreOfPieces, AreOfChunk, AreOfChunks, IsWall, AreTokens};

use crate::cuts::cut_chunk;
use crate::place::{Kind, Place, tokens_at};
use lg_base::NoMemory;
use lg_dict::View;
use lg_gram::Tokens;
use lg_lex::{Separators, next_run, runs_are_one_list};
use std::alloc::Global;

/// The words of the walls.
pub(crate) const LEFT_WALL: &[u8] = b"LEFT-WALL";

pub(crate) const RIGHT_WALL: &[u8] = b"RIGHT-WALL";

/// The tokens of a sentence, in the order of the text, each with its words: a wall at each end, where the dictionary
/// has it, and the pieces of the chunks between spaces and tabs, after link-parser.
///
/// The text has fewer than 2^32 bytes. A token's text is what stands from its first byte to its last in the sentence; a
/// wall has an empty span. The time is linear in the text and the words that are found, and for each sign that is cut
/// off in the longest word of the dictionary.
pub fn tokens(alloc: Global, view: &View, text: &str) -> Result<Tokens, NoMemory>
    requires { length text.now < 2 ^ 32 }
    ensures { IfOk result (AreTokens view.now text.now) }
{
    let places = places_in(alloc, view, text)?;
    let mut lists = Vec::new(alloc);
    let tokens = tokens_at(alloc, view, &mut lists, &places)?;
    Ok(tokens)
}

/// Where the tokens of a sentence stand, in the order of the text. No word is made.
///
/// The text has fewer than 2^32 bytes.
pub(crate) fn places_in<'a>(
    alloc: Global,
    view: &View,
    text: &'a str,
) -> Result<Vec<Place<'a>>, NoMemory>
    requires { length text.now < 2 ^ 32 }
    ensures { IfOk result (λ places. Lead view.now (AreTokens view.now text.now) places.items) }
{
    runs_are_one_list();
    let text = text.as_bytes();
    let mut places = Vec::new(alloc);
    add_wall(view, LEFT_WALL, 0, &mut places)?;
    add_chunks(alloc, view, text, &mut places)?;
    add_wall(view, RIGHT_WALL, text.len(), &mut places)?;
    Ok(places)
}

// Adds a wall, where the dictionary has its word.
fn add_wall<'a>(
    view: &View,
    name: &'a [u8],
    at: usize,
    places: &mut Vec<Place<'a>>,
) -> Result<(), NoMemory>
    requires { at < 2 ^ 32 }
    ensures { OnOk result (Adds view.now (IsWall view.now name.now at) places.old.items places.new.items) }
{
    if !view.has(name) {
        return Ok(());
    }
    places.push(Place {
        from: at as u32,
        to: at as u32,
        text: name,
        kind: Kind::Wall,
    })?;
    Ok(())
}

fn add_chunks<'a>(
    alloc: Global,
    view: &View,
    text: &'a [u8],
    places: &mut Vec<Place<'a>>,
) -> Result<(), NoMemory>
    requires { length text.now < 2 ^ 32 }
    ensures { OnOk result (Adds view.now (AreOfChunks view.now true (runs_from Blanks text.now 0)) places.old.items places.new.items) }
{
    let mut from = 0;
    let mut initial = true;
    while let Some(run) = next_run(Separators::Blanks, text, from) {
        add_chunk(alloc, view, initial, run.start, run.bytes, places)?;
        initial = false;
        from = run.end;
    }
    Ok(())
}

// Adds the tokens of a chunk that begins at this place.
fn add_chunk<'a>(
    alloc: Global,
    view: &View,
    initial: bool,
    start: usize,
    chunk: &'a [u8],
    places: &mut Vec<Place<'a>>,
) -> Result<(), NoMemory>
    requires { start + length chunk.now < 2 ^ 32 }
    ensures { OnOk result (Adds view.now (AreOfChunk view.now initial (chunk.now, start)) places.old.items places.new.items) }
{
    let cut = cut_chunk(alloc, view, initial, chunk)?;
    let middle = add_pieces(start, &cut.before, places)?;
    add_piece(initial, middle, cut.middle, places)?;
    add_pieces(middle + cut.middle.len(), &cut.after, places)?;
    Ok(())
}

// Adds the tokens of pieces that were cut off and begin at this place, and says where they end.
fn add_pieces<'a>(
    start: usize,
    pieces: &[&'a [u8]],
    places: &mut Vec<Place<'a>>,
) -> Result<usize, NoMemory>
    requires { start + total (map (λ piece. piece.now) pieces.now) < 2 ^ 32 }
    ensures end { IfOk result (λ end. end ≡ start + total (map (λ piece. piece.now) pieces.now)) }
    ensures added { (dict : Dictionary) → OnOk result (Adds dict (AreOfPieces dict start (cut_off (map (λ piece. piece.now) pieces.now))) places.old.items places.new.items) }
{
    let mut at = start;
    for piece in pieces {
        add_piece(false, at, piece, places)?;
        at += piece.len();
    }
    Ok(at)
}

// Adds the token of a piece that begins at this place.
fn add_piece<'a>(
    initial: bool,
    at: usize,
    piece: &'a [u8],
    places: &mut Vec<Place<'a>>,
) -> Result<(), NoMemory>
    requires { at + length piece.now < 2 ^ 32 }
    ensures { (dict : Dictionary) → OnOk result (Adds dict (AreOfPieces dict at ((initial, piece.now) ∷ [])) places.old.items places.new.items) }
{
    places.push(Place {
        from: at as u32,
        to: (at + piece.len()) as u32,
        text: piece,
        kind: Kind::Piece { initial },
    })?;
    Ok(())
}
