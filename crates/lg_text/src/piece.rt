//! Lines of pieces, at the end of a buffer.
ghost use Rattle.std.specs.Prelude.{◌≡◌, ◌∷◌, ◌++◌, OnOk, codes, decimal, map};
ghost use Rattle.lg_gram.specs.Connectors.{connector_text};
ghost use Rattle.lg_text.specs.Texts.{line_of, side_text};
ghost use Rattle.lg_text.specs.Replies.{place_text};
ghost use Rattle.lg_text.specs.Pieces.{piece_text, spaced, line_end};

use lg_base::{Cost, NoMemory, write_bytes, write_cost, write_number};
use lg_gram::{Connector, Place};

// A part of a line.
#[derive(Clone, Copy)]
pub(crate) enum Piece<'a> {
    Word(&'a [u8]),
    Number(u64),
    NumberColon(u64),
    Cost(Cost),
    // The connectors on a side of a disjunct.
    Side(&'a [Connector]),
    Place(Place),
}

// Appends a line that begins with the word and has the pieces behind it, each after a space.
pub(crate) fn write_line(
    out: &mut Vec<u8>,
    word: &[u8],
    pieces: &[Piece<'_>],
) -> Result<(), NoMemory>
    ensures { OnOk result (out.new.items ≡ out.old.items ++ line_of (word.now ∷ map piece_text pieces.now)) }
{
    write_bytes(out, word)?;
    write_line_end(out, pieces)
}

// Appends the pieces behind a line that has begun, each after a space, and ends the line.
pub(crate) fn write_line_end(out: &mut Vec<u8>, pieces: &[Piece<'_>]) -> Result<(), NoMemory>
    ensures { OnOk result (out.new.items ≡ out.old.items ++ line_end (map piece_text pieces.now)) }
{
    write_pieces(out, pieces)?;
    write_bytes(out, b"\n")?;
    Ok(())
}

// Appends the pieces, each after a space.
pub(crate) fn write_pieces(out: &mut Vec<u8>, pieces: &[Piece<'_>]) -> Result<(), NoMemory>
    ensures { OnOk result (out.new.items ≡ out.old.items ++ spaced (map piece_text pieces.now)) }
{
    for piece in pieces {
        write_bytes(out, b" ")?;
        write_piece(out, piece)?;
    }
    Ok(())
}

fn write_piece(out: &mut Vec<u8>, piece: &Piece<'_>) -> Result<(), NoMemory>
    ensures { OnOk result (out.new.items ≡ out.old.items ++ piece_text piece.now) }
{
    match piece {
        Piece::Word(bytes) => write_bytes(out, bytes),
        Piece::Number(number) => write_number(out, *number),
        Piece::NumberColon(number) => write_number_colon(out, *number),
        Piece::Cost(cost) => write_cost(out, *cost),
        Piece::Side(connectors) => write_side(out, connectors),
        Piece::Place(place) => write_place(out, *place),
    }
}

fn write_number_colon(out: &mut Vec<u8>, number: u64) -> Result<(), NoMemory>
    ensures { OnOk result (out.new.items ≡ out.old.items ++ (decimal number ++ codes ":")) }
{
    write_number(out, number)?;
    write_bytes(out, b":")
}

// Appends the session and the command, with a point between.
pub(crate) fn write_place(out: &mut Vec<u8>, place: Place) -> Result<(), NoMemory>
    ensures { OnOk result (out.new.items ≡ out.old.items ++ place_text place) }
{
    write_number(out, u64::from(place.session))?;
    write_bytes(out, b".")?;
    write_number(out, u64::from(place.command))
}

// Appends the connectors of a side, with commas between them, or a dash where there is none.
fn write_side(out: &mut Vec<u8>, connectors: &[Connector]) -> Result<(), NoMemory>
    ensures { OnOk result (out.new.items ≡ out.old.items ++ side_text connectors.now) }
{
    match connectors.split_first() {
        None => write_bytes(out, b"-"),
        Some((first, rest)) => write_connectors(out, first, rest),
    }
}

fn write_connectors(
    out: &mut Vec<u8>,
    first: &Connector,
    rest: &[Connector],
) -> Result<(), NoMemory>
    ensures { OnOk result (out.new.items ≡ out.old.items ++ side_text (first.now ∷ rest.now)) }
{
    write_connector(out, first)?;
    for connector in rest {
        write_bytes(out, b",")?;
        write_connector(out, connector)?;
    }
    Ok(())
}

// Appends the connector without its direction sign.
fn write_connector(out: &mut Vec<u8>, connector: &Connector) -> Result<(), NoMemory>
    ensures { OnOk result (out.new.items ≡ out.old.items ++ connector_text connector.now) }
{
    if connector.is_multi() {
        write_bytes(out, b"@")?;
    }
    write_bytes(out, connector.caps())?;
    write_bytes(out, connector.subs())?;
    Ok(())
}
