//! The line of words of a diagram.
ghost use Rattle.std.specs.Prelude.{◌≡◌, ◌∷◌, ◌++◌, [], map, length, replicate, OnOk, zip};
ghost use Rattle.lg_text.specs.Diagrams.{cell, cells_line};

use crate::drawing::columns::{cell_width, sum};
use lg_base::{NoMemory, write_bytes};
use lg_gram::{Disjunct, Token};

// Appends the tokens, each at its column, and a line feed.
pub(crate) fn write_words(
    out: &mut Vec<u8>,
    tokens: &[Token],
    choices: &[Option<Disjunct>],
    starts: &[usize],
) -> Result<(), NoMemory>
    requires choices { length tokens.now ≡ length choices.now }
    requires starts { length tokens.now ≡ length starts.now }
    ensures { OnOk result (out.new.items ≡ out.old.items ++ (cells_line 0 (map cell (zip tokens.now choices.now)) starts.now ++ 10 ∷ [])) }
{
    let mut at = 0_usize;
    for i in 0..tokens.len() {
        write_spaces(out, starts[i].saturating_sub(at))?;
        write_cell(out, &tokens[i], &choices[i])?;
        at = sum(starts[i], cell_width(&tokens[i], &choices[i])?)?;
    }
    write_bytes(out, b"\n")
}

fn write_spaces(out: &mut Vec<u8>, count: usize) -> Result<(), NoMemory>
    ensures { OnOk result (out.new.items ≡ out.old.items ++ replicate count 32) }
{
    let end = sum(out.len(), count)?;
    out.resize(end, b' ')?;
    Ok(())
}

// Appends the token, in square brackets where it is unlinked.
fn write_cell(out: &mut Vec<u8>, token: &Token, choice: &Option<Disjunct>) -> Result<(), NoMemory>
    ensures { OnOk result (out.new.items ≡ out.old.items ++ cell (token.now, choice.now)) }
{
    if choice.is_some() {
        return write_bytes(out, token.text.bytes());
    }
    write_bytes(out, b"[")?;
    write_bytes(out, token.text.bytes())?;
    write_bytes(out, b"]")
}
