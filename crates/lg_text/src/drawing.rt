//! Diagrams of linkages.
ghost use Rattle.std.specs.Prelude.{◌≡◌, ◌++◌, IfOk, OnOk};
ghost use Rattle.lg_text.specs.Texts.{IsPrintable};
ghost use Rattle.lg_text.specs.Diagrams.{diagram_text, marked_diagram};

mod columns;
mod heights;
mod lines;
mod words;

use crate::drawing::columns::{line_width, starts};
use crate::drawing::lines::{drawn_links, write_link_lines};
use crate::drawing::words::write_words;
use lg_base::{NoMemory, write_bytes};
use lg_gram::{Linkage, Tokens};
use std::alloc::Global;

/// The diagram of a linkage: lines of links, and below them a line of the tokens.
///
/// ```text
/// +-D-+----S-----+
/// the cat [Mary] ran
/// ```
///
/// - An unlinked token stands in square brackets. There is one space behind each token, or more where the labels of the
///   links that end at the next one need the room: a label has a dash or more on each side. A byte outside 128 to 191 takes
///   one column, any other none.
/// - A link lies one line above the highest link within its span, both ends of the span included; the lowest links lie on
///   the line above the tokens. On its line it has `+` where its two tokens start, and between these its label among dashes,
///   of which half, rounded down, stand before the label. On each lower line it has `|` at its two ends, unless `+` stands
///   there.
/// - No line of links has spaces at its end, and each line ends in a line feed. Without links there is the line of tokens
///   alone, and without tokens that line is empty.
///
/// Takes steps by the links times the positions and times themselves, and by the characters. The only error is running out
/// of memory.
pub fn diagram(alloc: Global, tokens: &Tokens, g: &Linkage) -> Result<Vec<u8>, NoMemory>
    requires { IsPrintable tokens.now g.now }
    ensures { IfOk result (λ bytes. bytes.items ≡ diagram_text tokens.now g.now) }
{
    let mut out = Vec::new(alloc);
    write_diagram(alloc, &mut out, b"", tokens, g)?;
    Ok(out)
}

// Appends the diagram, each line behind the mark.
pub(crate) fn write_diagram(
    alloc: Global,
    out: &mut Vec<u8>,
    mark: &[u8],
    tokens: &Tokens,
    g: &Linkage,
) -> Result<(), NoMemory>
    requires { IsPrintable tokens.now g.now }
    ensures { OnOk result (out.new.items ≡ out.old.items ++ marked_diagram mark.now tokens.now g.now) }
{
    let starts = starts(alloc, tokens.items(), g)?;
    let columns = line_width(&starts)?;
    let links = drawn_links(alloc, g, &starts)?;
    write_link_lines(alloc, out, mark, &links, columns)?;
    write_bytes(out, mark)?;
    write_words(out, tokens.items(), g.chosen(), &starts)
}
