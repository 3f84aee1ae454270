//! The columns of a diagram.
ghost use Rattle.std.specs.Prelude.{◌≡◌, ◌+◌, ◌<◌, length, IfOk};
ghost use Rattle.lg_gram.specs.Rules.{IsMatched, HasLink, rights_of, lefts_of};
ghost use Rattle.lg_text.specs.Diagrams.{width, cell, cells, next_start, room_for, starts_of, line_width};

use lg_base::NoMemory;
use lg_gram::{Disjunct, Linkage, Token};
use std::alloc::Global;

// The column at which each position starts.
pub(crate) fn starts(alloc: Global, tokens: &[Token], g: &Linkage) -> Result<Vec<usize>, NoMemory>
    requires same_length { length tokens.now ≡ length g.now.chosen }
    requires matched { IsMatched (rights_of g.now) (lefts_of g.now) (HasLink g.now) }
    ensures { IfOk result (λ starts. starts.items ≡ starts_of (cells tokens.now g.now) g.now (length tokens.now)) }
{
    let mut starts = Vec::new(alloc);
    for position in 0..tokens.len() {
        let start = next_start(tokens, g, &starts, position)?;
        starts.push(start)?;
    }
    Ok(starts)
}

// Where a position starts, by the starts of those before it.
fn next_start(
    tokens: &[Token],
    g: &Linkage,
    starts: &[usize],
    position: usize,
) -> Result<usize, NoMemory>
    requires same_length { length tokens.now ≡ length g.now.chosen }
    requires matched { IsMatched (rights_of g.now) (lefts_of g.now) (HasLink g.now) }
    requires within { position < length tokens.now }
    requires before { length starts.now ≡ position }
    ensures { IfOk result (λ start. start ≡ next_start (cells tokens.now g.now) g.now starts.now position) }
{
    if position == 0 {
        return Ok(0);
    }
    let before = position - 1;
    let cell = cell_width(&tokens[before], &g.chosen()[before])?;
    let behind = sum(starts[before], cell)?;
    let least = sum(behind, 1)?;
    room_for(g, starts, least, position)
}

// The least column, or farther where the label of a link that ends at the position needs more room.
fn room_for(g: &Linkage, starts: &[usize], least: usize, position: usize) -> Result<usize, NoMemory>
    requires matched { IsMatched (rights_of g.now) (lefts_of g.now) (HasLink g.now) }
    requires before { length starts.now ≡ position }
    ensures { IfOk result (λ start. start ≡ room_for g.now starts.now least position) }
{
    let mut start = least;
    for link in g.links() {
        if link.right as usize == position {
            let label = g.label(link);
            let room = sum(label.letters().len(), 3)?;
            start = start.max(sum(starts[link.left as usize], room)?);
        }
    }
    Ok(start)
}

// How many columns the token takes, with its square brackets where it is unlinked.
pub(crate) fn cell_width(token: &Token, choice: &Option<Disjunct>) -> Result<usize, NoMemory>
    ensures { IfOk result (λ columns. columns ≡ width (cell (token.now, choice.now))) }
{
    let text = width(token.text.bytes());
    match choice {
        None => sum(text, 2),
        Some(_) => Ok(text),
    }
}

// How many characters the text has.
fn width(text: &[u8]) -> usize
    ensures { result ≡ width text.now }
{
    text.iter().filter(|b| **b < 128 || **b >= 192).count()
}

// The sum of two numbers of columns. No memory holds a line of 2^64 columns.
pub(crate) fn sum(a: usize, b: usize) -> Result<usize, NoMemory>
    ensures { IfOk result (λ sum. sum ≡ a + b) }
{
    a.checked_add(b).ok_or(NoMemory)
}

// How many columns a line of links has.
pub(crate) fn line_width(starts: &[usize]) -> Result<usize, NoMemory>
    ensures { IfOk result (λ columns. columns ≡ line_width starts.now) }
{
    let mut columns = 0_usize;
    for start in starts {
        columns = columns.max(sum(*start, 1)?);
    }
    Ok(columns)
}
