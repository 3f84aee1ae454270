//! The text of a linkage.
ghost use Rattle.std.specs.Prelude.{◌≡◌, ◌++◌, OnOk, IfOk, zip};
ghost use Rattle.std.specs.List.{flat_map, enumerate_from};
ghost use Rattle.lg_gram.specs.Rules.{IsMatched, Joins, HasLink, rights_of, lefts_of};
ghost use Rattle.lg_text.specs.Texts.{heading_line, word_line, link_line, linkage_text, IsPrintable};

use crate::piece::{Piece, write_line};
use lg_base::NoMemory;
use lg_gram::{Disjunct, Link, Linkage, Token, Tokens};
use std::alloc::Global;

/// The text of a linkage: a heading, a line for each position, and a line for each link in the linkage's order. There is
/// one space between the parts of a line, and a line feed at its end.
///
/// - The heading is `linkage N unused U cost C length L`: N is the number given, U how many positions are unlinked, C the
///   sum of the costs of the disjuncts, and L the sum of the lengths of the links.
/// - A position is `word P TEXT null` where it is unlinked, and else `word P TEXT WORD LEFT RIGHT COST`. P counts from 0,
///   TEXT is the token's and WORD the disjunct's. LEFT and RIGHT are its connectors on that side from near to far, with `@`
///   where a connector may take several links and without direction signs, joined by commas; `-` where there is none.
/// - A link is `link A B LABEL P Q`: the positions at its ends, its label, and the places of its connectors on the right
///   side of A and on the left side of B. A label is link-parser's.
///
/// Costs are printed by `write_cost`, in whole units with three digits behind a point. The only error is running out of memory.
pub fn linkage_text(
    alloc: Global,
    tokens: &Tokens,
    number: u64,
    g: &Linkage,
) -> Result<Vec<u8>, NoMemory>
    requires { IsPrintable tokens.now g.now }
    ensures { IfOk result (λ bytes. bytes.items ≡ linkage_text tokens.now number g.now) }
{
    let mut out = Vec::new(alloc);
    write_linkage(&mut out, tokens, number, g)?;
    Ok(out)
}

// Appends the text of a linkage.
pub(crate) fn write_linkage(
    out: &mut Vec<u8>,
    tokens: &Tokens,
    number: u64,
    g: &Linkage,
) -> Result<(), NoMemory>
    requires { IsPrintable tokens.now g.now }
    ensures { OnOk result (out.new.items ≡ out.old.items ++ linkage_text tokens.now number g.now) }
{
    write_heading(out, number, g)?;
    write_words(out, tokens.items(), g.chosen())?;
    write_links(out, g)?;
    Ok(())
}

fn write_heading(out: &mut Vec<u8>, number: u64, g: &Linkage) -> Result<(), NoMemory>
    ensures { OnOk result (out.new.items ≡ out.old.items ++ heading_line number g.now) }
{
    let pieces = [
        Piece::Number(number),
        Piece::Word(b"unused"),
        Piece::Number(u64::from(g.unused())),
        Piece::Word(b"cost"),
        Piece::Cost(g.cost()),
        Piece::Word(b"length"),
        Piece::Number(g.length()),
    ];
    write_line(out, b"linkage", &pieces)
}

fn write_words(
    out: &mut Vec<u8>,
    tokens: &[Token],
    choices: &[Option<Disjunct>],
) -> Result<(), NoMemory>
    ensures { OnOk result (out.new.items ≡ out.old.items ++ flat_map word_line (enumerate_from 0 (zip tokens.now choices.now))) }
{
    for (position, (token, choice)) in tokens.iter().zip(choices).enumerate() {
        write_word(out, position, token, choice)?;
    }
    Ok(())
}

fn write_word<'a>(
    out: &mut Vec<u8>,
    position: usize,
    token: &'a Token,
    choice: &'a Option<Disjunct>,
) -> Result<(), NoMemory>
    ensures { OnOk result (out.new.items ≡ out.old.items ++ word_line (position, (token.now, choice.now))) }
{
    let position = Piece::Number(position as u64);
    let text = Piece::Word(token.text.bytes());
    match choice {
        None => write_line(out, b"word", &[position, text, Piece::Word(b"null")]),
        Some(disjunct) => {
            let pieces = [
                position,
                text,
                Piece::Word(disjunct.word.bytes()),
                Piece::Side(disjunct.left.items()),
                Piece::Side(disjunct.right.items()),
                Piece::Cost(disjunct.cost),
            ];
            write_line(out, b"word", &pieces)
        }
    }
}

fn write_links(out: &mut Vec<u8>, g: &Linkage) -> Result<(), NoMemory>
    requires { IsMatched (rights_of g.now) (lefts_of g.now) (HasLink g.now) }
    ensures { OnOk result (out.new.items ≡ out.old.items ++ flat_map (link_line g.now) g.now.links) }
{
    for link in g.links() {
        write_link(out, g, link)?;
    }
    Ok(())
}

fn write_link(out: &mut Vec<u8>, g: &Linkage, link: &Link) -> Result<(), NoMemory>
    requires { Joins (rights_of g.now) (lefts_of g.now) link.now }
    ensures { OnOk result (out.new.items ≡ out.old.items ++ link_line g.now link.now) }
{
    let label = g.label(link);
    let pieces = [
        Piece::Number(u64::from(link.left)),
        Piece::Number(u64::from(link.right)),
        Piece::Word(label.letters()),
        Piece::Number(u64::from(link.lplace)),
        Piece::Number(u64::from(link.rplace)),
    ];
    write_line(out, b"link", &pieces)
}
