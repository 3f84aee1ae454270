//! The text of a dictionary.
ghost use Rattle.std.specs.Prelude.{◌≡◌, ◌++◌, OnOk, IfOk, replicate};
ghost use Rattle.std.specs.List.{flat_map, find};
ghost use Rattle.std.specs.Option.{option_map};
ghost use Rattle.lg_gram.specs.Formulas.{LevelFits};
ghost use Rattle.lg_gram.specs.Trees.{tree_of};
ghost use Rattle.lg_export.specs.Spelling.{top, spelled, bracketed, macro_line, word_line, dictionary_spelled};
ghost use Rattle.lg_export.specs.Exports.{has_quote, TellsQuote, line_of_word, line_of_macro};

use crate::level::level;
use crate::spelling::write_expr;
use crate::spot::Spot;
use lg_base::{NoMemory, Text, write_bytes};
use lg_dict::View;
use lg_gram::{Expr, Formula};
use std::alloc::Global;
use thiserror::Error;

/// Why a dictionary has no text.
#[derive(Debug, Drop, Error)]
pub enum ExportError {
    /// Memory ran out.
    #[error("out of memory")]
    NoMemory,
    /// The least word, by bytes, that has a quote in it: no dictionary text can write it.
    #[error("a word has a quote")]
    QuoteInWord(Text),
}

impl From<NoMemory> for ExportError {
    ghost use Rattle.std.specs.Prelude.{◌≡◌};
    ghost use Rattle.lg_export.specs.declared.text.ExportError.TheVariants as errors;

    ghost from_gives = { λ _ error. error ≡ errors.NoMemory };

    fn from(_error: NoMemory) -> ExportError {
        ExportError::NoMemory
    }
}

/// The text of a dictionary: a line for each macro, and then a line for each word, both by bytes.
///
/// A macro's line has its name, `: `, its expression and `;`; a word's line has the word in quotes. Each expression is spelled with
/// as few brackets as it can have, but a macro's stands in as many round brackets as bring it to the macro's level. The time is
/// linear in the text, beside that of sorting the words. The only error but memory is a word with a quote in it.
pub fn export(alloc: Global, view: &View) -> Result<Vec<u8>, ExportError>
    ensures text { IfOk result (λ text. text.items ≡ dictionary_spelled view.now) }
    ensures quote { TellsQuote view.now result }
{
    let words = view.words(alloc)?;
    if let Some(word) = quoted(words.items()) {
        return Err(ExportError::QuoteInWord(Text::of(alloc, word.bytes())?));
    }
    let macros = view.macros(alloc)?;
    let mut out = Vec::new(alloc);
    write_macros(&mut out, view, macros.items())?;
    write_words(&mut out, view, words.items())?;
    Ok(out)
}

// The first of these words that has a quote in it.
fn quoted(words: &[Text]) -> Option<&Text>
    ensures { option_map (λ word. word.now) result ≡ find has_quote words.now }
{
    words.iter().find(|word| word.bytes().contains(&b'"'))
}

fn write_macros(out: &mut Vec<u8>, view: &View, names: &[Text]) -> Result<(), NoMemory>
    ensures { OnOk result (out.new.items ≡ out.old.items ++ flat_map (line_of_macro view.now) names.now) }
{
    for name in names {
        write_macro(out, view, name)?;
    }
    Ok(())
}

fn write_macro(out: &mut Vec<u8>, view: &View, name: &Text) -> Result<(), NoMemory>
    ensures { OnOk result (out.new.items ≡ out.old.items ++ line_of_macro view.now name.now) }
{
    match view.named(name.bytes()) {
        Some((formula, level)) => write_macro_line(out, name, formula, level),
        None => Ok(()),
    }
}

fn write_macro_line(
    out: &mut Vec<u8>,
    name: &Text,
    formula: &Formula,
    macro_level: u32,
) -> Result<(), NoMemory>
    requires { LevelFits macro_level (tree_of formula.now) }
    ensures { OnOk result (out.new.items ≡ out.old.items ++ macro_line (name.now, (tree_of formula.now, macro_level))) }
{
    let e = formula.expr();
    let more = macro_level.saturating_sub(level(Spot::Top, e));
    write_bytes(out, name.bytes())?;
    write_bytes(out, b": ")?;
    write_bracketed(out, more, e)?;
    write_bytes(out, b";\n")
}

// An expression in so many pairs of round brackets.
fn write_bracketed(out: &mut Vec<u8>, pairs: u32, e: &Expr) -> Result<(), NoMemory>
    ensures { OnOk result (out.new.items ≡ out.old.items ++ bracketed pairs (spelled top (tree_of e.now))) }
{
    write_repeated(out, b'(', pairs)?;
    write_expr(out, Spot::Top, e)?;
    write_repeated(out, b')', pairs)
}

// The byte so many times.
fn write_repeated(out: &mut Vec<u8>, byte: u8, count: u32) -> Result<(), NoMemory>
    ensures { OnOk result (out.new.items ≡ out.old.items ++ replicate count byte) }
{
    for _ in 0..count {
        out.push(byte)?;
    }
    Ok(())
}

fn write_words(out: &mut Vec<u8>, view: &View, words: &[Text]) -> Result<(), NoMemory>
    ensures { OnOk result (out.new.items ≡ out.old.items ++ flat_map (line_of_word view.now) words.now) }
{
    for word in words {
        write_word(out, view, word)?;
    }
    Ok(())
}

fn write_word(out: &mut Vec<u8>, view: &View, word: &Text) -> Result<(), NoMemory>
    ensures { OnOk result (out.new.items ≡ out.old.items ++ line_of_word view.now word.now) }
{
    match view.get(word.bytes()) {
        Some(formula) => write_word_line(out, word, formula),
        None => Ok(()),
    }
}

fn write_word_line(out: &mut Vec<u8>, word: &Text, formula: &Formula) -> Result<(), NoMemory>
    ensures { OnOk result (out.new.items ≡ out.old.items ++ word_line (word.now, tree_of formula.now)) }
{
    write_bytes(out, b"\"")?;
    write_bytes(out, word.bytes())?;
    write_bytes(out, b"\": ")?;
    write_expr(out, Spot::Top, formula.expr())?;
    write_bytes(out, b";\n")
}
