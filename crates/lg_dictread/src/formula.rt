//! The formula of an entry: what its expression stands for with its macros put in, read or recalled.
//!
//! A dictionary with an entry a line, as lexicons and exports are, writes few expressions many times. So an expression is
//! recalled by its text where an earlier entry writes the same, and both entries share one formula.

ghost use Rattle.std.specs.Prelude.{◌≡◌, ◌+◌, ◌≤◌, ◌++◌, length, drop, Some, IfErr, IfOk, IfSome};
ghost use Rattle.lg_lex.specs.declared.marks.Marks.TheVariants.{Dictionary};
ghost use Rattle.lg_lex.specs.Lexing.{tokens_from};
ghost use Rattle.lg_lex.specs.Sections.{IsClosed};
ghost use Rattle.lg_lex.specs.Spots.{IsSpot};
ghost use Rattle.lg_dictread.specs.Reading.{formulas_of, TellsStopBy, IsKept};
ghost use Rattle.lg_dictread.specs.Recalling.{IsOfText, IsRead, TellsFormula};

use crate::dict_error::DictError;
use crate::earlier::Earlier;
use crate::entry::read_expression;
use crate::limits::SECTIONS;
use crate::measure::measure;
use crate::stop::Stop;
use lg_base::{NoMemory, Text};
use lg_expr::{exactly_one, expressions_fit};
use lg_gram::macros::{LEVEL, filled_level};
use lg_gram::{Formula, filled_formula};
use lg_lex::{Marks, Spot, section_to, sections_keep_their_tokens};
use std::alloc::Global;

/// The formula of an expression, the greatest number of brackets open in it at once, and the spot after the `;` that ends
/// it; and the text of the expression, where it can be recalled by it and is not yet.
#[derive(Debug, Drop)]
pub(crate) struct FormulaRead<'a> {
    pub(crate) formula: Formula,
    pub(crate) level: u32,
    pub(crate) end: Spot,
    pub(crate) section: Option<&'a [u8]>,
}

/// The error that tells a fault of an entry.
pub(crate) fn fault_error(alloc: Global, stop: Stop<'_>) -> DictError
    ensures told { TellsStopBy stop.entry result }
    ensures own { IsOfText result }
{
    match stop {
        Stop::NoMemory => DictError::NoMemory,
        Stop::Syntax(location) => DictError::Syntax(location.line, location.column),
        Stop::CostForm(line) => DictError::CostForm(line),
        Stop::UnknownMacro(line, name) => match Text::of(alloc, name) {
            Ok(name) => DictError::UnknownMacro(line, name),
            Err(_) => DictError::NoMemory,
        },
        Stop::TooDeep(line) => DictError::TooDeep(line),
    }
}

/// The formula of the expression at a spot of a text, or its first fault. The expression is of an entry on this line.
///
/// An expression whose text was read before is recalled, in the time of a look-up.
pub(crate) fn read_formula<'a>(
    alloc: Global,
    earlier: &Earlier,
    text: &'a [u8],
    from: Spot,
    line: u32,
) -> Result<FormulaRead<'a>, DictError>
    requires spot { IsSpot text.now from }
    requires kept { IsKept earlier.now }
    ensures told { TellsFormula text.now (formulas_of earlier.now) line (tokens_from Dictionary text.now from.at) result }
    ensures own { IfErr result IsOfText }
{
    let section = section_to(Marks::Dictionary, b';', text, from.at);
    if let Some(section) = section {
        if let Some(found) = recall(alloc, earlier, text, from, section)? {
            return Ok(found);
        }
    }
    let section = if earlier.sections.len() < SECTIONS {
        section
    } else {
        None
    };
    read_anew(alloc, earlier, text, from, section, line)
}

// The formula of an expression that an earlier entry has, by its text.
fn recall<'a>(
    alloc: Global,
    earlier: &Earlier,
    text: &'a [u8],
    from: Spot,
    section: &[u8],
) -> Result<Option<FormulaRead<'a>>, NoMemory>
    requires spot { IsSpot text.now from }
    requires kept { IsKept earlier.now }
    requires within { from.at + length section.now ≤ length text.now }
    requires stands { drop from.at text.now ≡ section.now ++ drop (from.at + length section.now) text.now }
    ensures { IfOk result (λ found. IfSome found (IsRead text.now (formulas_of earlier.now) (tokens_from Dictionary text.now from.at))) }
{
    sections_keep_their_tokens();
    match earlier.recalled(section) {
        None => Ok(None),
        Some(entry) => Ok(Some(FormulaRead {
            formula: entry.formula.copied(alloc)?,
            level: entry.level,
            end: from.on_to(text, from.at + section.len()),
            section: None,
        })),
    }
}

// The formula of an expression, read a token at a time.
fn read_anew<'a>(
    alloc: Global,
    earlier: &Earlier,
    text: &'a [u8],
    from: Spot,
    section: Option<&'a [u8]>,
    line: u32,
) -> Result<FormulaRead<'a>, DictError>
    requires spot { IsSpot text.now from }
    requires kept { IsKept earlier.now }
    requires closed { IfSome section (λ s. IsClosed Dictionary s.now) }
    requires stands { IfSome section (λ s. drop from.at text.now ≡ s.now ++ drop (from.at + length s.now) text.now) }
    ensures told { TellsFormula text.now (formulas_of earlier.now) line (tokens_from Dictionary text.now from.at) result }
    ensures own { IfErr result IsOfText }
{
    exactly_one();
    expressions_fit();
    sections_keep_their_tokens();
    let read = match read_expression(alloc, earlier, LEVEL, text, from) {
        Ok(read) => read,
        Err(stop) => return Err(fault_error(alloc, stop)),
    };
    measure(earlier, &read.expr, line)?;
    let formula = filled_formula(alloc, &read.expr, earlier)?;
    Ok(FormulaRead {
        formula,
        level: filled_level(read.level, &read.expr, earlier),
        end: read.end,
        section: section_up_to(section, from.at, read.end.at),
    })
}

// The section from a spot, where it ends at another.
fn section_up_to(section: Option<&[u8]>, from: usize, end: usize) -> Option<&[u8]>
    ensures { IfSome result (λ s. (section.entry ≡ Some s) × (from + length s.now ≡ end)) }
{
    match section {
        Some(bytes) if from.checked_add(bytes.len()) == Some(end) => section,
        _ => None,
    }
}
