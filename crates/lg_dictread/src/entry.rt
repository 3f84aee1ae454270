//! One entry of a dictionary text.

ghost use Rattle.std.specs.Prelude.{◌≡◌, ℕ, List};
ghost use Rattle.lg_lex.specs.declared.marks.Marks.TheVariants.{Dictionary};
ghost use Rattle.lg_lex.specs.Lexing.{tokens_from};
ghost use Rattle.lg_lex.specs.Tokens.{Token};
ghost use Rattle.lg_lex.specs.Spots.{IsSpot};
ghost use Rattle.lg_expr.specs.Automaton.{run, start};
ghost use Rattle.lg_expr.specs.Parts.{names};
ghost use Rattle.lg_expr.specs.View.{part_of};
ghost use Rattle.lg_dictread.specs.Entries.{part};
ghost use Rattle.lg_dictread.specs.Scanning.{answer_of};
ghost use Rattle.lg_dictread.specs.View.{TellsFault, TellsExpression, TellsEntry};

use crate::items::read_items;
use crate::stop::Stop;
use lg_base::Numbers;
use lg_expr::{Fault, Macros, Part, Progress, Refusal, State, exactly_one, part_of, step};
use lg_gram::{Items, RawEntry, RawExpr};
use lg_lex::{Location, Marks, Spot, next_spotted};
use std::alloc::Global;

/// An expression, the greatest number of brackets open in it at once, and the spot after the `;` that ends it.
#[derive(Debug, Drop)]
pub(crate) struct Expression {
    pub(crate) expr: RawExpr,
    pub(crate) level: u32,
    pub(crate) end: Spot,
}

/// An entry, with the line of each of its items and the spot after the `;` that ends it.
#[derive(Debug, Drop)]
pub(crate) struct One {
    pub(crate) entry: RawEntry,
    pub(crate) lines: Numbers,
    pub(crate) end: Spot,
}

/// A fault of an expression, told with the location of the token at fault.
fn stop_at<'a>(fault: Fault, location: Location, part: &Part<'a>) -> Stop<'a>
    requires { fault ≡ Fault.UnknownMacro → (m : List ℕ) × (part_of part.now ≡ names m) }
    ensures { TellsFault fault location (part_of part.now) result }
{
    match fault {
        Fault::Syntax => Stop::Syntax(location),
        Fault::CostForm => Stop::CostForm(location.line),
        Fault::UnknownMacro => match part {
            Part::Macro(name) => Stop::UnknownMacro(location.line, name),
            _ => unreachable!(),
        },
        Fault::TooDeep => Stop::TooDeep(location.line),
    }
}

/// The expression at the front of a text, up to the `;`.
pub(crate) fn read_expression<'a, M: Macros>(
    alloc: Global,
    macros: &M,
    limit: u32,
    text: &'a [u8],
    from: Spot,
) -> Result<Expression, Stop<'a>>
    requires { IsSpot text.now from }
    ensures { TellsExpression text.now (run Token part (record { known = M.known macros.now; limit = limit }) start (tokens_from Dictionary text.now from.at)) result }
{
    exactly_one();
    let mut state = State::start(alloc);
    let mut spot = from;
    while let Some(found) = next_spotted(Marks::Dictionary, text, spot) {
        let part = part_of(&found.token);
        match step(alloc, macros, limit, state, &part) {
            Ok(Progress::Goes(next)) => state = next,
            Ok(Progress::Done(expr, level)) => {
                return Ok(Expression {
                    expr,
                    level,
                    end: found.end,
                });
            }
            Err(Refusal::NoMemory) => return Err(Stop::NoMemory),
            Err(Refusal::Fault(fault)) => return Err(stop_at(fault, found.start.location, &part)),
        }
        spot = found.end;
    }
    Err(Stop::Syntax(spot.on_to(text, text.len()).location))
}

/// The entry at the front of a text, from a spot on.
///
/// At most `limit` brackets may be open at once, where a macro counts as one more round its own level. The time is
/// linear in the bytes from the spot to the entry's end.
pub(crate) fn read_one<'a, M: Macros>(
    alloc: Global,
    macros: &M,
    limit: u32,
    text: &'a [u8],
    from: Spot,
) -> Result<One, Stop<'a>>
    requires { IsSpot text.now from }
    ensures { TellsEntry text.now (answer_of (record { known = M.known macros.now; limit = limit }) (tokens_from Dictionary text.now from.at)) result }
{
    let read = read_items(alloc, text, from)?;
    let expression = read_expression(alloc, macros, limit, text, read.end)?;
    let line = read.lines[0];
    Ok(One {
        entry: RawEntry {
            items: Items::of(read.items),
            expr: expression.expr,
            level: expression.level,
            line,
        },
        lines: Numbers::of(read.lines),
        end: expression.end,
    })
}
