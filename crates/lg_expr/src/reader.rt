//! Reads an expression a token at a time, with a stack of the brackets that are open.

ghost use Rattle.std.specs.Prelude.{◌≡◌, ◌≤◌, length};
ghost use Rattle.lg_gram.specs.RawTrees.{raw_tree_of};
ghost use Rattle.lg_expr.specs.Grammar.{BRACKET_COST};
ghost use Rattle.lg_expr.specs.Automaton.{value, start, after, opening, naming, close_with, close_empty, end_with, step_before, step_after, step_closed, step};
ghost use Rattle.lg_expr.specs.View.{part_of, frame_of, outers, state_of, GivesMove};

use crate::brackets::Brackets;
use crate::fault::{Fault, Refusal};
use crate::frame::{Frame, optional, priced};
use crate::macros::{Known, Macros};
use crate::part::{Bracket, Operator, Part};
use lg_base::{Cost, Text};
use lg_gram::RawExpr;
use std::alloc::Global;

/// Which part may come next.
#[derive(Debug, Drop)]
enum Phase {
    /// A primary, or the bracket that closes `()`.
    Opened,
    /// A primary.
    Wanting,
    /// What follows a primary.
    Reached,
    /// The cost of an expression that square brackets were closed round, or what follows it.
    Closed(RawExpr),
}

/// What is read of an expression so far.
#[derive(Debug, Drop)]
pub struct State {
    phase: Phase,
    here: Frame,
    brackets: Brackets,
}

/// What one more token makes of a state.
#[derive(Debug, Drop)]
pub enum Progress {
    /// The expression goes on.
    Goes(State),
    /// The token was the `;` after the expression, which has so many brackets open at once.
    Done(RawExpr, u32),
}

impl State {
    /// Nothing is read.
    pub fn start(alloc: Global) -> State
        ensures { state_of result ≡ start }
    {
        State {
            phase: Phase::Wanting,
            here: Frame::new(alloc),
            brackets: Brackets::new(alloc),
        }
    }
}

/// Takes one more token of an expression.
///
/// At most `limit` brackets may be open at once, where a macro counts as one more round its own level. The time is
/// constant but for what the vectors grow, so it is linear in the tokens of an expression.
pub fn step<M: Macros>(
    alloc: Global,
    macros: &M,
    limit: u32,
    state: State,
    part: &Part,
) -> Result<Progress, Refusal>
    ensures { GivesMove result (step (record { known = M.known macros.now; limit = limit }) (state_of state) (part_of part.now)) }
{
    let State {
        phase,
        here,
        brackets,
    } = state;
    match phase {
        Phase::Opened => match part {
            Part::Close(Bracket::Round) => close_empty(brackets),
            _ => before(alloc, macros, limit, here, brackets, part),
        },
        Phase::Wanting => before(alloc, macros, limit, here, brackets, part),
        Phase::Reached => after(alloc, here, brackets, part),
        Phase::Closed(e) => closed(alloc, e, here, brackets, part),
    }
}

/// A token where a primary may begin.
fn before<M: Macros>(
    alloc: Global,
    macros: &M,
    limit: u32,
    here: Frame,
    brackets: Brackets,
    part: &Part,
) -> Result<Progress, Refusal>
    ensures { GivesMove result (step_before (record { known = M.known macros.now; limit = limit }) (frame_of here) (outers brackets.outer.items) brackets.deepest (part_of part.now)) }
{
    match part {
        Part::Connector(c) => reached(here, brackets, RawExpr::Conn(*c)),
        Part::Macro(name) => named(alloc, macros.known(name), limit, name, here, brackets),
        Part::Open(bracket) => open(alloc, limit, *bracket, here, brackets),
        _ => Err(Refusal::Fault(Fault::Syntax)),
    }
}

/// A token after a primary.
fn after(alloc: Global, here: Frame, brackets: Brackets, part: &Part) -> Result<Progress, Refusal>
    ensures { GivesMove result (step_after (frame_of here) (outers brackets.outer.items) brackets.deepest (part_of part.now)) }
{
    match part {
        Part::Operator(Operator::And) => Ok(Progress::Goes(State {
            phase: Phase::Wanting,
            here,
            brackets,
        })),
        Part::Operator(Operator::Or) => Ok(Progress::Goes(State {
            phase: Phase::Wanting,
            here: here.with_alternative(alloc)?,
            brackets,
        })),
        Part::Close(bracket) => close(alloc, *bracket, here.value()?, brackets),
        Part::End => end(here, brackets),
        _ => Err(Refusal::Fault(Fault::Syntax)),
    }
}

/// A token after square brackets are closed round an expression.
fn closed(
    alloc: Global,
    e: RawExpr,
    here: Frame,
    brackets: Brackets,
    part: &Part,
) -> Result<Progress, Refusal>
    ensures { GivesMove result (step_closed (raw_tree_of e) (frame_of here) (outers brackets.outer.items) brackets.deepest (part_of part.now)) }
{
    match part {
        Part::Number(cost) => reached(here, brackets, priced(alloc, e, *cost)?),
        Part::NoNumber => Err(Refusal::Fault(Fault::CostForm)),
        _ => {
            let here = here.with_factor(priced(alloc, e, bracket_cost())?)?;
            after(alloc, here, brackets, part)
        }
    }
}

/// What square brackets add where no number follows them.
fn bracket_cost() -> Cost
    ensures { result ≡ BRACKET_COST }
{
    Cost::of(1000)
}

/// After a primary.
fn reached(here: Frame, brackets: Brackets, primary: RawExpr) -> Result<Progress, Refusal>
    ensures { GivesMove result (after (frame_of here) (outers brackets.outer.items) brackets.deepest (raw_tree_of primary)) }
{
    Ok(Progress::Goes(State {
        phase: Phase::Reached,
        here: here.with_factor(primary)?,
        brackets,
    }))
}

/// A macro's name, where so much is known of the macro.
fn named(
    alloc: Global,
    known: Known,
    limit: u32,
    name: &[u8],
    here: Frame,
    brackets: Brackets,
) -> Result<Progress, Refusal>
    ensures { GivesMove result (naming known limit name.now (frame_of here) (outers brackets.outer.items) brackets.deepest) }
{
    let depth = brackets.depth();
    match known {
        Known::Unknown => return Err(Refusal::Fault(Fault::UnknownMacro)),
        Known::Leveled(level) if limit <= depth || limit - depth <= level => {
            return Err(Refusal::Fault(Fault::TooDeep));
        }
        Known::Leveled(_) | Known::Free => {}
    }
    let name = Text::of(alloc, name)?;
    reached(here, brackets, RawExpr::Named(name, depth))
}

/// A bracket opens.
fn open(
    alloc: Global,
    limit: u32,
    bracket: Bracket,
    here: Frame,
    brackets: Brackets,
) -> Result<Progress, Refusal>
    ensures { GivesMove result (opening limit bracket (frame_of here) (outers brackets.outer.items) brackets.deepest) }
{
    if brackets.depth() >= limit {
        return Err(Refusal::Fault(Fault::TooDeep));
    }
    let phase = match bracket {
        Bracket::Round => Phase::Opened,
        Bracket::Curly | Bracket::Square => Phase::Wanting,
    };
    Ok(Progress::Goes(State {
        phase,
        here: Frame::new(alloc),
        brackets: brackets.with(bracket, here)?,
    }))
}

/// The innermost bracket is closed round an expression.
fn close(
    alloc: Global,
    bracket: Bracket,
    e: RawExpr,
    brackets: Brackets,
) -> Result<Progress, Refusal>
    ensures { GivesMove result (close_with bracket (raw_tree_of e) (outers brackets.outer.items) brackets.deepest) }
{
    let mut brackets = brackets;
    match brackets.outer.pop() {
        Some(open) => match (open.bracket, bracket) {
            (Bracket::Round, Bracket::Round) => reached(open.frame, brackets, e),
            (Bracket::Curly, Bracket::Curly) => reached(open.frame, brackets, optional(alloc, e)?),
            (Bracket::Square, Bracket::Square) => Ok(Progress::Goes(State {
                phase: Phase::Closed(e),
                here: open.frame,
                brackets,
            })),
            _ => Err(Refusal::Fault(Fault::Syntax)),
        },
        None => Err(Refusal::Fault(Fault::Syntax)),
    }
}

/// `()` is closed.
fn close_empty(brackets: Brackets) -> Result<Progress, Refusal>
    ensures { GivesMove result (close_empty (outers brackets.outer.items) brackets.deepest) }
{
    let mut brackets = brackets;
    match brackets.outer.pop() {
        Some(open) => reached(open.frame, brackets, RawExpr::Empty),
        None => Err(Refusal::Fault(Fault::Syntax)),
    }
}

/// The expression ends.
fn end(here: Frame, brackets: Brackets) -> Result<Progress, Refusal>
    ensures { GivesMove result (end_with (value (frame_of here)) (outers brackets.outer.items) brackets.deepest) }
{
    if !brackets.outer.is_empty() {
        return Err(Refusal::Fault(Fault::Syntax));
    }
    Ok(Progress::Done(here.value()?, brackets.deepest))
}
