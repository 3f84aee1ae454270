ghost use Rattle.std.specs.Prelude.{◌≡◌, map, IfOk};
ghost use Rattle.lg_gram.specs.RawTrees.{raw_tree_of, raw_priced};
ghost use Rattle.lg_expr.specs.Grammar.{joined, optional};
ghost use Rattle.lg_expr.specs.Automaton.{fresh, with_factor, with_alternative, value};
ghost use Rattle.lg_expr.specs.View.{frame_of};

use crate::part::{Bracket, Operator};
use lg_base::{Cost, NoMemory};
use lg_gram::{RawExpr, RawExprs};
use std::alloc::Global;

/// What is read of one bracket: the members before its last `or`, and the factors after it.
#[derive(Debug, Drop)]
pub(crate) struct Frame {
    pub(crate) alternatives: Vec<RawExpr>,
    pub(crate) factors: Vec<RawExpr>,
}

/// A bracket that is open, and what stands before it in the one round it.
#[derive(Debug, Drop)]
pub(crate) struct Outer {
    pub(crate) bracket: Bracket,
    pub(crate) frame: Frame,
}

/// The members as one expression: one member is that member.
fn joined(operator: Operator, members: Vec<RawExpr>) -> RawExpr
    ensures { raw_tree_of result ≡ joined operator (map raw_tree_of members.items) }
{
    let mut members = members;
    if members.len() == 1 {
        return members.remove(0);
    }
    let members = RawExprs::of(members);
    match operator {
        Operator::And => RawExpr::And(members),
        Operator::Or => RawExpr::Or(members),
    }
}

/// `{e}`
pub(crate) fn optional(alloc: Global, e: RawExpr) -> Result<RawExpr, NoMemory>
    ensures { IfOk result (λ o. raw_tree_of o ≡ optional (raw_tree_of e)) }
{
    let mut members = Vec::with_capacity(alloc, 2)?;
    members.push(RawExpr::Empty)?;
    members.push(e)?;
    Ok(RawExpr::Or(RawExprs::of(members)))
}

/// `[e]` at this cost.
pub(crate) fn priced(alloc: Global, e: RawExpr, cost: Cost) -> Result<RawExpr, NoMemory>
    ensures { IfOk result (λ p. raw_tree_of p ≡ raw_priced (raw_tree_of e) cost) }
{
    Ok(RawExpr::Priced(Box::new(alloc, e)?, cost))
}

impl Frame {
    /// Nothing is read of the bracket.
    pub(crate) fn new(alloc: Global) -> Frame
        ensures { frame_of result ≡ fresh }
    {
        Frame {
            alternatives: Vec::new(alloc),
            factors: Vec::new(alloc),
        }
    }

    /// With one more factor.
    pub(crate) fn with_factor(self, factor: RawExpr) -> Result<Frame, NoMemory>
        ensures { IfOk result (λ f. frame_of f ≡ with_factor (frame_of self) (raw_tree_of factor)) }
    {
        let mut factors = self.factors;
        factors.push(factor)?;
        Ok(Frame {
            alternatives: self.alternatives,
            factors,
        })
    }

    /// After an `or`: the factors are one more member.
    pub(crate) fn with_alternative(self, alloc: Global) -> Result<Frame, NoMemory>
        ensures { IfOk result (λ f. frame_of f ≡ with_alternative (frame_of self)) }
    {
        let mut alternatives = self.alternatives;
        let mut factors = self.factors;
        if factors.len() == 1 {
            // the room of the one factor is kept for the next
            alternatives.push(factors.remove(0))?;
            return Ok(Frame {
                alternatives,
                factors,
            });
        }
        alternatives.push(joined(Operator::And, factors))?;
        Ok(Frame {
            alternatives,
            factors: Vec::new(alloc),
        })
    }

    /// The expression of the whole bracket.
    pub(crate) fn value(self) -> Result<RawExpr, NoMemory>
        ensures { IfOk result (λ e. raw_tree_of e ≡ value (frame_of self)) }
    {
        let last = joined(Operator::And, self.factors);
        if self.alternatives.is_empty() {
            return Ok(last);
        }
        let mut alternatives = self.alternatives;
        alternatives.push(last)?;
        Ok(joined(Operator::Or, alternatives))
    }
}
