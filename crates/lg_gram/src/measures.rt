//! The measures of an expression with its macros put in, against their limits.
ghost use Rattle.std.specs.Prelude.{◌≡◌, IfOk};
ghost use Rattle.lg_gram.specs.Trees.{tree_of};
ghost use Rattle.lg_gram.specs.Formulas.{IsFormula};
ghost use Rattle.lg_gram.specs.RawTrees.{raw_tree_of};
ghost use Rattle.lg_gram.specs.Filled.{filled, put_in};
ghost use Rattle.lg_gram.specs.Measured.{excess};

use crate::entry::RawExpr;
use crate::expr::Expr;
use crate::formula::{CHOICES, Formula, NODES, SIDE};
use crate::macros::{Macros, fill, filled_sizes};
use lg_base::{NoMemory, Text};
use std::alloc::Global;

/// A measure that an expression passes, with what was counted: its nodes, its choices, or its connectors on the side that
/// has more of them.
#[derive(Clone, Copy, Debug, PartialEq, Eq)]
pub enum Excess {
    Nodes(u64),
    Choices(u64),
    Side(u32),
}

/// The first measure that the expression passes with its macros put in. None where it keeps to all three. Nothing is
/// built.
pub fn first_excess<M: Macros>(raw: &RawExpr, macros: &M) -> Option<Excess>
    ensures { result ≡ excess (filled (M.formulas macros.now) (raw_tree_of raw.now)) }
{
    let sizes = filled_sizes(raw, macros);
    if sizes.nodes > NODES {
        return Some(Excess::Nodes(sizes.nodes));
    }
    if sizes.choices > CHOICES {
        return Some(Excess::Choices(sizes.choices));
    }
    let side = sizes.longest_side();
    if side > SIDE {
        return Some(Excess::Side(side));
    }
    None
}

/// The formula of an expression that is within the limits with its macros put in. It has the measures of its macros, which are not
/// measured again. An expression that is one macro's name shares that macro's formula where that one is shared.
pub fn filled_formula<M: Macros>(
    alloc: Global,
    raw: &RawExpr,
    macros: &M,
) -> Result<Formula, NoMemory>
    requires { IsFormula (filled (M.formulas macros.now) (raw_tree_of raw.now)) }
    ensures { IfOk result (λ f. tree_of f ≡ filled (M.formulas macros.now) (raw_tree_of raw.now)) }
{
    match raw {
        RawExpr::Named(name, _) => macro_formula(alloc, name, macros),
        _ => built_formula(alloc, raw, macros),
    }
}

// The formula of a macro. One that is not known has the formula of `()`.
fn macro_formula<M: Macros>(alloc: Global, name: &Text, macros: &M) -> Result<Formula, NoMemory>
    requires { IsFormula (put_in (M.formulas macros.now name.now)) }
    ensures { IfOk result (λ f. tree_of f ≡ put_in (M.formulas macros.now name.now)) }
{
    match macros.named(name.bytes()) {
        None => Ok(Formula::of_small(Expr::Empty)),
        Some((formula, _)) => formula.copied(alloc),
    }
}

fn built_formula<M: Macros>(alloc: Global, raw: &RawExpr, macros: &M) -> Result<Formula, NoMemory>
    requires { IsFormula (filled (M.formulas macros.now) (raw_tree_of raw.now)) }
    ensures { IfOk result (λ f. tree_of f ≡ filled (M.formulas macros.now) (raw_tree_of raw.now)) }
{
    let sizes = filled_sizes(raw, macros);
    let expr = fill(alloc, raw, macros)?;
    Ok(Formula::of_measured(expr, sizes))
}
