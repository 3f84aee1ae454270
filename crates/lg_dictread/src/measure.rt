//! The measures of an entry's expression, macros put in.

ghost use Rattle.std.specs.Prelude.{MatchResult};
ghost use Rattle.lg_gram.specs.Filled.{filled};
ghost use Rattle.lg_gram.specs.RawTrees.{raw_tree_of};
ghost use Rattle.lg_dictread.specs.Texts.{IsSmall, IsLarge};

use crate::dict_error::DictError;
use lg_gram::{Excess, Macros, RawExpr, first_excess};

/// Tests the measures of the expression of an entry on this line. Nothing is built.
pub(crate) fn measure<M: Macros>(macros: &M, expr: &RawExpr, line: u32) -> Result<(), DictError>
    ensures { let t = filled (M.formulas macros.now) (raw_tree_of expr.now) in
        MatchResult result (λ _. IsSmall t) (IsLarge t line) }
{
    match first_excess(expr, macros) {
        None => Ok(()),
        Some(Excess::Nodes(count)) => Err(DictError::TooManyNodes(line, count)),
        Some(Excess::Choices(count)) => Err(DictError::TooManyChoices(line, count)),
        Some(Excess::Side(count)) => Err(DictError::SideTooLong(line, count)),
    }
}
