ghost use Rattle.std.specs.Prelude.{◌≡◌, ℕ, ◌^◌, ◌<◌, ◌≤◌, List, length, ◌⊎◌};
ghost use Rattle.lg_gram.specs.EntryBounds.{IsEntryInBounds};
ghost use Rattle.lg_gram.specs.EntryViews.{EntryView};
ghost use Rattle.lg_gram.specs.Filled.{Formulas};
ghost use Rattle.lg_gram.specs.Limits.{LEVEL};
ghost use Rattle.lg_gram.specs.RawTrees.{RawTree};
ghost use Rattle.lg_lex.specs.Tokens.{Lexeme};
ghost use Rattle.lg_expr.specs.Parts.{Part, wrong};
ghost use Rattle.lg_expr.specs.Words.{Writes};
ghost use Rattle.lg_expr.specs.Classes.{part_of_lexeme};
ghost use Rattle.lg_expr.specs.Grammar.{Rules};
ghost use Rattle.lg_expr.specs.Automaton.{Answer, run, start};
ghost use Rattle.lg_expr.specs.Reading.{AnswerIs, StandFor};
ghost use Rattle.lg_expr.specs.Fits.{rules_of, AllFit, FilledFits};

use lg_base::cost_number_laws;
use lg_gram::law::names_are_written;

/// Tokens stand for one expression or have one first fault, whichever parts they are, and the automaton answers it.
///
/// The function does nothing: a caller whose proof needs the fact calls it.
pub fn exactly_one()
    ensures some { (part : (Lexeme × ℕ) → Part) (r : Rules) (ts : List (Lexeme × ℕ)) →
        AnswerIs (Lexeme × ℕ) part r ts (run (Lexeme × ℕ) part r start ts) }
    ensures one { (part : (Lexeme × ℕ) → Part) (r : Rules) (ts : List (Lexeme × ℕ)) (x y : Answer (Lexeme × ℕ)) →
        AnswerIs (Lexeme × ℕ) part r ts x → AnswerIs (Lexeme × ℕ) part r ts y → x ≡ y }
{}

/// A token is the part that it writes, and is wrong where it writes none.
///
/// The function does nothing: a caller whose proof needs the fact calls it.
pub fn parts_are_written()
    ensures written { (x : Lexeme) → (part_of_lexeme x ≡ wrong) ⊎ Writes x (part_of_lexeme x) }
    ensures only { (x : Lexeme) (p : Part) → Writes x p → part_of_lexeme x ≡ p }
{
    cost_number_laws();
    names_are_written();
}

/// With macros put in whose formulas keep to their levels, an expression's formula keeps to its own: no leaf lies deeper
/// than three steps for each level and two more, and its costs are within their bounds.
///
/// The function does nothing: a caller whose proof needs the fact calls it.
pub fn expressions_fit()
    ensures { (formulas : Formulas) (limit : ℕ) (ts : List (Lexeme × ℕ)) (e : RawTree) (written : ℕ) (rest : List (Lexeme × ℕ)) →
        AllFit formulas → limit ≤ LEVEL → StandFor (Lexeme × ℕ) (λ t. part_of_lexeme t.0) (rules_of formulas limit) ts e written rest
        → FilledFits formulas written e }
{
    parts_are_written();
}

/// An entry whose expression is read from fewer than 2^32 tokens, under rules by which at most 200 brackets may be open, is
/// within its bounds.
///
/// The function does nothing: a caller whose proof needs the fact calls it.
pub fn expressions_keep_bounds()
    ensures { (r : Rules) (ts : List (Lexeme × ℕ)) (e : EntryView) (rest : List (Lexeme × ℕ)) →
        r.limit ≤ LEVEL → length ts < 2 ^ 32 → StandFor (Lexeme × ℕ) (λ t. part_of_lexeme t.0) r ts e.expr e.level rest
        → IsEntryInBounds e }
{
    parts_are_written();
}
