ghost use Rattle.std.specs.Prelude.{◌≡◌, ℕ, List, Result};
ghost use Rattle.lg_knowread.specs.declared.fault.KnowError.{KnowError};
ghost use Rattle.lg_knowread.specs.declared.knowledge.Knowledge.{Knowledge};
ghost use Rattle.lg_knowread.specs.Reading.{KnowledgeIs};

use lg_gram::law::names_are_written;
use lg_lex::{bytes_are_utf8_or_at_fault, tokens_are_one_list};

/// A text says one thing or has one first fault.
///
/// The function does nothing: a caller whose proof needs the fact calls it.
pub fn exactly_one_knowledge()
    ensures some { (bytes : List ℕ) → (x : Result Knowledge KnowError) × KnowledgeIs bytes x }
    ensures one { (bytes : List ℕ) (x y : Result Knowledge KnowError) → KnowledgeIs bytes x → KnowledgeIs bytes y → x ≡ y }
{
    tokens_are_one_list();
    names_are_written();
    bytes_are_utf8_or_at_fault();
}
