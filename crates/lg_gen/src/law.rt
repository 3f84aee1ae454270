//! The law of made input.
ghost use Rattle.lg_gen.specs.Accepted.{DictionariesAreAccepted, ScriptsAreAccepted};

use lg_expr::exactly_one;
use lg_lex::tokens_are_one_list;

/// The readers accept made texts: a made dictionary stands for entries and names no word file, and a made script for as many commands
/// as sentences, each a `parse`. The function does nothing: a caller whose proof needs the fact calls it.
pub fn made_input_is_accepted()
    ensures dictionaries { DictionariesAreAccepted }
    ensures scripts { ScriptsAreAccepted }
{
    tokens_are_one_list();
    exactly_one();
}
