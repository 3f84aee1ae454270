//! What the positions of a linkage use, by their lines.

ghost use Rattle.std.specs.Prelude.{List, Option, IfOk, MatchOption};
ghost use Rattle.lg_gram.specs.declared.disjunct.Disjunct.{Disjunct as Seen};
ghost use Rattle.lg_audit.specs.Pages.{IsShownAs, IsFoundAs, IsShownAt, IsFoundAt, AreShown, AreFound};

use crate::linkages::choice::choice_of;
use crate::shown::{ShownChoice, ShownWord};
use lg_base::NoMemory;
use lg_dict::View;
use lg_gram::{Disjunct, Token};
use std::alloc::Global;

/// What each token uses by its line. None where a line shows nothing that its token can use, or there are more lines or fewer.
pub(crate) fn chosen_of(
    alloc: Global,
    view: &View,
    tokens: &[Token],
    words: &[ShownWord<'_>],
) -> Result<Option<Vec<Option<Disjunct>>>, NoMemory>
    ensures { IfOk result (λ r. MatchOption r
        ((os : List (Option Seen)) → AreShown view.now 0 tokens.now words.now os → ⊥)
        (λ chosen. AreFound view.now 0 tokens.now words.now chosen.items)) }
{
    if words.len() != tokens.len() {
        return Ok(None);
    }
    let mut chosen = Vec::new(alloc);
    for position in 0..tokens.len() {
        let token = &tokens[position];
        let Some(choice) = use_of(alloc, view, position as u64, token, &words[position])? else {
            return Ok(None);
        };
        chosen.push(choice)?;
    }
    Ok(Some(chosen))
}

// What the token at a position uses by its line: a disjunct, or nothing.
fn use_of(
    alloc: Global,
    view: &View,
    position: u64,
    token: &Token,
    word: &ShownWord<'_>,
) -> Result<Option<Option<Disjunct>>, NoMemory>
    ensures { IfOk result (λ r. MatchOption r
        ((o : Option Seen) → IsShownAt view.now position token.now word.now o → ⊥)
        (IsFoundAt view.now position token.now word.now)) }
{
    if word.position != position || word.text != token.text.bytes() {
        return Ok(None);
    }
    match &word.choice {
        None => Ok(Some(None)),
        Some(choice) => linked_use(alloc, view, token, choice),
    }
}

// The disjunct that a linked token uses by its line.
fn linked_use(
    alloc: Global,
    view: &View,
    token: &Token,
    choice: &ShownChoice<'_>,
) -> Result<Option<Option<Disjunct>>, NoMemory>
    ensures { IfOk result (λ r. MatchOption r
        ((d : Seen) → IsShownAs view.now token.now.words choice.now d → ⊥)
        (λ o. MatchOption o ⊥ (IsFoundAs view.now token.now.words choice.now))) }
{
    match choice_of(alloc, view, token.words.items(), choice)? {
        Some(disjunct) => Ok(Some(Some(disjunct))),
        None => Ok(None),
    }
}
