//! The lines of a document, read back.

ghost use Rattle.std.specs.Prelude.{◌≡◌, ℕ, Bool, MatchOption};
ghost use Rattle.lg_gram.specs.declared.listing.Violation.{Violation as SeenViolation};
ghost use Rattle.lg_audit.specs.Pieces.{IsNumber};
ghost use Rattle.lg_text.specs.Shown.{IsOneLine};
ghost use Rattle.lg_audit.specs.Lines.{fail_line, IsViolationInForm, page_line, end_word, IsEndInForm, heading_line, AreSumsInForm};
ghost use Rattle.lg_audit.specs.Lines.{ShownLink as SeenLink, link_line, IsLinkInForm, ShownWord as SeenWord, word_line, IsWordInForm};
ghost use Rattle.lg_audit.specs.Lines.{ShownChoice as SeenChoice, choice_text, IsChoiceInForm};

use crate::numeral::{cost_of, number_of, small_number_of};
use crate::piece::{behind, first_piece, last_piece, named_number, named_small};
use crate::shown::{ShownChoice, ShownEnd, ShownLink, ShownSums, ShownWord};
use lg_gram::{Link, Violation};

/// A candidate that fails: its number, and the rule that it breaks.
pub(crate) fn failure(line: &[u8]) -> Option<(u64, Violation)>
    ensures { MatchOption result
        ((number : ℕ) (v : SeenViolation) → IsNumber number → IsViolationInForm v → line.now ≡ fail_line number v → ⊥)
        (λ r. IsNumber r.0 × IsViolationInForm r.1 × (line.now ≡ fail_line r.0 r.1)) }
{
    let Some((number, rest)) = named_number(line, b"fail ") else {
        return None;
    };
    let Some((rule, ends)) = named_small(rest, b"rule ") else {
        return None;
    };
    let Some((left, last)) = named_small(ends, b"link ") else {
        return None;
    };
    let Some(right) = small_number_of(last) else {
        return None;
    };
    Some((number, Violation { rule, left, right }))
}

/// The last line of a page.
pub(crate) fn page_end(line: &[u8]) -> Option<ShownEnd>
    ensures { MatchOption result
        ((e : ShownEnd) → IsEndInForm e → line.now ≡ page_line e → ⊥)
        (λ e. IsEndInForm e × (line.now ≡ page_line e)) }
{
    let Some((shown, after_shown)) = named_number(line, b"page shown ") else {
        return None;
    };
    let Some((examined, after_examined)) = named_number(after_shown, b"examined ") else {
        return None;
    };
    let Some((next, last)) = named_number(after_examined, b"next ") else {
        return None;
    };
    let Some(end) = is_end(last) else {
        return None;
    };
    Some(ShownEnd {
        shown,
        examined,
        next,
        end,
    })
}

// Whether the last piece says that no candidate is left, or else that more may be.
fn is_end(piece: &[u8]) -> Option<bool>
    ensures { MatchOption result ((end : Bool) → piece.now ≡ end_word end → ⊥) (λ end. piece.now ≡ end_word end) }
{
    if piece == b"end".as_slice() {
        Some(true)
    } else if piece == b"more".as_slice() {
        Some(false)
    } else {
        None
    }
}

/// The heading of a linkage: its number and its sums.
pub(crate) fn heading(line: &[u8]) -> Option<(u64, ShownSums)>
    ensures { MatchOption result
        ((number : ℕ) (sums : ShownSums) → IsNumber number → AreSumsInForm sums → line.now ≡ heading_line number sums → ⊥)
        (λ r. IsNumber r.0 × AreSumsInForm r.1 × (line.now ≡ heading_line r.0 r.1)) }
{
    let Some((number, after_number)) = named_number(line, b"linkage ") else {
        return None;
    };
    let Some((unused, after_unused)) = named_number(after_number, b"unused ") else {
        return None;
    };
    let Some(costs) = behind(after_unused, b"cost ") else {
        return None;
    };
    let Some((piece, after_cost)) = first_piece(costs) else {
        return None;
    };
    let Some(cost) = cost_of(piece) else {
        return None;
    };
    let Some(last) = behind(after_cost, b"length ") else {
        return None;
    };
    let Some(length) = number_of(last) else {
        return None;
    };
    let sums = ShownSums {
        unused,
        cost,
        length,
    };
    Some((number, sums))
}

/// A link and its label.
pub(crate) fn link(line: &[u8]) -> Option<ShownLink<'_>>
    requires { IsOneLine line.now }
    ensures { MatchOption result
        ((l : SeenLink) → IsLinkInForm l → line.now ≡ link_line l → ⊥)
        (λ l. IsLinkInForm l × (line.now ≡ link_line l)) }
{
    let Some((left, after_left)) = named_small(line, b"link ") else {
        return None;
    };
    let Some((right, after_right)) = named_small(after_left, b"") else {
        return None;
    };
    let Some((label, after_label)) = first_piece(after_right) else {
        return None;
    };
    let Some((lplace, last)) = named_small(after_label, b"") else {
        return None;
    };
    let Some(rplace) = small_number_of(last) else {
        return None;
    };
    let link = Link {
        left,
        lplace,
        right,
        rplace,
    };
    Some(ShownLink { link, label })
}

/// A position.
pub(crate) fn word(line: &[u8]) -> Option<ShownWord<'_>>
    requires { IsOneLine line.now }
    ensures { MatchOption result
        ((w : SeenWord) → IsWordInForm w → line.now ≡ word_line w → ⊥)
        (λ w. IsWordInForm w × (line.now ≡ word_line w)) }
{
    let Some((position, after_position)) = named_number(line, b"word ") else {
        return None;
    };
    let Some((text, used)) = first_piece(after_position) else {
        return None;
    };
    if used == b"null".as_slice() {
        return Some(ShownWord {
            position,
            text,
            choice: None,
        });
    }
    let Some(choice) = choice_of(used) else {
        return None;
    };
    Some(ShownWord {
        position,
        text,
        choice: Some(choice),
    })
}

// What a linked position uses. Its word may have blanks, so the other pieces are cut off from the end.
fn choice_of(used: &[u8]) -> Option<ShownChoice<'_>>
    requires { IsOneLine used.now }
    ensures { MatchOption result
        ((c : SeenChoice) → IsChoiceInForm c → used.now ≡ choice_text c → ⊥)
        (λ c. IsChoiceInForm c × (used.now ≡ choice_text c)) }
{
    let Some((before_cost, last)) = last_piece(used) else {
        return None;
    };
    let Some(cost) = cost_of(last) else {
        return None;
    };
    let Some((before_right, right)) = last_piece(before_cost) else {
        return None;
    };
    let Some((word, left)) = last_piece(before_right) else {
        return None;
    };
    Some(ShownChoice {
        word,
        left,
        right,
        cost,
    })
}
