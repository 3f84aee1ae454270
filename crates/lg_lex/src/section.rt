ghost use Rattle.std.specs.Prelude.{◌≡◌, ◌+◌, ◌≤◌, ◌++◌, length, drop, IfSome, IfNone};
ghost use Rattle.lg_lex.specs.Classes.{class_of};
ghost use Rattle.lg_lex.specs.Sections.{EndsIn, IsClosed, NoSection, is_bare};
ghost use Rattle.lg_lex.specs.declared.marks.Class.TheVariants.{Sign};

use crate::marks::{Class, Marks, class_of};

/// The bytes from a spot to the next such sign and with it, where neither a comment nor a quote begins before it.
///
/// The spot is between two tokens. The section has the same tokens wherever it stands. The time is linear in the bytes that are
/// looked at.
pub fn section_to(marks: Marks, sign: u8, text: &[u8], from: usize) -> Option<&[u8]>
    requires within { from ≤ length text.now }
    requires sign { class_of marks sign ≡ Sign }
    ensures closed { IfSome result (λ section. IsClosed marks section.now) }
    ensures ends { IfSome result (λ section. EndsIn sign section.now) }
    ensures within { IfSome result (λ section. from + length section.now ≤ length text.now) }
    ensures stands { IfSome result (λ section. drop from text.now ≡ section.now ++ drop (from + length section.now) text.now) }
    ensures none { IfNone result (NoSection marks sign (drop from text.now)) }
{
    let mut last = from;
    while last < text.len() {
        if text[last] == sign {
            return Some(&text[from..=last]);
        }
        if !is_bare(marks, text[last]) {
            return None;
        }
        last += 1;
    }
    None
}

// Whether a byte begins no comment and does not quote.
fn is_bare(marks: Marks, byte: u8) -> bool
    ensures { result ≡ is_bare marks byte }
{
    !matches!(class_of(marks, byte), Class::Percent | Class::Quote)
}
