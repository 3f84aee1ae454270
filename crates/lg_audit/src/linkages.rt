//! The linkages of a page.

mod choice;
mod chosen;
mod found;
mod frame;
mod linkage;
mod names;
mod narrow;
mod rising;
mod sides;

ghost use Rattle.std.specs.Prelude.{◌≡◌, ◌<◌, ◌≤◌, ◌^◌, List, length, option_copied, None, IfOk, IfSome, MatchOption};
ghost use Rattle.std.specs.List.{last_or};
ghost use Rattle.std.specs.List.Sorted.{IsStrictlySortedBy};
ghost use Rattle.lg_gram.specs.Limits.{LINKAGE_POSITIONS};
ghost use Rattle.lg_gram.specs.Linkages.{Linkage as Seen, linkage_cmp};
ghost use Rattle.lg_audit.specs.Pages.{HaveNamedWords, IsPageFor};
ghost use Rattle.lg_audit.specs.Replies.{IsPageOf};

use crate::linkages::found::found_linkages;
use crate::linkages::frame::is_framed;
use crate::linkages::names::see_tokens;
use crate::linkages::rising::go_on;
use crate::shown::ShownPage;
use lg_base::NoMemory;
use lg_dict::View;
use lg_disj::expressions_have_disjuncts;
use lg_gram::law::{connectors_are_ordered, names_are_written};
use lg_gram::{Linkage, Token};
use lg_knowread::Knowledge;
use lg_token::{listed_tokens, tokens_are_one_list};
use std::alloc::Global;

/// The linkages that a page shows, where it is a page of this sentence that begins with this candidate, behind the linkage that was shown
/// last; None where it is none.
///
/// Each linkage is looked at by itself: the rules of the Link Grammar report, those of the knowledge, its sums and labels, and that its
/// disjuncts are of the words of its tokens. Of a word only the disjunct that is shown is expanded.
pub(crate) fn page_linkages(
    alloc: Global,
    view: &View,
    know: &Knowledge,
    text: &str,
    from: u64,
    last: Option<&Linkage>,
    page: &ShownPage<'_>,
) -> Result<Option<Vec<Linkage>>, NoMemory>
    requires few { length know.now.rules < 2 ^ 32 }
    requires short { length text.now < 2 ^ 32 }
    ensures exact { (before : List Seen) → IsStrictlySortedBy linkage_cmp before → option_copied last.entry ≡ last_or None before
        → IfOk result (λ r. MatchOption r
        ((shown : List Seen) → IsPageOf know.now view.now text.now from before shown page.now → ⊥)
        (λ gs. IsPageOf know.now view.now text.now from before gs.items page.now)) }
    ensures only { (before shown : List Seen) → IsPageOf know.now view.now text.now from before shown page.now → IfOk result (λ r. IfSome r (λ gs. shown ≡ gs.items)) }
{
    connectors_are_ordered();
    names_are_written();
    expressions_have_disjuncts();
    tokens_are_one_list();
    let Ok(tokens) = listed_tokens(alloc, view, text)? else {
        return Ok(None);
    };
    see_tokens(view, tokens.items());
    linkages_for(alloc, view, know, tokens.items(), from, last, page)
}

// The same of a sentence with these tokens.
fn linkages_for(
    alloc: Global,
    view: &View,
    know: &Knowledge,
    tokens: &[Token],
    from: u64,
    last: Option<&Linkage>,
    page: &ShownPage<'_>,
) -> Result<Option<Vec<Linkage>>, NoMemory>
    requires few_rules { length know.now.rules < 2 ^ 32 }
    requires few { length tokens.now ≤ LINKAGE_POSITIONS }
    requires named { HaveNamedWords view.now tokens.now }
    ensures exact { (before : List Seen) → IsStrictlySortedBy linkage_cmp before → option_copied last.entry ≡ last_or None before
        → IfOk result (λ r. MatchOption r
        ((shown : List Seen) → IsPageFor know.now view.now tokens.now from before shown page.now → ⊥)
        (λ gs. IsPageFor know.now view.now tokens.now from before gs.items page.now)) }
    ensures only { (before shown : List Seen) → IsPageFor know.now view.now tokens.now from before shown page.now → IfOk result (λ r. IfSome r (λ gs. shown ≡ gs.items)) }
{
    connectors_are_ordered();
    names_are_written();
    let items = page.items.as_slice();
    if !is_framed(know, tokens, from, items, page.last) {
        return Ok(None);
    }
    let Some(shown) = found_linkages(alloc, view, know, tokens, items)? else {
        return Ok(None);
    };
    if page.last.shown != shown.len() as u64 {
        return Ok(None);
    }
    if !go_on(last, shown.as_slice()) {
        return Ok(None);
    }
    Ok(Some(shown))
}
