//! The linkages of the candidates that pass.

ghost use Rattle.std.specs.Prelude.{◌≡◌, [], ◌∷◌, ◌<◌, ◌≤◌, ◌^◌, List, length, map, IfOk, MatchOption};
ghost use Rattle.std.specs.List.{flat_map};
ghost use Rattle.lg_gram.specs.Limits.{LINKAGE_POSITIONS};
ghost use Rattle.lg_gram.specs.Linkages.{Linkage as Seen};
ghost use Rattle.lg_audit.specs.Pages.{HaveNamedWords, AreOnesOf};
ghost use Rattle.lg_audit.specs.Replies.{linkages_of};
ghost use Rattle.lg_audit.specs.Views.{item_of};

use crate::linkages::linkage::linkage_of;
use crate::shown::{ShownItem, ShownLinkage};
use lg_base::NoMemory;
use lg_dict::View;
use lg_gram::{Linkage, Token};
use lg_knowread::Knowledge;
use std::alloc::Global;

/// The linkages that these candidates show. None where one shows what is no linkage of the tokens that keeps all rules.
pub(crate) fn found_linkages(
    alloc: Global,
    view: &View,
    know: &Knowledge,
    tokens: &[Token],
    items: &[ShownItem<'_>],
) -> Result<Option<Vec<Linkage>>, NoMemory>
    requires few_rules { length know.now.rules < 2 ^ 32 }
    requires few { length tokens.now ≤ LINKAGE_POSITIONS }
    requires named { HaveNamedWords view.now tokens.now }
    ensures { IfOk result (λ r. MatchOption r
        ((gs : List Seen) → AreOnesOf know.now view.now tokens.now (flat_map linkages_of (map item_of items.now)) gs → ⊥)
        (λ gs. AreOnesOf know.now view.now tokens.now (flat_map linkages_of (map item_of items.now)) gs.items)) }
{
    let mut found = Vec::new(alloc);
    for item in items {
        let Some(shown) = linkage_in(item) else {
            continue;
        };
        let Some(g) = linkage_of(alloc, view, know, tokens, shown)? else {
            return Ok(None);
        };
        found.push(g)?;
    }
    Ok(Some(found))
}

// The linkage that a candidate shows, if it passes.
fn linkage_in<'a>(item: &'a ShownItem<'a>) -> Option<&'a ShownLinkage<'a>>
    ensures { MatchOption result (linkages_of (item_of item.now) ≡ []) (λ shown. linkages_of (item_of item.now) ≡ shown.now ∷ []) }
{
    match item {
        ShownItem::Passes { linkage, .. } => Some(linkage),
        ShownItem::Fails { .. } => None,
    }
}
