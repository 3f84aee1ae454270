//! Answers to sentences.

ghost use Rattle.std.specs.Prelude.{◌≡◌, ◌↔◌, ◌≤◌, ◌<◌, ◌^◌, ◌++◌, ℕ, List, [], length, Option, Some, None, IfOk, OnOk, IsTrue, MatchOption};
ghost use Rattle.std.specs.List.{last_or};
ghost use Rattle.std.specs.List.Sorted.{IsStrictlySortedBy};
ghost use Rattle.lg_gram.specs.Linkages.{Linkage as SeenLinkage, linkage_cmp};
ghost use Rattle.lg_gram.specs.declared.reply.CommandKind.TheVariants as kinds;
ghost use Rattle.lg_gram.specs.declared.reply.Place.{Place as SeenPlace};
ghost use Rattle.lg_script.specs.Bounds.{IsSentence};
ghost use Rattle.lg_script.specs.Commands.{CommandView, goes_on};
ghost use Rattle.lg_script.specs.Histories.{reply_version};
ghost use Rattle.lg_token.specs.Bounds.{IsBeyond};
ghost use Rattle.lg_audit.specs.Answers.{reply_of};
ghost use Rattle.lg_audit.specs.Documents.{IsReplyInForm};
ghost use Rattle.lg_audit.specs.Lines.{listed, beyond};
ghost use Rattle.lg_audit.specs.Replies.{Basis as SeenBasis, AsksFor, GoesOn, Held, IsPageOf, dictionary_at, outline};
ghost use Rattle.lg_audit.specs.Grounds.{basis_in, IsUsable, IsDated};
ghost use Rattle.lg_audit.specs.Rising.{IsAhead};
ghost use Rattle.lg_audit.specs.Walks.{IsGoing, IsKept, Follows, ComesTo};

use crate::basis::Basis;
use crate::dated::{Dated, bring};
use crate::linkages::page_linkages;
use crate::shown::{ShownPage, ShownReply};
use crate::verdict::Verdict;
use lg_base::{NoMemory, Text};
use lg_dict::View;
use lg_gram::{Bound, Linkage};
use lg_knowread::Knowledge;
use lg_token::{listed_tokens, tokens_are_one_list};
use std::alloc::Global;

/// A listing that is held: its sentence, the candidate that comes next, and the linkage that was shown last. Its version is that of the
/// dictionary beside it.
#[derive(Drop)]
pub(crate) struct Going<'a> {
    pub(crate) text: &'a Text,
    pub(crate) next: u64,
    pub(crate) last: Option<Linkage>,
}

/// Checks the answer to a command that asks for a sentence from this candidate on. The dictionary is brought up to the version of the
/// answer.
pub(crate) fn opened<'a>(
    alloc: Global,
    basis: &Basis,
    dated: &mut Dated,
    text: &'a Text,
    first: u64,
    reply: &ShownReply,
) -> Result<Verdict<'a>, NoMemory>
    requires usable { IsUsable (basis_in basis.now) }
    requires dated { IsDated (basis_in basis.now) dated.old }
    requires text { IsSentence text.now }
    requires time { IsAhead dated.old.version (length (basis_in basis.now).journal) (reply_of reply.now) }
    ensures comes { (p : SeenPlace) (h : Option Held) (command : CommandView) → AsksFor command text.now first → IfOk result (ComesTo (basis_in basis.now) p h command (reply_of reply.now) dated.new.version) }
    ensures dated { OnOk result (IsDated (basis_in basis.now) dated.new) }
    ensures within { OnOk result (dated.new.version ≤ reply_version (outline (reply_of reply.now))) }
{
    match reply {
        ShownReply::Listed { version, page, .. } => {
            bring(alloc, basis, dated, *version)?;
            first_page(alloc, basis, dated, text, first, page)
        }
        ShownReply::Beyond { version, bound } => {
            bring(alloc, basis, dated, *version)?;
            past_bound(alloc, &dated.view, text, *bound)
        }
        _ => Ok(Verdict::Wrong),
    }
}

// Checks the first page of a sentence at the version of the dictionary.
fn first_page<'a>(
    alloc: Global,
    basis: &Basis,
    dated: &Dated,
    text: &'a Text,
    first: u64,
    page: &ShownPage,
) -> Result<Verdict<'a>, NoMemory>
    requires usable { IsUsable (basis_in basis.now) }
    requires dated { IsDated (basis_in basis.now) dated.now }
    requires text { IsSentence text.now }
    ensures { (p : SeenPlace) (h : Option Held) (command : CommandView) (stats : Option (List ℕ)) → AsksFor command text.now first
        → IfOk result (ComesTo (basis_in basis.now) p h command (listed dated.now.version stats page.now) dated.now.version) }
{
    match going_on(alloc, basis.know, &dated.view, text, first, None, page)? {
        Some(going) => Ok(Verdict::Right(Some(going))),
        None => Ok(Verdict::Wrong),
    }
}

// Checks that a sentence passes a bound. Nothing is held then.
fn past_bound<'a>(
    alloc: Global,
    view: &View,
    text: &'a Text,
    bound: Bound,
) -> Result<Verdict<'a>, NoMemory>
    requires { IsSentence text.now }
    ensures { (basis : SeenBasis) (p : SeenPlace) (h : Option Held) (command : CommandView) (first version : ℕ) → AsksFor command text.now first → view.now ≡ dictionary_at basis version
        → IfOk result (ComesTo basis p h command (beyond version bound) version) }
{
    let Ok(sentence) = str::from_utf8(text.bytes()) else {
        unreachable!()
    };
    let beyond = is_beyond(alloc, view, sentence, bound)?;
    if beyond {
        return Ok(Verdict::Right(None));
    }
    Ok(Verdict::Wrong)
}

// Whether the sentence passes this bound.
fn is_beyond(alloc: Global, view: &View, text: &str, bound: Bound) -> Result<bool, NoMemory>
    requires { length text.now < 2 ^ 32 }
    ensures { IfOk result (λ holds. IsTrue holds ↔ IsBeyond view.now text.now bound) }
{
    tokens_are_one_list();
    let Err(found) = listed_tokens(alloc, view, text)? else {
        return Ok(false);
    };
    Ok(found == bound)
}

/// Checks the answer to `more`.
pub(crate) fn gone_on<'a>(
    alloc: Global,
    basis: &Basis,
    dated: &Dated,
    held: Option<Going<'a>>,
    reply: &ShownReply,
) -> Result<Verdict<'a>, NoMemory>
    requires usable { IsUsable (basis_in basis.now) }
    requires dated { IsDated (basis_in basis.now) dated.now }
    requires kept { (h : Option Held) × IsKept dated.now.version h held }
    requires form { IsReplyInForm kinds.More (reply_of reply.now) }
    ensures { (p : SeenPlace) (h : Option Held) → IsKept dated.now.version h held.entry → IfOk result (ComesTo (basis_in basis.now) p h goes_on (reply_of reply.now) dated.now.version) }
{
    match held {
        Some(going) => next_page(alloc, basis, dated, going, reply),
        None => Ok(nothing_more(reply)),
    }
}

// Checks that nothing is held.
fn nothing_more<'a>(reply: &ShownReply) -> Verdict<'a>
    ensures { (basis : SeenBasis) (p : SeenPlace) (version : ℕ) → ComesTo basis p None goes_on (reply_of reply.now) version result }
{
    match reply {
        ShownReply::NothingHeld => Verdict::Right(None),
        _ => Verdict::Wrong,
    }
}

// Checks the next page of the listing that is held.
fn next_page<'a>(
    alloc: Global,
    basis: &Basis,
    dated: &Dated,
    going: Going<'a>,
    reply: &ShownReply,
) -> Result<Verdict<'a>, NoMemory>
    requires usable { IsUsable (basis_in basis.now) }
    requires dated { IsDated (basis_in basis.now) dated.now }
    requires kept { (h : Held) × IsGoing dated.now.version h going }
    requires form { IsReplyInForm kinds.More (reply_of reply.now) }
    ensures { (p : SeenPlace) (h : Held) → IsGoing dated.now.version h going.entry → IfOk result (ComesTo (basis_in basis.now) p (Some h) goes_on (reply_of reply.now) dated.now.version) }
{
    let ShownReply::Listed { version, page, .. } = reply else {
        return Ok(Verdict::Wrong);
    };
    if *version != dated.version {
        return Ok(Verdict::Wrong);
    }
    if !begins_there(going.next, page) {
        return Ok(Verdict::Wrong);
    }
    let Going { text, next, last } = going;
    match going_on(alloc, basis.know, &dated.view, text, next, last, page)? {
        Some(going) => Ok(Verdict::Right(Some(going))),
        None => Ok(Verdict::Wrong),
    }
}

// Whether a page without candidates stays where the page before it ended.
fn begins_there(from: u64, page: &ShownPage) -> bool
    ensures { IsTrue result ↔ GoesOn from page.now }
{
    !page.items.is_empty() || page.last.next == from
}

// What is held once a page of the sentence is shown that begins with this candidate, behind the linkage that was shown last. None where
// it is no such page.
fn going_on<'a>(
    alloc: Global,
    know: &Knowledge,
    view: &View,
    text: &'a Text,
    from: u64,
    last: Option<Linkage>,
    page: &ShownPage,
) -> Result<Option<Going<'a>>, NoMemory>
    requires few { length know.now.rules < 2 ^ 32 }
    requires text { IsSentence text.now }
    ensures { (before : List SeenLinkage) → IsStrictlySortedBy linkage_cmp before → last ≡ last_or None before → IfOk result (λ r. MatchOption r
        ((shown : List SeenLinkage) → IsPageOf know.now view.now text.now from before shown page.now → ⊥)
        (Follows know.now view.now text.now from before page.now)) }
{
    let Ok(sentence) = str::from_utf8(text.bytes()) else {
        unreachable!()
    };
    let Some(shown) = page_linkages(alloc, view, know, sentence, from, last.as_ref(), page)? else {
        return Ok(None);
    };
    let next = page.last.next;
    let last = last_shown(last, shown);
    Ok(Some(Going { text, next, last }))
}

// The linkage that was shown last, once these are shown too.
fn last_shown(last: Option<Linkage>, shown: Vec<Linkage>) -> Option<Linkage>
    ensures { (before : List SeenLinkage) → last ≡ last_or None before → result ≡ last_or None (before ++ shown.items) }
{
    let mut shown = shown;
    match shown.pop() {
        Some(linkage) => Some(linkage),
        None => last,
    }
}
