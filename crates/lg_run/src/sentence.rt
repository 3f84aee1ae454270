//! A sentence, and what is written of it.
ghost use Rattle.std.specs.Prelude.{◌≡◌, ◌<◌, ◌^◌, List, IfOk, Some, length};
ghost use Rattle.lg_gram.specs.declared.disjunct.Disjunct.{Disjunct};
ghost use Rattle.lg_gram.specs.declared.listing.Page.{Page};
ghost use Rattle.lg_answer.specs.Candidates.{StandsFor};
ghost use Rattle.lg_answer.specs.Pages.{HasLinkagesOf, IsPage};
ghost use Rattle.lg_text.specs.Pages.{listing_text};
ghost use Rattle.lg_run.specs.Documents.{DocumentIs, no_knowledge};
ghost use Rattle.lg_run.specs.Words.{AreInRange};

use crate::setup::Setup;
use lg_answer::{AnswerRefusal, Listing};
use lg_base::NoMemory;
use lg_dict::{Dict, View};
use lg_knowread::{Knowledge, Patterns, Rules, Starts};
use lg_text::{bound_text, listing_text};
use std::alloc::Global;
use std::thread::Threads;

/// What is written of the sentence: the first page of its candidates, behind the numbers of its disjuncts where they are asked for, or
/// the line that says that it has too many words or too many choices.
pub(crate) fn document<R: Threads + Sync>(
    rt: &R,
    alloc: Global,
    setup: Setup,
    dict: &Dict,
    sentence: &str,
) -> Result<Vec<u8>, NoMemory>
    requires short { length sentence.now < 2 ^ 32 }
    requires range { AreInRange setup }
    ensures { IfOk result (λ text. DocumentIs setup dict.now sentence.now text.items) }
{
    match Listing::start(rt, alloc, &View::of(alloc, dict), sentence, &setup.listing) {
        Ok(listing) => first_page(alloc, setup, listing),
        Err(AnswerRefusal::Beyond(bound)) => bound_text(alloc, bound),
        Err(AnswerRefusal::NoMemory) => Err(NoMemory),
    }
}

fn first_page(alloc: Global, setup: Setup, listing: Listing) -> Result<Vec<u8>, NoMemory>
    requires stands { StandsFor no_knowledge listing.course }
    requires first { listing.course.position ≡ 0 }
    requires range { AreInRange setup }
    ensures { (problem : List (List Disjunct)) → HasLinkagesOf problem listing.course.problem → IfOk result (λ text. (page : Page) × IsPage problem no_knowledge listing.course.nulls 0 setup.listing.want setup.listing.examine page × (text.items ≡ listing_text setup.look listing.tokens page (Some listing.stats))) }
{
    let know = no_knowledge(alloc);
    let stats = listing.stats();
    let (listing, page) = listing.page(alloc, &know, setup.listing.want, setup.listing.examine)?;
    listing_text(alloc, listing.tokens(), &page, Some(stats), setup.look)
}

// No rules, so that every candidate passes.
pub(crate) fn no_knowledge(alloc: Global) -> Knowledge
    ensures { result ≡ no_knowledge }
{
    Knowledge {
        starts: Starts::of(Vec::new(alloc)),
        ignored: Patterns::of(Vec::new(alloc)),
        rules: Rules::of(Vec::new(alloc)),
    }
}
