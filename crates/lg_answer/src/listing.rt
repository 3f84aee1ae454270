//! Listings.
ghost use Rattle.std.specs.Prelude.{◌≡◌, ◌+◌, ◌-◌, ◌<◌, ◌≤◌, ◌^◌, true, false, List, length, All, IfOk, IfErr, IfSome};
ghost use Rattle.lg_gram.specs.declared.disjunct.Disjunct.{Disjunct};
ghost use Rattle.std.specs.List.{sum_by};
ghost use Rattle.lg_forest.specs.Forests.{AreWorkers};
ghost use Rattle.lg_knowread.specs.declared.knowledge.Knowledge.{Knowledge as SeenKnowledge};
ghost use Rattle.lg_idiom.specs.Overlays.{HasNoJoints};
ghost use Rattle.lg_answer.specs.Candidates.{StandsFor};
ghost use Rattle.lg_answer.specs.Idioms.{UsesChainsWhole, JoinsNeighbours, KeepsPlainLinkages};
ghost use Rattle.lg_answer.specs.Pages.{IsOpen, HasLinkagesOf, AreStats, IsListing, IsSameListing, HasSkipped, IsBeyond, IsRefused, IsPage, IsLinkageFor};
ghost use Rattle.lg_answer.specs.Steps.{AreOfSentence, IsSearched};
ghost use Rattle.lg_answer.specs.Wide.{IsReady, problem_of};

use crate::course::Course;
use crate::law::idioms_stay_whole;
use crate::narrow::{narrowed, whole};
use crate::options::{Nulls, Options};
use crate::page::{page_of, skip};
use crate::refusal::AnswerRefusal;
use crate::wide::Wide;
use lg_base::NoMemory;
use lg_dict::View;
use lg_gram::{Page, Problem, Stats, Tokens};
use lg_knowread::Knowledge;
use lg_pprune::{pprune, pruning_keeps_linkages};
use lg_token::listed_tokens;
use std::alloc::Global;
use std::marker::Model;
use std::thread::Threads;

/// A listing of a sentence: its tokens, and how far the listing of its candidates has come. A candidate is made when a page
/// looks at it; one that is passed over is made only where no candidate of its level, of those behind, decides.
///
/// Contracts see `{ tokens, course, stats }`. The problem of the course is what pruning, and often sharpening, has left of the sentence's; clauses on pages
/// speak of any problem with the same good linkages, as the sentence's is.
#[derive(Drop)]
pub struct Listing {
    tokens: Tokens,
    course: Course,
    stats: Stats,
}

impl Model for Listing {
    ghost use Rattle.lg_answer.specs.Pages.{Listing as Seen, IsOpen};

    ghost Value = { Seen };

    ghost view = { λ l. record { tokens = l.tokens; course = l.course; stats = l.stats } };

    ghost invariant = { λ l. IsOpen (record { tokens = l.tokens; course = l.course; stats = l.stats }) };
}

impl Listing {
    /// The listing of a sentence at its start, before its first candidate. It stands for every knowledge.
    ///
    /// The text has fewer than 2^32 bytes. A sentence is `Beyond` a bound where it has more than 252 tokens, and else where
    /// their words have more than 4,000,000 choices together, whose counting stops at 2^60. Where disjuncts are pruned and not
    /// counted, formulas are pruned before they are expanded, and the numbers of disjuncts are zeros. With idioms the formulas that
    /// `lg_idiom::idioms` adds are among those of the words, at most 4,000,000 choices more. The forest of the sentence is made here,
    /// by 1 to 16 workers; its candidates are made one by one by `page` and `skip`.
    pub fn start<R: Threads + Sync>(
        rt: &R,
        alloc: Global,
        view: &View,
        text: &str,
        options: &Options,
    ) -> Result<Listing, AnswerRefusal>
        requires short { length text.now < 2 ^ 32 }
        requires workers { AreWorkers options.now.workers }
        ensures listing { IfOk result (IsListing view.now text.now options.now) }
        ensures nulls { IfOk result (λ listing. listing.course.nulls ≡ options.now.nulls) }
        ensures first { IfOk result (λ listing. listing.course.position ≡ 0) }
        ensures stands { (know : SeenKnowledge) → IfOk result (λ listing. StandsFor know listing.course) }
        ensures whole { options.now.idioms ≡ true → HasNoJoints view.now → IfOk result (λ listing. UsesChainsWhole view.now listing.tokens listing.course.problem) }
        ensures neighbours { options.now.idioms ≡ true → HasNoJoints view.now → IfOk result (λ listing. JoinsNeighbours listing.course.problem) }
        ensures plain { options.now.idioms ≡ true → HasNoJoints view.now → IfOk result (λ listing. KeepsPlainLinkages view.now listing.tokens listing.course.problem) }
        ensures refused { IfErr result (IsRefused view.now text.now) }
    {
        let tokens = match listed_tokens(alloc, view, text)? {
            Ok(tokens) => tokens,
            Err(bound) => return Err(AnswerRefusal::Beyond(bound)),
        };
        idioms_stay_whole();
        let (wide, stats) = searched(alloc, view, &tokens, options)?;
        let course = Course::start(rt, alloc, wide, options)?;
        Ok(Listing {
            tokens,
            course,
            stats,
        })
    }

    /// Passes over this many candidates, or over all that are left. The knowledge is one that the listing stands for. Its
    /// position and this number are at most 2^62 together. The only error is running out of memory, and then the listing is
    /// gone.
    pub fn skip(self, alloc: Global, know: &Knowledge, n: u64) -> Result<Listing, NoMemory>
        requires few { length know.now.rules < 2 ^ 32 }
        requires stands { StandsFor know.now self.course }
        requires room { self.course.position + n ≤ 2 ^ 62 }
        ensures skipped { (problem : List (List Disjunct)) → HasLinkagesOf problem self.course.problem → IfOk result (HasSkipped know.now problem self n) }
        ensures stands { IfOk result (λ listing. StandsFor know.now listing.course) }
        ensures same { IfOk result (IsSameListing self) }
    {
        let Listing {
            tokens,
            mut course,
            stats,
        } = self;
        skip(alloc, know, &mut course, n)?;
        Ok(Listing {
            tokens,
            course,
            stats,
        })
    }

    /// The next page: the candidates from the position on, and the listing after it.
    ///
    /// Before each candidate it stops where `want` have passed, else where `examine` were looked at, else where none is
    /// left; only the last is the end. All that were looked at stand in the page, each with its number and the first rule
    /// of post-processing that it breaks, if it breaks one; each may be printed beside the listing's tokens. The knowledge is
    /// one that the listing stands for. Its position and `examine` are at most 2^62 together. The only error is running out of
    /// memory, and then the listing is gone.
    pub fn page(
        self,
        alloc: Global,
        know: &Knowledge,
        want: u64,
        examine: u64,
    ) -> Result<(Listing, Page), NoMemory>
        requires few { length know.now.rules < 2 ^ 32 }
        requires stands { StandsFor know.now self.course }
        requires room { self.course.position + examine ≤ 2 ^ 62 }
        ensures page { (problem : List (List Disjunct)) → HasLinkagesOf problem self.course.problem → IfOk result (λ both. IsPage problem know.now self.course.nulls self.course.position want examine both.1) }
        ensures moved { IfOk result (λ both. both.0.course.position + 1 ≡ both.1.next) }
        ensures stands { IfOk result (λ both. StandsFor know.now both.0.course) }
        ensures same { IfOk result (λ both. IsSameListing self both.0) }
        ensures printable { IfOk result (λ both. All (λ item. IsLinkageFor self.tokens item.linkage) both.1.items) }
    {
        let Listing {
            tokens,
            mut course,
            stats,
        } = self;
        let page = page_of(alloc, know, &mut course, want, examine)?;
        let listing = Listing {
            tokens,
            course,
            stats,
        };
        Ok((listing, page))
    }

    /// The tokens. No memory.
    pub fn tokens(&self) -> &Tokens
        ensures value { result.now ≡ self.now.tokens }
        ensures open { IsOpen self.now }
    {
        &self.tokens
    }

    /// Which linkages decide how many words may stay unlinked. No memory.
    pub fn nulls(&self) -> Nulls
        ensures { result ≡ self.now.course.nulls }
    {
        self.course.nulls()
    }

    /// How many disjuncts the sentence's problem has, and how many are kept: those that are alive where it is pruned, and else all.
    /// Only where the options ask for them are they counted. No memory.
    pub fn stats(&self) -> Stats
        ensures { result ≡ self.now.stats }
    {
        self.stats
    }
}

// What is searched, with the numbers of its disjuncts.
fn searched(
    alloc: Global,
    view: &View,
    tokens: &Tokens,
    options: &Options,
) -> Result<(Wide, Stats), NoMemory>
    requires listed { AreOfSentence view.now tokens.now }
    ensures searched { IfOk result (λ both. IsSearched view.now tokens.now options.now (problem_of both.0) both.1) }
    ensures ready { IfOk result (λ both. IsReady both.0) }
{
    if options.prune && !options.count {
        uncounted(alloc, view, tokens, options)
    } else {
        counted(alloc, view, tokens, options)
    }
}

// The words whose formulas are pruned. They are expanded where a problem is sharpened.
fn uncounted(
    alloc: Global,
    view: &View,
    tokens: &Tokens,
    options: &Options,
) -> Result<(Wide, Stats), NoMemory>
    requires listed { AreOfSentence view.now tokens.now }
    requires uncounted { options.now.count ≡ false }
    ensures searched { IfOk result (λ both. IsSearched view.now tokens.now options.now (problem_of both.0) both.1) }
    ensures ready { IfOk result (λ both. IsReady both.0) }
{
    let wide = narrowed(alloc, view, tokens, options.idioms)?;
    let stats = Stats {
        disjuncts: 0,
        kept: 0,
    };
    Ok((wide, stats))
}

// All disjuncts, or what pruning leaves of them.
fn counted(
    alloc: Global,
    view: &View,
    tokens: &Tokens,
    options: &Options,
) -> Result<(Wide, Stats), NoMemory>
    requires listed { AreOfSentence view.now tokens.now }
    ensures searched { IfOk result (λ both. IsSearched view.now tokens.now options.now (problem_of both.0) both.1) }
    ensures ready { IfOk result (λ both. IsReady both.0) }
{
    let problem = whole(alloc, view, tokens, options.idioms)?;
    let (kept, stats) = pruned(alloc, problem, options.prune)?;
    Ok((Wide::Problem(kept), stats))
}

// What pruning leaves of a problem, where it is asked for, with the numbers of the disjuncts.
fn pruned(alloc: Global, problem: Problem, prune: bool) -> Result<(Problem, Stats), NoMemory>
    ensures keeps { IfOk result (λ both. HasLinkagesOf problem both.0) }
    ensures counted { IfOk result (λ both. AreStats problem prune both.1) }
    ensures same { IfOk result (λ both. length both.0 ≡ length problem) }
{
    let disjuncts = disjunct_count(&problem);
    if !prune {
        let stats = Stats {
            disjuncts,
            kept: disjuncts,
        };
        return Ok((problem, stats));
    }
    pruning_keeps_linkages();
    let pruned = pprune(alloc, problem)?;
    let kept = disjunct_count(&pruned);
    Ok((pruned, Stats { disjuncts, kept }))
}

// How many disjuncts a problem has.
fn disjunct_count(problem: &Problem) -> u64
    ensures { result ≡ sum_by length problem.now }
{
    let mut count: u64 = 0;
    for position in problem.positions() {
        count += position.items().len() as u64;
    }
    count
}
