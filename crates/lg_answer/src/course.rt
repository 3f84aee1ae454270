//! The candidates of a problem one by one, those with fewer unlinked words first.
ghost use Rattle.std.specs.Prelude.{◌≡◌, ◌+◌, ◌<◌, ◌^◌, ◌||◌, true, List, length, IfOk, OnOk, OnErr, IfSome};
ghost use Rattle.lg_gram.specs.Linkages.{Linkage as Seen, linkage_cmp};
ghost use Rattle.lg_gram.specs.Rules.{Good};
ghost use Rattle.lg_region.specs.Parts.{UnderWhole};
ghost use Rattle.lg_forest.specs.Forests.{AreWorkers};
ghost use Rattle.lg_rank.specs.Fronts.{IsFront, IsNext};
ghost use Rattle.lg_rank.specs.Rankings.{given, passed_over, IsThere};
ghost use Rattle.lg_knowread.specs.declared.knowledge.Knowledge.{Knowledge as SeenKnowledge};
ghost use Rattle.lg_answer.specs.Candidates.{HasCome, StandsFor, IsNextOf, HasPassed, IsSameCourse};
ghost use Rattle.lg_answer.specs.Pages.{HasLinkagesOf};
ghost use Rattle.lg_answer.specs.Wide.{IsReady, problem_of};

use crate::options::{Nulls, Options};
use crate::search::Search;
use crate::wide::Wide;
use lg_base::NoMemory;
use lg_gram::Linkage;
use std::alloc::Global;
use std::marker::Model;
use std::thread::Threads;

/// How far a listing of a problem's candidates has come.
///
/// Contracts see `{ problem, nulls, level, before, position, decided }`: the problem, which linkages decide, how many words are
/// unlinked in the candidates that come next, how many candidates have fewer, how many are behind, and whether one of the level,
/// of those behind, decides.
#[derive(Drop)]
pub(crate) struct Course {
    search: Search,
    nulls: Nulls,
    before: u64,
    decided: bool,
}

impl Model for Course {
    ghost use Rattle.std.specs.Prelude.{◌+◌};
    ghost use Rattle.lg_answer.specs.Candidates.{Course as Seen};

    ghost Value = { Seen };

    ghost view = { λ c. record { problem = c.search.positions; nulls = c.nulls; level = c.search.nulls; before = c.before; position = c.before + c.search.position; decided = c.decided } };
}

impl Course {
    /// Before the first candidate. It stands for every knowledge. Where disjuncts are pruned its problem may have fewer of them.
    pub fn start<R: Threads + Sync>(
        rt: &R,
        alloc: Global,
        wide: Wide,
        options: &Options,
    ) -> Result<Course, NoMemory>
        requires workers { AreWorkers options.now.workers }
        requires ready { IsReady wide }
        ensures keeps { IfOk result (λ course. HasLinkagesOf (problem_of wide) course.problem) }
        ensures long { IfOk result (λ course. length course.problem ≡ length (problem_of wide)) }
        ensures nulls { IfOk result (λ course. course.nulls ≡ options.now.nulls) }
        ensures first { IfOk result (λ course. course.position ≡ 0) }
        ensures stands { (know : SeenKnowledge) → IfOk result (StandsFor know) }
    {
        let search = Search::start(rt, alloc, wide, options)?;
        Ok(Course {
            search,
            nulls: options.nulls,
            before: 0,
            decided: false,
        })
    }

    /// How many candidates are behind. No memory.
    pub fn position(&self) -> u64
        requires { self.now.position < 2 ^ 63 }
        ensures { result ≡ self.now.position }
    {
        self.before + self.search.position()
    }

    /// Whether a candidate of the level that is behind decides. No memory.
    pub fn is_decided(&self) -> bool
        ensures { result ≡ self.now.decided }
    {
        self.decided
    }

    /// Which linkages decide. No memory.
    pub fn nulls(&self) -> Nulls
        ensures { result ≡ self.now.nulls }
    {
        self.nulls
    }

    /// Notes whether the candidate that was given last decides.
    pub fn note(&mut self, decides: bool)
        ensures { self.new ≡ record self.old { decided = self.old.decided || decides } }
    {
        self.decided = self.decided || decides;
    }

    /// The next candidate, or none where all are behind. Whether it decides is still to be noted. The knowledge is one that the
    /// listing stands for. The only error is running out of memory, and then the course is of no more use: its listing is gone.
    pub fn advance(&mut self, alloc: Global) -> Result<Option<Linkage>, NoMemory>
        requires room { self.old.position < 2 ^ 62 }
        requires stands { (know : SeenKnowledge) × StandsFor know self.old }
        ensures next { (know : SeenKnowledge) (front : List Seen) → HasCome know self.old front → IfOk result (λ g. IsNextOf know self.new front g) }
        ensures good { IfOk result (λ g. IfSome g (Good self.old.problem)) }
        ensures same { OnOk result (IsSameCourse self.old self.new) }
    {
        'levels: loop {
            match self.next_of_level(alloc)? {
                Some(linkage) => return Ok(Some(linkage)),
                None => {
                    if self.is_decided() {
                        return Ok(None);
                    }
                    self.rise(alloc)?;
                }
            }
        }
    }

    /// Passes over the next candidate of a level that is decided, without making its linkage: whether there is one. The only error is
    /// running out of memory, and then nothing has changed.
    pub fn pass(&mut self, alloc: Global) -> Result<bool, NoMemory>
        requires room { self.old.position < 2 ^ 62 }
        requires decided { self.old.decided ≡ true }
        ensures passed { (know : SeenKnowledge) (front : List Seen) → HasCome know self.old front → IfOk result (HasPassed know self.new front) }
        ensures same { OnOk result (IsSameCourse self.old self.new) }
        ensures unchanged { OnErr result (self.new ≡ self.old) }
    {
        let there = self.pass_of_level(alloc)?;
        Ok(there)
    }

    // Whether the level has a next linkage, which is then behind.
    fn pass_of_level(&mut self, alloc: Global) -> Result<bool, NoMemory>
        requires room { self.old.position < 2 ^ 62 }
        ensures next { (gs : List Seen) → IsFront linkage_cmp (UnderWhole self.old.problem self.old.level) gs → self.old.before + length gs ≡ self.old.position → IfOk result (IsThere (IsNext linkage_cmp (UnderWhole self.old.problem self.old.level) gs)) }
        ensures moved { IfOk result (λ there. self.new ≡ record self.old { position = self.old.position + passed_over there }) }
        ensures unchanged { OnErr result (self.new ≡ self.old) }
    {
        self.search.pass(alloc)
    }

    // The next linkage of the level, or none where all of it are behind.
    fn next_of_level(&mut self, alloc: Global) -> Result<Option<Linkage>, NoMemory>
        requires room { self.old.position < 2 ^ 62 }
        ensures next { (gs : List Seen) → IsFront linkage_cmp (UnderWhole self.old.problem self.old.level) gs → self.old.before + length gs ≡ self.old.position → IfOk result (λ g. IsNext linkage_cmp (UnderWhole self.old.problem self.old.level) gs g) }
        ensures moved { IfOk result (λ g. self.new ≡ record self.old { position = self.old.position + given g }) }
    {
        self.search.next(alloc)
    }

    // Goes on to one more unlinked word.
    fn rise(&mut self, alloc: Global) -> Result<(), NoMemory>
        requires room { self.old.position < 2 ^ 62 }
        requires level { self.old.level < length self.old.problem }
        ensures { OnOk result (self.new ≡ record self.old { level = self.old.level + 1; before = self.old.position }) }
    {
        let given = self.search.position();
        self.search.rise(alloc)?;
        self.before += given;
        Ok(())
    }
}
