//! The good linkages of a problem, level by level.
ghost use Rattle.std.specs.Prelude.{◌≡◌, ◌↔◌, ◌+◌, ◌<◌, ◌≤◌, ◌^◌, ℕ, List, length, IsTrue, IfOk, OnErr, OnOk, IfSome, MatchOption};
ghost use Rattle.lg_gram.specs.Levels.{IsFewest};
ghost use Rattle.lg_gram.specs.Linkages.{Linkage as Seen, linkage_cmp};
ghost use Rattle.lg_gram.specs.declared.disjunct.Disjunct.{Disjunct};
ghost use Rattle.lg_region.specs.Parts.{UnderWhole};
ghost use Rattle.lg_forest.specs.Forests.{AreWorkers, IsForest};
ghost use Rattle.lg_rank.specs.Fronts.{IsFront, IsNext};
ghost use Rattle.lg_rank.specs.Rankings.{given, passed_over, IsThere};
ghost use Rattle.lg_answer.specs.Searches.{Begins, BeginsSharper, HasFew};
ghost use Rattle.lg_answer.specs.Wide.{AreExpandable, HasNoFewer, IsReady, KeepsFew, all_disjuncts, problem_of};

use crate::options::Options;
use crate::wide::{Wide, blanks_of, sharpened_words};
use lg_base::{NoMemory, Own, Steps};
use lg_eprune::PositionExprs;
use lg_fewest::fewest;
use lg_forest::{Forest, solve, solve_at, solve_at_by};
use lg_gram::{Linkage, Problem};
use lg_rank::Ranked;
use lg_region::Key;
use lg_sharpen::sharpened;
use std::alloc::Global;
use std::marker::Model;
use std::thread::Threads;

// For how many more unlinked words than there are positions without disjuncts the problem is sharpened, before it is sharpened for any
// number.
const FEW: u32 = 2;

// From how many disjuncts a word on average levels are searched one after another.
const CROWDED: usize = 20;

// A problem of fewer disjuncts is walked by one worker.
const MANY_DISJUNCTS: usize = 2_000;

/// The good linkages of a problem with so many unlinked words, in order. The first are looked for among fewer disjuncts.
///
/// Contracts see `{ positions, nulls, position }`: the problem, how many words are unlinked, and how many linkages were given
/// or passed over.
#[derive(Drop)]
pub(crate) struct Search {
    ranked: Ranked,
    // the problem, or the words of which it is made, where the one that is ranked is sharper
    wide: Option<Wide>,
}

impl Model for Search {
    ghost use Rattle.lg_rank.specs.Rankings.{Ranking};
    ghost use Rattle.lg_answer.specs.Searches.{wide_of, StandsUpTo};

    ghost Value = { Ranking };

    ghost view = { λ s. record { positions = wide_of s.wide s.ranked.positions; nulls = s.ranked.nulls; position = s.ranked.position } };

    ghost invariant = { λ s. StandsUpTo s.ranked.nulls s.wide s.ranked.positions };
}

impl Search {
    /// Before the first linkage with the fewest unlinked words. Where disjuncts are pruned, the problem is sharpened: first for as
    /// many unlinked words as positions have nothing that can be linked, then for one and two more, and where it has no such linkages,
    /// for any number.
    pub fn start<R: Threads + Sync>(
        rt: &R,
        alloc: Global,
        wide: Wide,
        options: &Options,
    ) -> Result<Search, NoMemory>
        requires workers { AreWorkers options.now.workers }
        requires ready { IsReady wide }
        ensures { IfOk result (Begins (problem_of wide)) }
    {
        if options.prune {
            Search::sharp(rt, alloc, wide, options.workers)
        } else {
            Search::unpruned(rt, alloc, wide, options.workers)
        }
    }

    fn unpruned<R: Threads + Sync>(
        rt: &R,
        alloc: Global,
        wide: Wide,
        workers: u32,
    ) -> Result<Search, NoMemory>
        requires workers { AreWorkers workers }
        requires ready { IsReady wide }
        ensures { IfOk result (Begins (problem_of wide)) }
    {
        let problem = wide.into_problem(alloc)?;
        let search = Search::whole(rt, alloc, problem, workers)?;
        Ok(search)
    }

    fn sharp<R: Threads + Sync>(
        rt: &R,
        alloc: Global,
        wide: Wide,
        workers: u32,
    ) -> Result<Search, NoMemory>
        requires workers { AreWorkers workers }
        requires ready { IsReady wide }
        ensures { IfOk result (Begins (problem_of wide)) }
    {
        let found = sharper(rt, alloc, &wide, workers)?;
        match found {
            Some(ranked) => Ok(Search::beside(wide, ranked)),
            None => Search::for_any(rt, alloc, wide, workers),
        }
    }

    // The search of a sharper problem.
    fn beside(wide: Wide, ranked: Ranked) -> Search
        requires sharper { BeginsSharper (problem_of wide) ranked }
        requires ready { IsReady wide }
        ensures { Begins (problem_of wide) result }
    {
        Search {
            ranked,
            wide: Some(wide),
        }
    }

    // The search of the problem that is sharpened for any number of unlinked words.
    fn for_any<R: Threads + Sync>(
        rt: &R,
        alloc: Global,
        wide: Wide,
        workers: u32,
    ) -> Result<Search, NoMemory>
        requires workers { AreWorkers workers }
        requires ready { IsReady wide }
        ensures { IfOk result (Begins (problem_of wide)) }
    {
        let sharp = wide.into_sharp(alloc)?;
        let search = Search::of_sharp(rt, alloc, sharp, workers)?;
        Ok(search)
    }

    fn of_sharp<R: Threads + Sync>(
        rt: &R,
        alloc: Global,
        problem: Problem,
        workers: u32,
    ) -> Result<Search, NoMemory>
        requires workers { AreWorkers workers }
        ensures { IfOk result (Begins problem) }
    {
        if is_crowded(&problem) {
            Search::whole(rt, alloc, problem, workers)
        } else {
            Search::at_fewest(rt, alloc, problem, workers)
        }
    }

    // The search of the level of the fewest unlinked words, which one pass tells, by the problem that is sharpened for that number.
    fn at_fewest<R: Threads + Sync>(
        rt: &R,
        alloc: Global,
        problem: Problem,
        workers: u32,
    ) -> Result<Search, NoMemory>
        requires workers { AreWorkers workers }
        ensures { IfOk result (Begins problem) }
    {
        let nulls = fewest(alloc, &problem)?;
        let found = sharpened(alloc, &problem, nulls)?;
        let Some(sharp) = found else {
            return Search::at_level(rt, alloc, problem, nulls, workers);
        };
        let level = level_of(rt, alloc, sharp, nulls, workers)?;
        match level {
            Some(ranked) => Ok(Search::beside(Wide::Problem(problem), ranked)),
            None => unreachable!(),
        }
    }

    // The search of this level, which is that of the fewest unlinked words.
    fn at_level<R: Threads + Sync>(
        rt: &R,
        alloc: Global,
        problem: Problem,
        nulls: u32,
        workers: u32,
    ) -> Result<Search, NoMemory>
        requires workers { AreWorkers workers }
        requires fewest { IsFewest problem nulls }
        ensures { IfOk result (Begins problem) }
    {
        let mut steps = Steps::<Own>::start();
        let workers = workers_for(&problem, workers);
        let forest = solve_at_by(rt, alloc, &problem, nulls, workers, &mut steps)?;
        let ranked = Ranked::new(alloc, problem, forest)?;
        Ok(Search { ranked, wide: None })
    }

    fn whole<R: Threads + Sync>(
        rt: &R,
        alloc: Global,
        problem: Problem,
        workers: u32,
    ) -> Result<Search, NoMemory>
        requires workers { AreWorkers workers }
        ensures { IfOk result (Begins problem) }
    {
        let workers = workers_for(&problem, workers);
        let forest = solve(rt, alloc, &problem, workers, &mut Steps::<Own>::start())?;
        let ranked = Ranked::new(alloc, problem, forest)?;
        Ok(Search { ranked, wide: None })
    }

    /// How many linkages of the level were given or passed over. No memory.
    pub fn position(&self) -> u64
        ensures { result ≡ self.now.position }
    {
        self.ranked.position()
    }

    /// The next linkage of the level, or none where all were given. The only error is running out of memory, and then nothing has
    /// changed.
    pub fn next(&mut self, alloc: Global) -> Result<Option<Linkage>, NoMemory>
        requires { self.old.position < 2 ^ 63 }
        ensures next { (gs : List Seen) → IsFront linkage_cmp (UnderWhole self.old.positions self.old.nulls) gs → length gs ≡ self.old.position → IfOk result (λ g. IsNext linkage_cmp (UnderWhole self.old.positions self.old.nulls) gs g) }
        ensures moved { IfOk result (λ g. self.new ≡ record self.old { position = self.old.position + given g }) }
        ensures unchanged { OnErr result (self.new ≡ self.old) }
    {
        let found = self.ranked.next(alloc)?;
        Ok(found)
    }

    /// Passes over the next linkage of the level without making it: whether there is one. The only error is running out of memory, and
    /// then nothing has changed.
    pub fn pass(&mut self, alloc: Global) -> Result<bool, NoMemory>
        requires { self.old.position < 2 ^ 63 }
        ensures next { (gs : List Seen) → IsFront linkage_cmp (UnderWhole self.old.positions self.old.nulls) gs → length gs ≡ self.old.position → IfOk result (IsThere (IsNext linkage_cmp (UnderWhole self.old.positions self.old.nulls) gs)) }
        ensures moved { IfOk result (λ there. self.new ≡ record self.old { position = self.old.position + passed_over there }) }
        ensures unchanged { OnErr result (self.new ≡ self.old) }
    {
        let there = self.ranked.pass(alloc)?;
        Ok(there)
    }

    /// Goes on to one more unlinked word. Where a sharper problem was searched, the problem is sharpened for that number. The only error
    /// is running out of memory, and then the search is of no more use: its listing is gone.
    pub fn rise(&mut self, alloc: Global) -> Result<(), NoMemory>
        requires { self.old.nulls < length self.old.positions }
        ensures { OnOk result (self.new ≡ record { positions = self.old.positions; nulls = self.old.nulls + 1; position = 0 }) }
    {
        match self.wide.take() {
            Some(wide) => {
                *self = Search::at(alloc, wide, self.ranked.nulls() + 1)?;
                Ok(())
            }
            None => raise(alloc, &mut self.ranked),
        }
    }

    // Before the first linkage of this level, by a problem that is sharpened for it.
    fn at(alloc: Global, wide: Wide, nulls: u32) -> Result<Search, NoMemory>
        requires nulls { nulls ≤ length (problem_of wide) }
        requires ready { IsReady wide }
        ensures { IfOk result (λ search. search ≡ record { positions = problem_of wide; nulls = nulls; position = 0 }) }
    {
        match wide {
            Wide::Problem(problem) => Search::of_problem(alloc, problem, nulls),
            Wide::Words(words) => Search::of_words(alloc, words, nulls),
        }
    }

    // The same of a problem, which is sharpened if it is not small.
    fn of_problem(alloc: Global, problem: Problem, nulls: u32) -> Result<Search, NoMemory>
        requires { nulls ≤ length problem }
        ensures { IfOk result (λ search. search ≡ record { positions = problem; nulls = nulls; position = 0 }) }
    {
        let found = sharpened(alloc, &problem, nulls)?;
        let Some(sharp) = found else {
            let ranked = ranked_at(alloc, problem, nulls)?;
            return Ok(Search { ranked, wide: None });
        };
        let ranked = ranked_at(alloc, sharp, nulls)?;
        let wide = Some(Wide::Problem(problem));
        Ok(Search { ranked, wide })
    }

    // The same of words.
    fn of_words(alloc: Global, words: PositionExprs, nulls: u32) -> Result<Search, NoMemory>
        requires nulls { nulls ≤ length (all_disjuncts words) }
        requires ready { AreExpandable words }
        ensures { IfOk result (λ search. search ≡ record { positions = all_disjuncts words; nulls = nulls; position = 0 }) }
    {
        let sharp = sharpened_words(alloc, &words, nulls)?;
        let ranked = ranked_at(alloc, sharp, nulls)?;
        let wide = Some(Wide::Words(words));
        Ok(Search { ranked, wide })
    }
}

// The linkages of a problem with so many unlinked words.
fn ranked_at(alloc: Global, problem: Problem, nulls: u32) -> Result<Ranked, NoMemory>
    requires { nulls ≤ length problem }
    ensures { IfOk result (λ ranked. ranked ≡ record { positions = problem; nulls = nulls; position = 0 }) }
{
    // the call tells that there are few positions
    let _positions = problem.positions();
    let forest = solve_at(alloc, &problem, nulls, &mut Steps::<Own>::start())?;
    Ranked::new(alloc, problem, forest)
}

// Goes on to one more unlinked word.
fn raise(alloc: Global, ranked: &mut Ranked) -> Result<(), NoMemory>
    requires { ranked.old.nulls < length ranked.old.positions }
    ensures { OnOk result (ranked.new ≡ record { positions = ranked.old.positions; nulls = ranked.old.nulls + 1; position = 0 }) }
{
    let problem = ranked.problem();
    // the call tells that there are few positions
    let _positions = problem.positions();
    let nulls = ranked.nulls() + 1;
    let forest = solve_at(alloc, problem, nulls, &mut Steps::<Own>::start())?;
    ranked.restart(alloc, forest)
}

// The linkages with the fewest unlinked words, of a problem that is sharpened for their number; none where these are more words
// than those without disjuncts and a few, or where the problem is small.
fn sharper<R: Threads + Sync>(
    rt: &R,
    alloc: Global,
    wide: &Wide,
    workers: u32,
) -> Result<Option<Ranked>, NoMemory>
    requires workers { AreWorkers workers }
    requires ready { IsReady wide.now }
    ensures { IfOk result (λ ranked. IfSome ranked (BeginsSharper (problem_of wide.now))) }
{
    let least = wide.blanks();
    let most = wide.len().min(least + FEW);
    for nulls in least..most + 1 {
        let found = sharp_at(alloc, wide, nulls)?;
        let Some(sharp) = found else {
            return Ok(None);
        };
        let level = level_of(rt, alloc, sharp, nulls, workers)?;
        if level.is_some() {
            return Ok(level);
        }
    }
    Ok(None)
}

// A problem that is sharpened for so many unlinked words; none where the problem is small.
fn sharp_at(alloc: Global, wide: &Wide, nulls: u32) -> Result<Option<Problem>, NoMemory>
    requires { IsReady wide.now }
    ensures { IfOk result (λ sharp. IfSome sharp (KeepsFew (problem_of wide.now) nulls)) }
{
    match wide {
        Wide::Problem(problem) => sharpened(alloc, problem, nulls),
        Wide::Words(words) => Ok(Some(sharpened_words(alloc, words, nulls)?)),
    }
}

// The linkages with so many unlinked words, of the problem that is sharpened for that number; none where there are none. Nothing is
// searched where more positions than so many have lost all their disjuncts.
fn level_of<R: Threads + Sync>(
    rt: &R,
    alloc: Global,
    sharp: Problem,
    nulls: u32,
    workers: u32,
) -> Result<Option<Ranked>, NoMemory>
    requires workers { AreWorkers workers }
    requires few { nulls ≤ length sharp }
    ensures { (positions : List (List Disjunct)) → HasNoFewer positions nulls → KeepsFew positions nulls sharp → IfOk result (λ ranked. MatchOption ranked (HasNoFewer positions (nulls + 1)) (BeginsSharper positions)) }
{
    if blanks_of(&sharp) > nulls {
        return Ok(None);
    }
    let mut steps = Steps::<Own>::start();
    let workers = workers_for(&sharp, workers);
    let forest = solve_at_by(rt, alloc, &sharp, nulls, workers, &mut steps)?;
    if !has_few(&forest, nulls) {
        return Ok(None);
    }
    let ranked = Ranked::new(alloc, sharp, forest)?;
    Ok(Some(ranked))
}

// Whether a search of one level after another is faster than a pass for the least number of unlinked words. It remembers how regions
// begin, which tells where words have many disjuncts.
fn is_crowded(problem: &Problem) -> bool {
    count_of(problem) / CROWDED > problem.positions().len()
}

// How many workers walk a problem: one alone takes half the time that several take, as far as was measured, and that is below so many
// disjuncts.
fn workers_for(problem: &Problem, workers: u32) -> u32
    requires { AreWorkers workers }
    ensures { AreWorkers result }
{
    if count_of(problem) < MANY_DISJUNCTS {
        1
    } else {
        workers
    }
}

fn count_of(problem: &Problem) -> usize {
    let mut count: usize = 0;
    for position in problem.positions() {
        count = count.saturating_add(position.items().len());
    }
    count
}

// Whether the sentence has a linkage in its forest, with at most so many unlinked words.
fn has_few(forest: &Forest, most: u32) -> bool
    ensures { IsTrue result ↔ HasFew most forest.now }
{
    let nulls = forest.unused();
    nulls <= most && forest.alts(&Key::Whole { nulls }).is_some()
}
