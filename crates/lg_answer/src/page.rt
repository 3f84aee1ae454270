//! Pages of candidates.
ghost use Rattle.std.specs.Prelude.{◌≡◌, ◌≤◌, ◌<◌, ◌^◌, ◌+◌, ◌↔◌, ◌∷◌, true, [], length, List, IfOk, OnOk};
ghost use Rattle.lg_gram.specs.Linkages.{Linkage as Seen};
ghost use Rattle.lg_knowread.specs.declared.knowledge.Knowledge.{Knowledge as SeenKnowledge};
ghost use Rattle.lg_pp.specs.Breaks.{Judges};
ghost use Rattle.lg_pp.specs.Labels.{IsGood};
ghost use Rattle.lg_answer.specs.Candidates.{StandsFor, IsSameCourse, IsBehind, Decides, HasCome, HasPassed};
ghost use Rattle.lg_answer.specs.Pages.{IsPage, passed};
ghost use Rattle.lg_answer.specs.Steps.{IsLookedAt, HasLooked};

use crate::course::Course;
use crate::options::Nulls;
use lg_base::NoMemory;
use lg_gram::{Linkage, Page, PageItem, PageItems};
use lg_knowread::Knowledge;
use lg_pp::judge;
use std::alloc::Global;

/// Passes over this many candidates, or over all that are left. A candidate is made and judged only where it is not clear yet
/// whether one of its level decides. The only error is running out of memory, and then the listing is gone.
pub(crate) fn skip(
    alloc: Global,
    know: &Knowledge,
    course: &mut Course,
    n: u64,
) -> Result<(), NoMemory>
    requires few { length know.now.rules < 2 ^ 32 }
    requires stands { StandsFor know.now course.old }
    requires room { course.old.position + n ≤ 2 ^ 62 }
    ensures stands { OnOk result (StandsFor know.now course.new) }
    ensures same { OnOk result (IsSameCourse course.old course.new) }
    ensures behind { OnOk result (IsBehind course.old.problem know.now course.old.nulls (course.old.position + n) course.new.position) }
{
    for _ in 0..n {
        if !pass_over(alloc, know, course)? {
            return Ok(());
        }
    }
    Ok(())
}

// Passes over the next candidate: whether there is one. Where the level is not decided, it is noted whether this one decides.
fn pass_over(alloc: Global, know: &Knowledge, course: &mut Course) -> Result<bool, NoMemory>
    requires few { length know.now.rules < 2 ^ 32 }
    requires stands { StandsFor know.now course.old }
    requires room { course.old.position < 2 ^ 62 }
    ensures passed { (front : List Seen) → HasCome know.now course.old front → IfOk result (HasPassed know.now course.new front) }
    ensures same { OnOk result (IsSameCourse course.old course.new) }
{
    if course.is_decided() {
        return course.pass(alloc);
    }
    let Some(linkage) = course.advance(alloc)? else {
        return Ok(false);
    };
    let decides = decides(alloc, know, course.nulls(), &linkage)?;
    course.note(decides);
    Ok(true)
}

// Whether the linkage decides.
fn decides(
    alloc: Global,
    know: &Knowledge,
    nulls: Nulls,
    linkage: &Linkage,
) -> Result<bool, NoMemory>
    requires few { length know.now.rules < 2 ^ 32 }
    requires good { IsGood linkage.now }
    ensures { IfOk result (λ decides. (decides ≡ true) ↔ Decides nulls know.now linkage.now) }
{
    match nulls {
        Nulls::First => Ok(true),
        Nulls::Passing => Ok(judge(alloc, know, linkage)?.is_none()),
    }
}

/// The page of the next candidates. Before each candidate it stops where `want` have passed, else where `examine` were looked
/// at, else where none is left, and only then it is the end. The only error is running out of memory, and then the listing is
/// gone.
pub(crate) fn page_of(
    alloc: Global,
    know: &Knowledge,
    course: &mut Course,
    want: u64,
    examine: u64,
) -> Result<Page, NoMemory>
    requires few { length know.now.rules < 2 ^ 32 }
    requires stands { StandsFor know.now course.old }
    requires room { course.old.position + examine ≤ 2 ^ 62 }
    ensures page { IfOk result (λ page. IsPage course.old.problem know.now course.old.nulls course.old.position want examine page) }
    ensures moved { IfOk result (λ page. course.new.position + 1 ≡ page.next) }
    ensures stands { OnOk result (StandsFor know.now course.new) }
    ensures same { OnOk result (IsSameCourse course.old course.new) }
{
    let from = course.position();
    let mut items = Vec::new(alloc);
    let end = look_on(alloc, know, course, want, examine, &mut items)?;
    Ok(Page {
        next: from + items.len() as u64 + 1,
        items: PageItems::of(items),
        end,
    })
}

// Puts the candidates that a page looks at into the list, which is empty, and says whether none is left.
fn look_on(
    alloc: Global,
    know: &Knowledge,
    course: &mut Course,
    want: u64,
    examine: u64,
    items: &mut Vec<PageItem>,
) -> Result<bool, NoMemory>
    requires few { length know.now.rules < 2 ^ 32 }
    requires stands { StandsFor know.now course.old }
    requires room { course.old.position + examine ≤ 2 ^ 62 }
    requires empty { items.old.items ≡ [] }
    ensures looked { IfOk result (HasLooked know.now course.new course.old.position want examine items.new.items) }
    ensures same { OnOk result (IsSameCourse course.old course.new) }
{
    let from = course.position();
    let mut passed = 0;
    for looked in 0..examine {
        if passed == want {
            return Ok(false);
        }
        let Some(linkage) = course.advance(alloc)? else {
            return Ok(true);
        };
        let item = look_at(alloc, know, from + looked + 1, linkage)?;
        course.note(decides_item(course.nulls(), &item));
        passed += pass_count(&item);
        items.push(item)?;
    }
    Ok(false)
}

// 1 where this candidate passes, else 0.
fn pass_count(item: &PageItem) -> u64
    ensures { result ≡ passed (item.now ∷ []) }
{
    match item.broken {
        None => 1,
        Some(_) => 0,
    }
}

// Whether a candidate that was looked at decides.
fn decides_item(nulls: Nulls, item: &PageItem) -> bool
    ensures { (know : SeenKnowledge) → Judges know item.now.linkage item.now.broken → (result ≡ true) ↔ Decides nulls know item.now.linkage }
{
    match nulls {
        Nulls::First => true,
        Nulls::Passing => item.broken.is_none(),
    }
}

fn look_at(
    alloc: Global,
    know: &Knowledge,
    number: u64,
    candidate: Linkage,
) -> Result<PageItem, NoMemory>
    requires few { length know.now.rules < 2 ^ 32 }
    requires good { IsGood candidate }
    ensures { IfOk result (IsLookedAt know.now number candidate) }
{
    let broken = judge(alloc, know, &candidate)?;
    Ok(PageItem {
        number,
        linkage: candidate,
        broken,
    })
}
