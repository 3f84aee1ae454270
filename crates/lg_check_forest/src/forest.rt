//! What a forest has and spells.
use crate::problems::problem;
use lg_base::Steps;
use lg_forest::{solve, solve_at, spell_all};
use std::test::Fail;

// `Mary ran`: the keys of the whole sentence, of what is behind `Mary`, and of the parts before and behind `ran`.
#[test]
fn mary_ran(rt: HostRuntime) -> Result<(), Fail> {
    let alloc = rt.alloc();
    let problem = problem(alloc, &["S|o", "s"])?;
    let mut steps = Steps::start();
    let forest = solve(&rt, alloc, &problem, 1, &mut steps)?;
    assert_eq!(rt; forest.unused(), 0);
    assert_eq!(rt; forest.nodes(), 4);
    assert_eq!(rt; steps.count(), 4);
    let list = spell_all(alloc, &problem, &forest)?;
    assert_eq!(rt; list.len(), 1);
    Ok(())
}

#[test]
fn all_words_unlinked(rt: HostRuntime) -> Result<(), Fail> {
    let alloc = rt.alloc();
    let problem = problem(alloc, &["a", "B"])?;
    assert_eq!(rt; problem.positions().len(), 2);
    let mut steps = Steps::start();
    let forest = solve_at(alloc, &problem, 2, &mut steps)?;
    assert_eq!(rt; forest.nodes(), 1);
    let list = spell_all(alloc, &problem, &forest)?;
    assert_eq!(rt; list.len(), 1);
    Ok(())
}
