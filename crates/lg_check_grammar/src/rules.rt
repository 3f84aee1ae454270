//! Verdicts of linkages, and what the slow lister lists.
use crate::linkages::{link, linkage, problem};
use lg_gram::Link;
use lg_rules::{PLAIN_POSITIONS, Verdict, belongs, check, plain_list};
use std::test::Fail;

fn verdict(rt: &HostRuntime, words: &[&str], links: &[Link]) -> Result<Verdict, Fail> {
    let alloc = rt.alloc();
    let problem = problem(alloc, words)?;
    let linkage = linkage(alloc, words, links)?;
    if belongs(&problem, &linkage) {
        Ok(check(&problem, &linkage))
    } else {
        Err("not one of the problem")?
    }
}

#[test]
fn good_linkages(rt: HostRuntime) -> Result<(), Fail> {
    let mary_ran = [link(0, 0, 1, 0)];
    assert_eq!(rt; verdict(&rt, &["S", "s"], &mary_ran)?, Verdict::Good);
    let two_of_a_multi = [link(0, 0, 1, 0), link(0, 0, 2, 0)];
    assert_eq!(rt;
        verdict(&rt, &["@A", "a", "a"], &two_of_a_multi)?,
        Verdict::Good
    );
    assert_eq!(rt; verdict(&rt, &[".", "."], &[])?, Verdict::Good);
    Ok(())
}

#[test]
fn unmatched(rt: HostRuntime) -> Result<(), Fail> {
    let links = [link(0, 0, 1, 0), link(0, 1, 2, 0), link(0, 2, 3, 0)];
    assert_eq!(rt;
        verdict(&rt, &["ABC", "x", "y", "c"], &links)?,
        Verdict::Unmatched(0)
    );
    assert_eq!(rt;
        verdict(&rt, &["ABC", "a", "x", "y"], &links)?,
        Verdict::Unmatched(1)
    );
    Ok(())
}

#[test]
fn unsatisfied(rt: HostRuntime) -> Result<(), Fail> {
    let sides = verdict(&rt, &[".", "aB", "c"], &[])?;
    assert_eq!(rt; sides, Verdict::Unsatisfied(1, false, 0));
    let places = verdict(&rt, &["ABC", "a"], &[link(0, 0, 1, 0)])?;
    assert_eq!(rt; places, Verdict::Unsatisfied(0, true, 1));
    let two_links = verdict(&rt, &["A", "a", "a"], &[link(0, 0, 1, 0), link(0, 0, 2, 0)])?;
    assert_eq!(rt; two_links, Verdict::Unsatisfied(0, true, 0));
    Ok(())
}

#[test]
fn crossing(rt: HostRuntime) -> Result<(), Fail> {
    let links = [link(0, 0, 2, 0), link(1, 0, 3, 0), link(2, 0, 4, 0)];
    assert_eq!(rt;
        verdict(&rt, &["A", "B", "aC", "b", "c"], &links)?,
        Verdict::Crossing(0, 1)
    );
    let later = [
        link(0, 0, 1, 0),
        link(1, 0, 3, 0),
        link(2, 0, 4, 0),
        link(3, 0, 5, 0),
    ];
    assert_eq!(rt;
        verdict(&rt, &["A", "aB", "C", "bD", "c", "d"], &later)?,
        Verdict::Crossing(1, 2)
    );
    Ok(())
}

#[test]
fn apart(rt: HostRuntime) -> Result<(), Fail> {
    let links = [link(0, 0, 1, 0), link(2, 0, 3, 0), link(4, 0, 5, 0)];
    assert_eq!(rt;
        verdict(&rt, &["A", "a", "B", "b", "C", "c"], &links)?,
        Verdict::Apart(2)
    );
    let later = [link(1, 0, 2, 0), link(4, 0, 5, 0)];
    assert_eq!(rt;
        verdict(&rt, &[".", "A", "a", ".", "B", "b"], &later)?,
        Verdict::Apart(4)
    );
    Ok(())
}

#[test]
fn twice(rt: HostRuntime) -> Result<(), Fail> {
    let three = [link(0, 0, 1, 0), link(0, 1, 1, 1), link(0, 2, 1, 2)];
    assert_eq!(rt;
        verdict(&rt, &["ABC", "abc"], &three)?,
        Verdict::Twice(0, 1)
    );
    let later = [link(0, 0, 1, 0), link(1, 0, 2, 0), link(1, 1, 2, 1)];
    assert_eq!(rt;
        verdict(&rt, &["Z", "zAB", "ab"], &later)?,
        Verdict::Twice(1, 2)
    );
    Ok(())
}

#[test]
fn order(rt: HostRuntime) -> Result<(), Fail> {
    let rights = [link(0, 2, 1, 0), link(0, 1, 2, 0), link(0, 0, 3, 0)];
    assert_eq!(rt;
        verdict(&rt, &["ABC", "c", "b", "a"], &rights)?,
        Verdict::Order(0, true, 0)
    );
    let both = [
        link(0, 0, 2, 0),
        link(1, 0, 2, 1),
        link(2, 1, 3, 0),
        link(2, 0, 4, 0),
    ];
    assert_eq!(rt;
        verdict(&rt, &["A", "B", "abCD", "d", "c"], &both)?,
        Verdict::Order(2, false, 0)
    );
    Ok(())
}

#[test]
fn linkages_of_other_problems(rt: HostRuntime) -> Result<(), Fail> {
    let alloc = rt.alloc();
    let pair = problem(alloc, &["S", "s"])?;
    assert!(rt; belongs(&pair, &linkage(alloc, &["S", "."], &[])?));
    assert!(rt;
        !belongs(&pair, &linkage(alloc, &["S"], &[])?),
        "too few positions"
    );
    assert!(rt;
        !belongs(&pair, &linkage(alloc, &["S", "t"], &[])?),
        "not listed"
    );
    assert!(rt;
        !belongs(&pair, &linkage(alloc, &["S", "s"], &[link(0, 1, 1, 0)])?),
        "no such place"
    );
    Ok(())
}

// Both linkages, by their links.
#[test]
fn two_multi_connectors_share_three_words(rt: HostRuntime) -> Result<(), Fail> {
    let problem = problem(rt.alloc(), &["@A@A", "a", "a", "a"])?;
    assert!(rt; problem.positions().len() <= PLAIN_POSITIONS);
    let near = [link(0, 0, 1, 0), link(0, 0, 2, 0), link(0, 1, 3, 0)];
    let far = [link(0, 0, 1, 0), link(0, 1, 2, 0), link(0, 1, 3, 0)];
    let list = plain_list(rt.alloc(), &problem)?;
    match list.as_slice() {
        [first, second] => {
            assert!(rt; first.links() == near.as_slice() && second.links() == far.as_slice());
        }
        _ => panic!(rt; "{} linkages", list.len()),
    }
    Ok(())
}
