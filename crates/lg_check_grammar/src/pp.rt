//! The domains and groups of a linkage, and the rules that it breaks.
ghost use Rattle.std.specs.Prelude.{◌≡◌, IfOk, length};
ghost use Rattle.lg_pp.specs.Labels.{IsGood};

use crate::linkages::{link, linkage, problem};
use lg_base::Text;
use lg_gram::{Link, Linkage, Violation};
use lg_knowread::{Knowledge, Pattern, Patterns, Rule, Rules, Start, Starts};
use lg_pp::{domains, groups, judge};
use lg_rules::{Verdict, belongs, check};
use std::alloc::Global;
use std::test::Fail;

// A linkage that keeps the rules of the grammar.
fn good(alloc: Global, words: &[&str], links: &[Link]) -> Result<Linkage, Fail>
    ensures { IfOk result IsGood }
{
    let problem = problem(alloc, words)?;
    let linkage = linkage(alloc, words, links)?;
    if belongs(&problem, &linkage) {
        match check(&problem, &linkage) {
            Verdict::Good => Ok(linkage),
            _ => Err("not good")?,
        }
    } else {
        Err("not one of the problem")?
    }
}

// Patterns as a knowledge text writes them, with one capital letter.
fn pattern(alloc: Global, text: &str) -> Result<Pattern, Fail> {
    match text.as_bytes() {
        [capital, subs @ ..] => Ok(Pattern {
            caps: Text::of(alloc, &[*capital])?,
            subs: Text::of(alloc, subs)?,
        }),
        [] => Err("no pattern")?,
    }
}

fn patterns(alloc: Global, text: &str) -> Result<Patterns, Fail> {
    let mut items = Vec::new(alloc);
    items.push(pattern(alloc, text)?)?;
    Ok(Patterns::of(items))
}

// What starts a domain of a kind, what is ignored, and one rule.
fn knowledge(
    alloc: Global,
    kind: u8,
    start: &str,
    ignored: &str,
    rule: Rule,
) -> Result<Knowledge, Fail>
    ensures { IfOk result (λ know. length know.rules ≡ 1) }
{
    let mut starts = Vec::new(alloc);
    starts.push(Start {
        kind,
        pattern: pattern(alloc, start)?,
    })?;
    let mut rules = Vec::new(alloc);
    rules.push(rule)?;
    Ok(Knowledge {
        starts: Starts::of(starts),
        ignored: patterns(alloc, ignored)?,
        rules: Rules::of(rules),
    })
}

fn forbid(alloc: Global, grouped: bool, trigger: &str, other: &str) -> Result<Rule, Fail> {
    Ok(Rule::Forbid {
        grouped,
        trigger: pattern(alloc, trigger)?,
        others: patterns(alloc, other)?,
    })
}

// What is broken where links C start domains of kind e.
fn broken(
    alloc: Global,
    words: &[&str],
    links: &[Link],
    rule: Rule,
) -> Result<Option<Violation>, Fail> {
    let g = good(alloc, words, links)?;
    let know = knowledge(alloc, b'e', "C", "Z", rule)?;
    Ok(judge(alloc, &know, &g)?)
}

#[test]
fn domains_and_groups_of_a_walled_sentence(rt: HostRuntime) -> Result<(), Fail> {
    let alloc = rt.alloc();
    let words = ["WX", "D", "A", "@adwS", "s", "x"];
    let links = [
        link(0, 0, 3, 2),
        link(0, 1, 5, 0),
        link(1, 0, 3, 1),
        link(2, 0, 3, 0),
        link(3, 0, 4, 0),
    ];
    let g = good(alloc, &words, &links)?;
    let know = knowledge(alloc, b's', "S", "D", Rule::Bounded { kind: b's' })?;
    let domains = domains(alloc, &know, &g)?;
    let groups = groups(alloc, &know, &g)?;
    match (domains.as_slice(), groups.as_slice()) {
        ([domain], [rest, subject]) => {
            assert_eq!(rt; (domain.kind, domain.start), (b's', 4));
            assert_eq!(rt; domain.links.items(), [4].as_slice());
            assert_eq!(rt; rest.items(), [0, 1, 2, 3].as_slice());
            assert_eq!(rt; subject.items(), [4].as_slice());
            Ok(())
        }
        _ => Err("not one domain and two groups")?,
    }
}

#[test]
fn first_broken_rules(rt: HostRuntime) -> Result<(), Fail> {
    let alloc = rt.alloc();
    let chain = ["A", "aC", "c"];
    let joined = [link(0, 0, 1, 0), link(1, 0, 2, 0)];
    let at_the_end = Some(Violation {
        rule: 1,
        left: 1,
        right: 2,
    });
    assert_eq!(rt;
        broken(alloc, &chain, &joined, forbid(alloc, true, "C", "A")?)?,
        None
    );
    assert_eq!(rt;
        broken(alloc, &chain, &joined, forbid(alloc, false, "C", "A")?)?,
        at_the_end
    );
    let fork = ["B", "C", "cb"];
    let both = [link(0, 0, 2, 1), link(1, 0, 2, 0)];
    assert_eq!(rt;
        broken(alloc, &fork, &both, Rule::Bounded { kind: b'e' })?,
        at_the_end
    );
    let cycle = Rule::Cycle {
        pattern: pattern(alloc, "C")?,
    };
    assert_eq!(rt; broken(alloc, &fork, &both, cycle)?, at_the_end);
    Ok(())
}
