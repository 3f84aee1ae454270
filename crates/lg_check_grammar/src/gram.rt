//! What no clause says: that calls succeed, and outside values of labels, measures, limits and the order.
ghost use Rattle.std.specs.Prelude.{if◌then◌else◌, ◌==◌, Some, None};
ghost use Rattle.std.specs.Cmp.Lexicographic.{pointwise};
ghost use Rattle.lg_gram.specs.Trees.{tree_of};

use lg_base::{Cost, Text};
use lg_gram::macros::{fill, filled_level, filled_sizes, first_unknown};
use lg_gram::problem::{DISJUNCT_COST, POSITIONS, SIDE};
use lg_gram::*;
use std::alloc::Global;
use std::cmp::Ordering;
use std::process::Abort;
use std::test::Fail;

fn connector(caps: &str, subs: &str, right: bool) -> Result<Connector, Fail> {
    Ok(Connector::of(caps.as_bytes(), subs.as_bytes(), false, right).ok_or("refused")?)
}

#[test]
fn connectors(rt: HostRuntime) -> Result<(), Fail> {
    for (caps, subs) in [
        ("", ""),
        ("", "s"),
        ("s", ""),
        ("S9", ""),
        ("S", "sX"),
        ("S", "s+"),
        ("ABCDEFGH", "abcdefghi"),
        ("S", "***************x"),
    ] {
        let refused = Connector::of(caps.as_bytes(), subs.as_bytes(), true, true);
        assert!(rt; refused.is_none(), "{caps} {subs}");
    }
    let long = Connector::of(b"S", b"s*b************", true, false).ok_or("refused")?;
    assert_eq!(rt; long.caps(), b"S".as_slice());
    assert_eq!(rt; long.subs(), b"s*b".as_slice());
    assert!(rt; long.is_multi() && !long.is_right());
    assert!(rt; long == Connector::of(b"S", b"s*b", true, false).ok_or("refused")?);
    assert_eq!(rt;
        long.compare(&connector("A", "", true)?),
        Ordering::Less,
        "@ comes first"
    );
    let short = connector("S", "", true)?;
    assert_eq!(rt; short.compare(&connector("S", "*b", true)?), Ordering::Less);
    assert_eq!(rt; short.compare(&connector("S", "", false)?), Ordering::Equal);
    Ok(())
}

// Labels of worked sentences, and one pair that does not match.
#[test]
fn labels(rt: HostRuntime) -> Result<(), Fail> {
    for (a, b, want) in [("**b", "s", "s*b"), ("**b", "sa", "sab"), ("", "", "")] {
        let left = connector("S", a, true)?;
        let right = connector("S", b, false)?;
        assert!(rt; matches(&left, &right), "S{a}+ and S{b}-");
        let label = link_label(&left, &right);
        assert_eq!(rt; label.caps(), b"S".as_slice());
        assert_eq!(rt; label.subs(), want.as_bytes(), "S{a}+ and S{b}-");
    }
    assert!(rt; !matches(&connector("S", "*b", true)?, &connector("S", "sa", false)?));
    Ok(())
}

fn leaf(caps: &str, right: bool) -> Result<Expr, Fail> {
    Ok(Expr::Conn(connector(caps, "", right)?))
}

fn pair(alloc: Global, a: Expr, b: Expr) -> Result<Exprs, Fail> {
    let mut items = Vec::new(alloc);
    items.push(a)?;
    items.push(b)?;
    Ok(Exprs::of(items))
}

// The measures of `D- & (O- or S+)` and of `{A+} & [B+]`, counted by hand.
#[test]
fn measures(rt: HostRuntime) -> Result<(), Fail> {
    let alloc = rt.alloc();
    let object = Expr::Or(pair(alloc, leaf("O", false)?, leaf("S", true)?)?);
    let noun = Expr::And(pair(alloc, leaf("D", false)?, object)?);
    assert_eq!(rt; nodes(&noun), 5);
    assert_eq!(rt; choices(&noun), 2);
    assert_eq!(rt; longest_side(&noun), 2);
    let maybe = Expr::Or(pair(alloc, Expr::Empty, leaf("A", true)?)?);
    let dear = Expr::Priced(Box::new(alloc, leaf("B", true)?)?, Cost::of(1500));
    let both = Expr::And(pair(alloc, maybe, dear)?).copied(alloc)?;
    assert_eq!(rt; nodes(&both), 6);
    assert_eq!(rt; choices(&both), 2);
    assert_eq!(rt; longest_side(&both), 2);
    Ok(())
}

fn bracketed(alloc: Global, depth: u32, cost: Cost) -> Result<Expr, Fail> {
    let mut e = Expr::Empty;
    for _ in 0..depth {
        e = Expr::Priced(Box::new(alloc, e)?, cost);
    }
    Ok(e)
}

fn copies(alloc: Global, e: &Expr, count: u32) -> Result<Exprs, Fail> {
    let mut items = Vec::new(alloc);
    for _ in 0..count {
        items.push(e.copied(alloc)?)?;
    }
    Ok(Exprs::of(items))
}

fn is_formula(e: Expr) -> bool {
    Formula::of(e).is_some()
}

// Each limit of a formula, at its last value and one past it.
#[test]
fn formula_brackets(rt: HostRuntime) -> Result<(), Fail> {
    let alloc = rt.alloc();
    for (depth, thousandths, fits) in [
        (602, 0, true),
        (603, 0, false),
        (1, 10_000_000, true),
        (1, 10_000_001, false),
        (1, -10_000_000, true),
        (1, -10_000_001, false),
    ] {
        let e = bracketed(alloc, depth, Cost::of(thousandths))?;
        assert_eq!(rt; is_formula(e), fits, "{depth} of {thousandths}");
    }
    Ok(())
}

#[test]
fn formula_counts(rt: HostRuntime) -> Result<(), Fail> {
    let alloc = rt.alloc();
    let a = leaf("A", true)?;
    for (count, fits) in [(255, true), (256, false)] {
        assert_eq!(rt;
            is_formula(Expr::And(copies(alloc, &a, count)?)),
            fits,
            "{count} on a side"
        );
    }
    let ten = Expr::Or(copies(alloc, &Expr::Empty, 10)?);
    for (count, fits) in [(6, true), (7, false)] {
        assert_eq!(rt;
            is_formula(Expr::And(copies(alloc, &ten, count)?)),
            fits,
            "10^{count} choices"
        );
    }
    for (count, fits) in [(999_999, true), (1_000_000, false)] {
        assert_eq!(rt;
            is_formula(Expr::Or(copies(alloc, &Expr::Empty, count)?)),
            fits,
            "{count} nodes and one"
        );
    }
    Ok(())
}

#[test]
fn capitals_stand_at_the_front(rt: HostRuntime) {
    assert_eq!(rt; capitals(b"ABcD"), 2);
}

#[test]
fn formula_copied(rt: HostRuntime) -> Result<(), Fail> {
    let alloc = rt.alloc();
    let whole = Formula::of(bracketed(alloc, 2, Cost::of(0))?).ok_or("refused")?;
    let copy = whole.copied(alloc)?;
    assert_eq!(rt; (copy.nodes(), nodes(copy.expr())), (3, 3));
    let copy = copy.shared(alloc)?.copied(alloc)?;
    assert_eq!(rt; (copy.nodes(), nodes(copy.expr())), (3, 3));
    Ok(())
}

fn disjunct(alloc: Global, word: &[u8], side: usize, cost: Cost) -> Result<Disjunct, Fail> {
    let mut left = Vec::new(alloc);
    for _ in 0..side {
        left.push(connector("A", "", false)?)?;
    }
    Ok(Disjunct {
        word: Word::of(alloc, word)?,
        left: Connectors::of(alloc, left)?,
        right: Connectors::of(alloc, Vec::new(alloc))?,
        cost,
    })
}

fn is_problem(alloc: Global, disjuncts: Vec<Disjunct>) -> Result<bool, Fail> {
    let mut positions = Vec::new(alloc);
    positions.push(Disjuncts::of(disjuncts))?;
    Ok(Problem::of(Positions::of(positions)).is_some())
}

#[test]
fn problems(rt: HostRuntime) -> Result<(), Fail> {
    let alloc = rt.alloc();
    for (first, second, rises) in [("a", "b", true), ("b", "a", false), ("a", "a", false)] {
        let mut disjuncts = Vec::new(alloc);
        disjuncts.push(disjunct(alloc, first.as_bytes(), 1, Cost::of(0))?)?;
        disjuncts.push(disjunct(alloc, second.as_bytes(), 1, Cost::of(7))?)?;
        assert_eq!(rt; is_problem(alloc, disjuncts)?, rises, "{first} {second}");
    }
    for (side, cost, fits) in [
        (SIDE, DISJUNCT_COST, true),
        (SIDE + 1, 0, false),
        (0, -DISJUNCT_COST - 1, false),
    ] {
        let mut disjuncts = Vec::new(alloc);
        disjuncts.push(disjunct(alloc, b"a", side, Cost::of(cost))?)?;
        assert_eq!(rt; is_problem(alloc, disjuncts)?, fits, "{side} {cost}");
    }
    for (count, few) in [(POSITIONS, true), (POSITIONS + 1, false)] {
        let mut positions = Vec::new(alloc);
        for _ in 0..count {
            positions.push(Disjuncts::of(Vec::new(alloc)))?;
        }
        assert_eq!(rt;
            Problem::of(Positions::of(positions)).is_some(),
            few,
            "{count}"
        );
    }
    Ok(())
}

// One word a letter, each at this cost, or unlinked at a `-`.
fn chosen(alloc: Global, words: &str, cost: Cost) -> Result<Chosen, Fail> {
    let mut choices = Vec::new(alloc);
    for word in words.as_bytes() {
        if *word == b'-' {
            choices.push(None)?;
        } else {
            choices.push(Some(disjunct(alloc, &[*word], 0, cost)?))?;
        }
    }
    Ok(Chosen::of(choices))
}

fn push_link(links: &mut Vec<Link>, left: u32, right: u32) -> Result<(), Fail> {
    links.push(Link {
        left,
        lplace: 0,
        right,
        rplace: 0,
    })?;
    Ok(())
}

// With two links, each of which is named by its two positions.
fn linkage(
    alloc: Global,
    words: &str,
    cost: Cost,
    first: (u32, u32),
    second: (u32, u32),
) -> Result<Option<Linkage>, Fail> {
    let mut links = Vec::new(alloc);
    push_link(&mut links, first.0, first.1)?;
    push_link(&mut links, second.0, second.1)?;
    Ok(Linkage::of(chosen(alloc, words, cost)?, Links::of(links)))
}

#[test]
fn linkages(rt: HostRuntime) -> Result<(), Fail> {
    let alloc = rt.alloc();
    let whole = linkage(alloc, "a-a", Cost::of(500), (0, 1), (0, 2))?.ok_or("refused")?;
    assert_eq!(rt; whole.unused(), 1);
    assert_eq!(rt; whole.cost().thousandths(), 1000);
    assert_eq!(rt; whole.length(), 3);
    for (cost, first, second, fits) in [
        (DISJUNCT_COST, (0, 1), (0, 2), true),
        (0, (1, 1), (1, 2), false),
        (0, (2, 1), (3, 4), false),
        (0, (0, 2), (0, 1), false),
        (0, (0, 1), (0, 1), false),
        (DISJUNCT_COST + 1, (0, 1), (0, 2), false),
    ] {
        let made = linkage(alloc, "aaa", Cost::of(cost), first, second)?;
        assert_eq!(rt; made.is_some(), fits, "{cost} {first:?} {second:?}");
    }
    Ok(())
}

fn assert_before(rt: &impl Abort, first: &Linkage, second: &Linkage, why: &str) {
    assert_eq!(rt; first.chosen().len(), second.chosen().len());
    assert_eq!(rt; first.compare(second), Ordering::Less, "{why}");
    assert_eq!(rt; second.compare(first), Ordering::Greater, "{why}");
}

// Each linkage comes before the next, for the reason that stands with the next.
#[test]
fn order(rt: HostRuntime) -> Result<(), Fail> {
    let alloc = rt.alloc();
    let mut before = linkage(alloc, "aaaa", Cost::of(0), (0, 2), (1, 2))?.ok_or("refused")?;
    for (words, cost, first, second, why) in [
        ("aaaa", 0, (0, 1), (0, 2), "it has no link of the pair 0, 1"),
        ("baaa", 0, (0, 1), (0, 2), "its first word is less"),
        ("aaaa", 0, (0, 2), (0, 3), "its links are shorter"),
        ("aaaa", 500, (0, 1), (0, 2), "it costs less"),
        ("-aaa", -500, (0, 1), (1, 2), "it has no unlinked word"),
        ("a-aa", -500, (0, 1), (1, 2), "its first word is unlinked"),
    ] {
        let next = linkage(alloc, words, Cost::of(cost), first, second)?.ok_or("refused")?;
        assert_before(&rt, &before, &next, why);
        before = next;
    }
    Ok(())
}

// One macro.
#[derive(Drop)]
struct One {
    name: Text,
    formula: Formula,
    level: u32,
}

impl Macros for One {
    ghost formulas = { λ one name. if pointwise ◌==◌ name one.name then Some (tree_of one.formula, one.level) else None };

    fn named(&self, name: &[u8]) -> Option<(&Formula, u32)> {
        if name == self.name.bytes() {
            let _within_limits = self.formula.expr();
            Some((&self.formula, self.level))
        } else {
            None
        }
    }
}

// `<n>` is `({A+})`.
fn only_macro(alloc: Global) -> Result<One, Fail> {
    let maybe = Expr::Or(pair(alloc, Expr::Empty, leaf("A", true)?)?);
    Ok(One {
        name: Text::of(alloc, b"<n>")?,
        formula: Formula::of(maybe).ok_or("refused")?,
        level: 2,
    })
}

// `<n> & [<m>]`
fn entry(alloc: Global) -> Result<RawEntry, Fail> {
    let dear = RawExpr::Named(Text::of(alloc, b"<m>")?, 1);
    let mut members = Vec::new(alloc);
    members.push(RawExpr::Named(Text::of(alloc, b"<n>")?, 0))?;
    members.push(RawExpr::Priced(Box::new(alloc, dear)?, Cost::of(1000)))?;
    Ok(RawEntry {
        items: Items::of(Vec::new(alloc)),
        expr: RawExpr::And(RawExprs::of(members)),
        level: 1,
        line: 1,
    })
}

#[test]
fn macros_named(rt: HostRuntime) -> Result<(), Fail> {
    let alloc = rt.alloc();
    let entry = entry(alloc)?;
    assert_eq!(rt;
        entry.macro_name(1).ok_or("none")?.bytes(),
        b"<m>".as_slice()
    );
    assert!(rt; entry.macro_name(2).is_none());
    let one = only_macro(alloc)?;
    assert_eq!(rt; first_unknown(&entry.expr, &one), Some(1));
    assert_eq!(rt; filled_level(entry.level, &entry.expr, &one), 3);
    Ok(())
}

#[test]
fn macros_put_in(rt: HostRuntime) -> Result<(), Fail> {
    let alloc = rt.alloc();
    let entry = entry(alloc)?;
    let one = only_macro(alloc)?;
    let sizes = filled_sizes(&entry.expr, &one);
    assert_eq!(rt; sizes.nodes, 6);
    assert_eq!(rt; sizes.choices, 2);
    assert_eq!(rt; sizes.left.max(sizes.right), 1);
    assert!(rt; first_excess(&entry.expr, &one).is_none());
    assert_eq!(rt; nodes(&fill(alloc, &entry.expr, &one)?), 6);
    Ok(())
}
