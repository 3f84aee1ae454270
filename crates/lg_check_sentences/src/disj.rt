//! What no clause says: that calls succeed in good time, and the disjuncts of entries that were expanded by hand.
use lg_base::{Cost, Text};
use lg_disj::expand;
use lg_disj::law::disjuncts_are_one_list;
use lg_gram::{Connector, Disjunct, Disjuncts, Expr, Exprs, Formula};
use std::alloc::Global;
use std::fmt::Write;
use std::test::Fail;

fn expanded(alloc: Global, e: Expr) -> Result<Disjuncts, Fail> {
    let formula = Formula::of(e).ok_or("past a limit")?;
    let word = Text::of(alloc, b"word")?;
    Ok(expand(alloc, &word, &formula)?)
}

fn leaf(caps: &[u8], multi: bool, right: bool) -> Result<Expr, Fail> {
    let connector = Connector::of(caps, b"", multi, right).ok_or("no name")?;
    Ok(Expr::Conn(connector))
}

fn bracketed(alloc: Global, inner: Expr) -> Result<Expr, Fail> {
    let cost = Cost::of(1000);
    Ok(Expr::Priced(Box::new(alloc, inner)?, cost))
}

fn either(alloc: Global, first: Expr, second: Expr) -> Result<Expr, Fail> {
    let mut members = Vec::new(alloc);
    members.push(first)?;
    members.push(second)?;
    Ok(Expr::Or(Exprs::of(members)))
}

// As `@A- D- S+ 1000`.
fn shown(alloc: Global, disjunct: &Disjunct) -> Result<String, Fail> {
    let mut text = String::new(alloc);
    for connector in disjunct.left.items() {
        push_connector(&mut text, connector)?;
    }
    for connector in disjunct.right.items() {
        push_connector(&mut text, connector)?;
    }
    let cost = disjunct.cost.thousandths();
    write!(text, "{cost}")?;
    Ok(text)
}

fn push_connector(text: &mut String, connector: &Connector) -> Result<(), Fail> {
    if connector.is_multi() {
        text.push('@')?;
    }
    for letter in connector.caps() {
        text.push(char::from(*letter))?;
    }
    text.push_str(if connector.is_right() { "+ " } else { "- " })?;
    Ok(())
}

// `A+ or [A+]`
#[test]
fn equal_disjuncts_are_one(rt: HostRuntime) -> Result<(), Fail> {
    let alloc = rt.alloc();
    let dear = bracketed(alloc, leaf(b"A", false, true)?)?;
    let disjuncts = expanded(alloc, either(alloc, dear, leaf(b"A", false, true)?)?)?;
    assert_eq!(rt; disjuncts.items().len(), 1);
    for disjunct in disjuncts.items() {
        assert_eq!(rt; shown(alloc, disjunct)?.as_str(), "A+ 0");
        assert_eq!(rt; disjunct.word.bytes(), b"word".as_slice());
    }
    disjuncts_are_one_list();
    Ok(())
}

// `[B+] or A+`
#[test]
fn ranking_by_bracket_cost(rt: HostRuntime) -> Result<(), Fail> {
    let alloc = rt.alloc();
    let dear = bracketed(alloc, leaf(b"B", false, true)?)?;
    let disjuncts = expanded(alloc, either(alloc, dear, leaf(b"A", false, true)?)?)?;
    assert_eq!(rt; disjuncts.items().len(), 2);
    for (disjunct, want) in disjuncts.items().iter().zip(["A+ 0", "B+ 1000"]) {
        assert_eq!(rt; shown(alloc, disjunct)?.as_str(), want);
    }
    Ok(())
}

// `{@A-} & D- & Wd- & S+` without the subscript, and `()`
#[test]
fn connectors_from_near_to_far(rt: HostRuntime) -> Result<(), Fail> {
    let alloc = rt.alloc();
    let mut members = Vec::new(alloc);
    members.push(either(alloc, Expr::Empty, leaf(b"A", true, false)?)?)?;
    members.push(leaf(b"D", false, false)?)?;
    members.push(leaf(b"W", false, false)?)?;
    members.push(leaf(b"S", false, true)?)?;
    let disjuncts = expanded(alloc, Expr::And(Exprs::of(members)))?;
    assert_eq!(rt; disjuncts.items().len(), 2);
    for (disjunct, want) in disjuncts
        .items()
        .iter()
        .zip(["@A- D- W- S+ 0", "D- W- S+ 0"])
    {
        assert_eq!(rt; shown(alloc, disjunct)?.as_str(), want);
    }
    let empty = expanded(alloc, Expr::Empty)?;
    assert_eq!(rt; empty.items().len(), 1);
    for disjunct in empty.items() {
        assert_eq!(rt; shown(alloc, disjunct)?.as_str(), "0");
    }
    Ok(())
}

// A connector in as many brackets as a formula may have
#[test]
fn costs_of_brackets_add_up(rt: HostRuntime) -> Result<(), Fail> {
    let alloc = rt.alloc();
    let mut e = leaf(b"A", false, true)?;
    for _ in 0..602 {
        e = bracketed(alloc, e)?;
    }
    let disjuncts = expanded(alloc, e)?;
    assert_eq!(rt; disjuncts.items().len(), 1);
    for disjunct in disjuncts.items() {
        assert_eq!(rt; shown(alloc, disjunct)?.as_str(), "A+ 602000");
    }
    Ok(())
}

// So many factors of ten alternatives each, all of other names.
fn factors(alloc: Global, count: u8) -> Result<Vec<Expr>, Fail> {
    let mut members = Vec::new(alloc);
    for factor in 0..count.min(26) {
        let mut alternatives = Vec::new(alloc);
        for alternative in 0..10u8 {
            let caps = [b'A' + factor, b'A' + alternative];
            alternatives.push(leaf(&caps, false, true)?)?;
        }
        members.push(Expr::Or(Exprs::of(alternatives)))?;
    }
    Ok(members)
}

#[test]
fn many_choices(rt: HostRuntime) -> Result<(), Fail> {
    let alloc = rt.alloc();
    let disjuncts = expanded(alloc, Expr::And(Exprs::of(factors(alloc, 4)?)))?;
    assert_eq!(rt; disjuncts.items().len(), 10_000);
    Ok(())
}

// Twelve factors of ten alternatives and one of none have no choice, and their products are not made.
#[test]
fn no_choice(rt: HostRuntime) -> Result<(), Fail> {
    let alloc = rt.alloc();
    let mut members = factors(alloc, 12)?;
    members.push(Expr::Or(Exprs::of(Vec::new(alloc))))?;
    let none = Expr::And(Exprs::of(members));
    let disjuncts = expanded(alloc, either(alloc, none, leaf(b"A", false, false)?)?)?;
    assert_eq!(rt; disjuncts.items().len(), 1);
    Ok(())
}
