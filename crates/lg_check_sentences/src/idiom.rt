//! Idioms over sentences, by hand: each position after a `/`, with the words that are added there and their formulas.
use crate::token::{dictionary_of, one_leaf};
use lg_base::{Cost, write_bytes};
use lg_dict::View;
use lg_eprune::{PositionExprs, WordExpr, WordExprs};
use lg_gram::{Connector, Expr, Exprs, Tokens};
use lg_idiom::idioms;
use lg_token::tokens;
use std::alloc::Global;
use std::process::Abort;
use std::test::Fail;

// Wants these idioms in a dictionary whose words all have the formula `A+`.
fn expect(
    rt: &impl Abort,
    alloc: Global,
    words: &str,
    sentence: &str,
    want: &str,
) -> Result<(), Fail> {
    expect_with(rt, alloc, one_leaf()?, words, sentence, want)
}

// The same in one whose words all have this formula.
fn expect_with(
    rt: &impl Abort,
    alloc: Global,
    formula: Expr,
    words: &str,
    sentence: &str,
    want: &str,
) -> Result<(), Fail> {
    let dict = dictionary_of(alloc, words.as_bytes(), formula)?;
    let view = View::of(alloc, &dict);
    expect_in(rt, alloc, &view, sentence, want)
}

fn expect_in(
    rt: &impl Abort,
    alloc: Global,
    view: &View,
    sentence: &str,
    want: &str,
) -> Result<(), Fail> {
    assert!(rt; sentence.len() < 1000);
    let tokens = tokens(alloc, view, sentence)?;
    let found = found_in(rt, alloc, view, &tokens)?;
    assert!(rt; found.as_slice() == want.as_bytes(), "{sentence}");
    Ok(())
}

fn found_in(rt: &impl Abort, alloc: Global, view: &View, tokens: &Tokens) -> Result<Vec<u8>, Fail> {
    assert!(rt; tokens.items().len() <= 252);
    let positions = idioms(alloc, view, tokens)?;
    shown(&positions, Vec::new(alloc))
}

fn shown(positions: &PositionExprs, mut out: Vec<u8>) -> Result<Vec<u8>, Fail> {
    for words in positions.items() {
        write_bytes(&mut out, b"/")?;
        show_words(&mut out, words)?;
    }
    Ok(out)
}

fn show_words(out: &mut Vec<u8>, words: &WordExprs) -> Result<(), Fail> {
    for word in words.items() {
        show_word(out, word)?;
    }
    Ok(())
}

fn show_word(out: &mut Vec<u8>, word: &WordExpr) -> Result<(), Fail> {
    write_bytes(out, word.word.bytes())?;
    match word.formula.expr() {
        Expr::And(members) => show_members(out, members)?,
        other => show_member(out, other)?,
    }
    write_bytes(out, b";")?;
    Ok(())
}

fn show_members(out: &mut Vec<u8>, members: &Exprs) -> Result<(), Fail> {
    for member in members.items() {
        show_member(out, member)?;
    }
    Ok(())
}

fn show_member(out: &mut Vec<u8>, member: &Expr) -> Result<(), Fail> {
    write_bytes(out, b" ")?;
    if let Expr::Conn(connector) = member {
        show_connector(out, connector)
    } else {
        write_bytes(out, b"()")?;
        Ok(())
    }
}

fn show_connector(out: &mut Vec<u8>, connector: &Connector) -> Result<(), Fail> {
    write_bytes(out, connector.caps())?;
    write_bytes(out, if connector.is_right() { b"+" } else { b"-" })?;
    Ok(())
}

#[test]
fn an_idiom_stands_over_its_parts(rt: HostRuntime) -> Result<(), Fail> {
    let alloc = rt.alloc();
    expect(
        &rt,
        alloc,
        "New_York",
        "New York",
        "/New_York id0.0.0+;/New_York id0.0.0- A+;",
    )?;
    expect(
        &rt,
        alloc,
        "in_front_of",
        "he sat in front of it",
        "///in_front_of id0.2.0+;/in_front_of id0.2.0- id0.2.1+;/in_front_of id0.2.1- A+;/",
    )?;
    expect(
        &rt,
        alloc,
        "a_a",
        "a a a",
        "/a_a id0.0.0+;/a_a id0.0.0- A+;a_a id0.1.0+;/a_a id0.1.0- A+;",
    )
}

#[test]
fn a_word_with_an_empty_part_is_none(rt: HostRuntime) -> Result<(), Fail> {
    let alloc = rt.alloc();
    expect(&rt, alloc, "a_ _a a__b _ __", "a b _ a", "////")?;
    expect(&rt, alloc, "a a_b", "b a", "//")
}

#[test]
fn the_first_token_may_be_lowered(rt: HostRuntime) -> Result<(), Fail> {
    let alloc = rt.alloc();
    expect(
        &rt,
        alloc,
        "in_front In_front",
        "In front",
        "/In_front id0.0.0+;in_front id1.0.0+;/In_front id0.0.0- A+;in_front id1.0.0- A+;",
    )?;
    expect(&rt, alloc, "in_front", "so In front", "///")?;
    expect(&rt, alloc, "in_front", "In Front", "//")?;
    expect(
        &rt,
        alloc,
        "LEFT-WALL in_front",
        "In front",
        "//in_front id0.1.0+;/in_front id0.1.0- A+;",
    )
}

#[test]
fn a_wall_is_no_part(rt: HostRuntime) -> Result<(), Fail> {
    expect(
        &rt,
        rt.alloc(),
        "LEFT-WALL RIGHT-WALL LEFT-WALL_a a_RIGHT-WALL",
        "a",
        "///",
    )
}

#[test]
fn idioms_may_lie_in_one_another(rt: HostRuntime) -> Result<(), Fail> {
    let alloc = rt.alloc();
    expect(
        &rt,
        alloc,
        "in_front in_front_of front_of",
        "in front of",
        "/in_front id0.0.0+;in_front_of id1.0.0+;/front_of id0.1.0+;in_front id0.0.0- A+;in_front_of id1.0.0- id1.0.1+;/front_of id0.1.0- A+;in_front_of id1.0.1- A+;",
    )?;
    expect(
        &rt,
        alloc,
        "a_b.y a_b.x a_b",
        "a b",
        "/a_b id0.0.0+;a_b.x id1.0.0+;a_b.y id2.0.0+;/a_b id0.0.0- A+;a_b.x id1.0.0- A+;a_b.y id2.0.0- A+;",
    )
}

// A connector in so many brackets.
fn bracketed(alloc: Global, count: usize) -> Result<Expr, Fail> {
    let mut inner = one_leaf()?;
    for _ in 0..count {
        inner = Expr::Priced(Box::new(alloc, inner)?, Cost::of(0));
    }
    Ok(inner)
}

#[test]
fn a_formula_past_a_limit_is_left_out(rt: HostRuntime) -> Result<(), Fail> {
    let alloc = rt.alloc();
    expect_with(
        &rt,
        alloc,
        bracketed(alloc, 601)?,
        "a_b",
        "a b",
        "/a_b id0.0.0+;/a_b id0.0.0- ();",
    )?;
    expect_with(&rt, alloc, bracketed(alloc, 602)?, "a_b", "a b", "//")
}

// A formula of 1,000,000 choices: six factors of ten alternatives each.
fn million(alloc: Global) -> Result<Expr, Fail> {
    let mut factors = Vec::new(alloc);
    for _ in 0..6 {
        factors.push(Expr::Or(Exprs::of(ten_leaves(alloc)?)))?;
    }
    Ok(Expr::And(Exprs::of(factors)))
}

fn ten_leaves(alloc: Global) -> Result<Vec<Expr>, Fail> {
    let mut leaves = Vec::new(alloc);
    for _ in 0..10 {
        leaves.push(one_leaf()?)?;
    }
    Ok(leaves)
}

// Three have 3,000,003 choices, and the fourth would pass 4,000,000.
#[test]
fn idioms_past_the_choices_are_left_out(rt: HostRuntime) -> Result<(), Fail> {
    let alloc = rt.alloc();
    expect_with(
        &rt,
        alloc,
        million(alloc)?,
        "a_b",
        "a b a b a b a b",
        "/a_b id0.0.0+;/a_b id0.0.0- ();/a_b id0.2.0+;/a_b id0.2.0- ();/a_b id0.4.0+;/a_b id0.4.0- ();//",
    )
}
