use lg_expr::{
    Fault, Known, Macros, Part, Progress, Refusal, State, exactly_one, expressions_fit, part_of,
    parts_are_written, step,
};
use lg_gram::RawExpr;
use lg_lex::{Marks, Token, next_token};
use std::alloc::Global;

/// Of every macro the same is known.
#[derive(Drop)]
struct Every(Known);

impl Macros for Every {
    ghost known = { λ every _. every.0 };

    fn known(&self, _name: &[u8]) -> Known {
        self.0
    }
}

/// The expression of a text and its level, or the number of tokens before the fault.
fn read(
    alloc: Global,
    macros: &Every,
    limit: u32,
    text: &[u8],
) -> Result<(RawExpr, u32), (usize, Refusal)> {
    let mut state = State::start(alloc);
    let mut count = 0;
    let mut from = 0;
    while let Some(found) = next_token(Marks::Dictionary, text, from) {
        match step(alloc, macros, limit, state, &part_of(&found.token)) {
            Ok(Progress::Goes(next)) => state = next,
            Ok(Progress::Done(e, level)) => return Ok((e, level)),
            Err(refusal) => return Err((count, refusal)),
        }
        count += 1;
        from = found.end;
    }
    Err((count, Refusal::Fault(Fault::Syntax)))
}

/// The root of an expression: how many members it has, its cost, or the depth of a macro.
#[derive(Clone, Copy, Debug, PartialEq, Eq)]
enum Root {
    Empty,
    Conn,
    Named(u32),
    And(usize),
    Or(usize),
    Priced(i64),
}

fn root_of(e: &RawExpr) -> Root {
    match e {
        RawExpr::Empty => Root::Empty,
        RawExpr::Conn(_) => Root::Conn,
        RawExpr::Named(_, depth) => Root::Named(*depth),
        RawExpr::And(members) => Root::And(members.items().len()),
        RawExpr::Or(members) => Root::Or(members.items().len()),
        RawExpr::Priced(_, cost) => Root::Priced(cost.thousandths()),
    }
}

#[test]
fn expressions_are_read(rt: HostRuntime) {
    let table = [
        (b"A+;".as_slice(), Root::Conn, 0),
        (b"A+ & B- or C+;", Root::Or(2), 0),
        (b"A+ | B- and C+ or D-;", Root::Or(3), 0),
        (b"A+ & (B- or C+);", Root::And(2), 1),
        (b"((A+));", Root::Conn, 2),
        (b"();", Root::Empty, 1),
        (b"{A+};", Root::Or(2), 1),
        (b"[A+];", Root::Priced(1000), 1),
        (b"[[A+]]0.5;", Root::Priced(500), 2),
        (b"[A+]-0.5;", Root::Priced(-500), 1),
        (b"[A+]-0;", Root::Priced(0), 1),
        (b"[{A+}].25 & <m>;", Root::And(2), 2),
        (b"(((<m>)));", Root::Named(3), 3),
    ];
    for (text, want, level) in table {
        match read(rt.alloc(), &Every(Known::Leveled(196)), 200, text) {
            Ok((e, n)) => assert_eq!(rt; (root_of(&e), n), (want, level)),
            Err((count, refusal)) => panic!(rt; "{refusal:?} at {count}"),
        }
    }
}

#[test]
fn the_first_fault_is_found(rt: HostRuntime) {
    let table = [
        (b"A+".as_slice(), 1, Fault::Syntax),
        (b"A+ &;", 2, Fault::Syntax),
        (b"A+ B-;", 1, Fault::Syntax),
        (b"{};", 1, Fault::Syntax),
        (b"(A+};", 2, Fault::Syntax),
        (b"\"A+\";", 0, Fault::Syntax),
        (b"<>;", 0, Fault::Syntax),
        (b"A+ 5;", 1, Fault::Syntax),
        (b"[A+]x;", 3, Fault::Syntax),
        (b"[A+]-;", 3, Fault::CostForm),
        (b"[A+]--1;", 3, Fault::CostForm),
        (b"[A+]-10000.001;", 3, Fault::CostForm),
        (b"[A+]10000.001;", 3, Fault::CostForm),
        (b"A+ <m>;", 1, Fault::Syntax),
        (b"A+ & <m>;", 2, Fault::UnknownMacro),
        (b"{[()]};", 2, Fault::TooDeep),
    ];
    for (text, want, fault) in table {
        match read(rt.alloc(), &Every(Known::Unknown), 2, text) {
            Ok(_) => panic!(rt; "no fault"),
            Err(found) => assert_eq!(rt; found, (want, Refusal::Fault(fault))),
        }
    }
}

#[test]
fn macros_count_as_a_bracket(rt: HostRuntime) {
    let table = [
        (Known::Leveled(0), b"(<m>);".as_slice(), true),
        (Known::Leveled(1), b"(<m>);", false),
        (Known::Leveled(1), b"<m>;", true),
        (Known::Free, b"((<m>));", true),
    ];
    for (known, text, want) in table {
        match read(rt.alloc(), &Every(known), 2, text) {
            Ok(_) => assert!(rt; want),
            Err((_, refusal)) => assert_eq!(rt;
                (want, refusal),
                (false, Refusal::Fault(Fault::TooDeep))
            ),
        }
    }
}

#[test]
fn words_are_connectors(rt: HostRuntime) {
    exactly_one();
    parts_are_written();
    expressions_fit();
    let table = [
        (b"S+".as_slice(), Some((false, true, 0))),
        (b"@MVp-", Some((true, false, 1))),
        (b"S**b*+", Some((false, true, 3))),
        (b"S*+", Some((false, true, 0))),
        (b"ABCDEFGHIJKLMNOP+", Some((false, true, 0))),
        (b"ABCDEFGHIJKLMNOPq+", None),
        (b"Sa", None),
        (b"@+", None),
        (b"SaS+", None),
        (b"s+", None),
    ];
    for (word, want) in table {
        match part_of(&Token::Plain(word)) {
            Part::Connector(c) => {
                assert_eq!(rt; Some((c.is_multi(), c.is_right(), c.subs().len())), want);
            }
            _ => assert_eq!(rt; None, want),
        }
    }
}
