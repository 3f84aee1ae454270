use lg_knowread::{KnowError, Pattern, Rule, exactly_one_knowledge, read_knowledge};
use std::alloc::Global;

/// A rule, its patterns by their number.
#[derive(Clone, Copy, Debug, PartialEq, Eq)]
enum Shape {
    Forbid(bool, usize),
    Demand(bool, usize),
    Bounded(u8),
    Cycle,
}

fn shape_of(rule: &Rule) -> Shape {
    match rule {
        Rule::Forbid {
            grouped,
            others,
            ..
        } => Shape::Forbid(*grouped, others.items().len()),
        Rule::Demand {
            grouped,
            others,
            ..
        } => Shape::Demand(*grouped, others.items().len()),
        Rule::Bounded { kind } => Shape::Bounded(*kind),
        Rule::Cycle { .. } => Shape::Cycle,
    }
}

fn is_written(pattern: &Pattern, caps: &[u8], subs: &[u8]) -> bool {
    pattern.caps.bytes() == caps && pattern.subs.bytes() == subs
}

#[test]
fn domains_and_ignored_links_are_read(rt: HostRuntime) {
    exactly_one_knowledge();
    let text = b"\xEF\xBB\xBF% none: A {B};\nstart: s S SI*b; ignore: D O*; start:e C;";
    match read_knowledge(rt.alloc(), text) {
        Ok(knowledge) => {
            let kinds = [b's', b's', b'e'];
            assert_eq!(rt; knowledge.starts.items().len(), kinds.len());
            for (start, kind) in knowledge.starts.items().iter().zip(kinds) {
                assert_eq!(rt; start.kind, kind);
            }
            assert!(rt; is_written(&knowledge.starts.items()[1].pattern, b"SI", b"*b"));
            assert_eq!(rt; knowledge.ignored.items().len(), 2);
            assert!(rt; is_written(&knowledge.ignored.items()[1], b"O", b"*"));
            assert!(rt; knowledge.rules.items().is_empty());
        }
        Err(error) => panic!(rt; "{error}"),
    }
}

#[test]
fn rules_are_read_in_their_order(rt: HostRuntime) {
    let text =
        b"one: A{B}; none: A {B Cd}; one-in-group: A { B B B }; none-in-group: A { B };\nbounded:z;cycle: R*;";
    let want = [
        Shape::Demand(false, 1),
        Shape::Forbid(false, 2),
        Shape::Demand(true, 3),
        Shape::Forbid(true, 1),
        Shape::Bounded(b'z'),
        Shape::Cycle,
    ];
    match read_knowledge(rt.alloc(), text) {
        Ok(knowledge) => {
            assert_eq!(rt; knowledge.rules.items().len(), want.len());
            for (rule, shape) in knowledge.rules.items().iter().zip(want) {
                assert_eq!(rt; shape_of(rule), shape);
            }
        }
        Err(error) => panic!(rt; "{error}"),
    }
}

/// The first fault of a text.
fn fault_of(alloc: Global, text: &[u8]) -> Option<KnowError> {
    match read_knowledge(alloc, text) {
        Ok(_) => None,
        Err(error) => Some(error),
    }
}

#[test]
fn the_first_fault_is_told(rt: HostRuntime) {
    let table = [
        (b"".as_slice(), None),
        (b"\xEF\xBB\xBFignore C;", Some(KnowError::Syntax(1, 8))),
        (b"end: C;", Some(KnowError::UnknownSection(1))),
        (b"cycle: R;\n;", Some(KnowError::UnknownSection(2))),
        (b"cycle:\n\nr;", Some(KnowError::BadPattern(3))),
        (b"ignore: \"A\";", Some(KnowError::BadPattern(1))),
        (b"ignore: ABCDEFGHIJKLMNOP;", None),
        (
            b"ignore: ABCDEFGHIJKLMNOPq;",
            Some(KnowError::BadPattern(1)),
        ),
        (b"start: S S;", Some(KnowError::BadType(1))),
        (b"start: {", Some(KnowError::Syntax(1, 8))),
        (b"bounded: ss;", Some(KnowError::BadType(1))),
        (b"none: A {};", Some(KnowError::Syntax(1, 10))),
        (b"one: A B;", Some(KnowError::Syntax(1, 8))),
        (b"ignore: A\xFF;", Some(KnowError::NotUtf8(9))),
    ];
    for (text, want) in table {
        assert_eq!(rt; fault_of(rt.alloc(), text), want);
    }
}

#[test]
fn knowledge_readers_faults(rt: HostRuntime) {
    let table = [
        (b"start: e C".as_slice(), KnowError::Syntax(1, 11)),
        (b"some: A;", KnowError::UnknownSection(1)),
        (b"none: a { B };", KnowError::BadPattern(1)),
        (b"bounded: E;", KnowError::BadType(1)),
    ];
    for (text, want) in table {
        assert_eq!(rt; fault_of(rt.alloc(), text), Some(want));
    }
}
