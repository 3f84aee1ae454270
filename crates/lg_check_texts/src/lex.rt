use lg_lex::{
    Class, Location, Marks, Separators, Spot, Token, bytes_are_utf8_or_at_fault, class_of,
    location_at, locations_add_up, next_run, next_spotted, next_token, runs_are_one_list,
    section_to, sections_keep_their_tokens, tokens_are_one_list, tokens_are_utf8, utf8_fault,
    without_mark,
};
use std::test::Fail;

#[test]
fn bytes_have_classes(rt: HostRuntime) {
    let table = [
        (b' ', Class::Blank, Class::Blank),
        (b'\n', Class::LineEnd, Class::LineEnd),
        (b'%', Class::Percent, Class::Percent),
        (b'"', Class::Quote, Class::Other),
        (b'(', Class::Sign, Class::Other),
        (b';', Class::Sign, Class::Sign),
        (b'a', Class::Other, Class::Other),
        (0xC3, Class::Other, Class::Other),
    ];
    for (b, in_dictionary, in_knowledge) in table {
        assert_eq!(rt; class_of(Marks::Dictionary, b), in_dictionary, "{b}");
        assert_eq!(rt; class_of(Marks::Knowledge, b), in_knowledge, "{b}");
    }
}

#[test]
fn a_dictionary_entry_is_cut_into_tokens(rt: HostRuntime) -> Result<(), Fail> {
    let text = b"% nouns; \"x\n\"New York\" cat.n: [Ds-]0.5;%";
    let table = [
        (0, 12, 22),
        (22, 23, 28),
        (28, 28, 29),
        (29, 30, 31),
        (31, 31, 34),
        (34, 34, 35),
        (35, 35, 38),
        (38, 38, 39),
    ];
    for (from, start, end) in table {
        assert!(rt; from <= text.len());
        let found = next_token(Marks::Dictionary, text, from).ok_or("a token")?;
        assert_eq!(rt; (found.start, found.end), (start, end));
    }
    assert_eq!(rt; next_token(Marks::Dictionary, text, 39), None);
    Ok(())
}

#[test]
fn tokens_differ_between_the_kinds_of_text(rt: HostRuntime) -> Result<(), Fail> {
    let table = [
        (
            Marks::Dictionary,
            b"\"it is\"x".as_slice(),
            Token::Quoted(b"it is".as_slice()),
        ),
        (Marks::Dictionary, b"\"\"", Token::Broken),
        (Marks::Dictionary, b"\"a\nb\"", Token::Broken),
        (Marks::Dictionary, b" a\"b\"", Token::Plain(b"a")),
        (Marks::Dictionary, b"&", Token::Sign(b'&')),
        (Marks::Knowledge, b"\"a\" b", Token::Plain(b"\"a\"")),
        (Marks::Knowledge, b"(S&)b: c", Token::Plain(b"(S&)b")),
        (Marks::Knowledge, b";", Token::Sign(b';')),
    ];
    for (marks, text, token) in table {
        let found = next_token(marks, text, 0).ok_or("a token")?;
        assert_eq!(rt; found.token, token);
    }
    Ok(())
}

#[test]
fn locations_count_lines_and_bytes(rt: HostRuntime) {
    let text = "é%\r\n\nab".as_bytes();
    let table = [
        (0, 1, 1),
        (2, 1, 3),
        (4, 1, 5),
        (5, 2, 1),
        (6, 3, 1),
        (8, 3, 3),
    ];
    for (index, line, column) in table {
        assert!(rt; index <= text.len());
        assert_eq!(rt; location_at(text, index), Location { line, column });
    }
    let last = Location {
        line: u32::MAX,
        column: u32::MAX,
    };
    assert_eq!(rt; last.past(b"a"), last);
    assert_eq!(rt;
        last.past(b"\na"),
        Location {
            line: u32::MAX,
            column: 2
        }
    );
}

#[test]
fn tokens_have_their_spots(rt: HostRuntime) -> Result<(), Fail> {
    let text = b"% a\n x:".as_slice();
    let word = next_spotted(Marks::Knowledge, text, Spot::START).ok_or("a token")?;
    assert_eq!(rt; (word.start.at, word.end.at), (5, 6));
    assert_eq!(rt; word.start.location, Location { line: 2, column: 2 });
    assert_eq!(rt; word.end.location, Location { line: 2, column: 3 });
    let colon = next_spotted(Marks::Knowledge, text, word.end).ok_or("a token")?;
    assert_eq!(rt; (colon.token, colon.start), (Token::Sign(b':'), word.end));
    assert_eq!(rt; next_spotted(Marks::Knowledge, text, colon.end), None);
    Ok(())
}

#[test]
fn texts_are_utf8_or_have_a_fault(rt: HostRuntime) {
    let table = [
        (b"".as_slice(), None),
        (b"na\xC3\xAFve \xE2\x82\xAC", None),
        (b"\x80", Some(0)),
        (b"ab\xFF", Some(2)),
        (b"a\xE2\x82", Some(1)),
        (b"\xED\xA0\x80", Some(0)),
        (b"\xC3\xA9\xC0\xAF", Some(2)),
    ];
    for (text, fault) in table {
        assert_eq!(rt; utf8_fault(text), fault);
    }
}

#[test]
fn a_byte_order_mark_is_passed_over(rt: HostRuntime) {
    assert_eq!(rt; without_mark(b"\xEF\xBB\xBFa"), b"a".as_slice());
    assert_eq!(rt; without_mark(b"\xEF\xBBa"), b"\xEF\xBBa".as_slice());
    assert_eq!(rt; without_mark(b""), b"".as_slice());
}

#[test]
fn runs_stand_between_separators(rt: HostRuntime) -> Result<(), Fail> {
    let text = b" \tcat.n\r\ndog\x0C";
    let table = [
        (Separators::WhiteSpace, 0, 2, 7),
        (Separators::WhiteSpace, 7, 9, 12),
        (Separators::Blanks, 0, 2, 13),
    ];
    for (separators, from, start, end) in table {
        assert!(rt; from <= text.len());
        let run = next_run(separators, text, from).ok_or("a run")?;
        assert_eq!(rt; (run.start, run.end), (start, end));
    }
    assert_eq!(rt; next_run(Separators::WhiteSpace, text, 12), None);
    Ok(())
}

#[test]
fn laws_do_nothing() {
    tokens_are_one_list();
    tokens_are_utf8();
    runs_are_one_list();
    locations_add_up();
    sections_keep_their_tokens();
    bytes_are_utf8_or_at_fault();
}

#[test]
fn sections_end_in_their_sign(rt: HostRuntime) {
    let text = b"x: A+; y: \"a\" ; % z ;";
    assert!(rt; section_to(Marks::Dictionary, b';', text, 2) == Some(b" A+;".as_slice()));
    assert!(rt; section_to(Marks::Dictionary, b';', text, 9).is_none());
    assert!(rt; section_to(Marks::Knowledge, b';', text, 9) == Some(b" \"a\" ;".as_slice()));
    assert!(rt; section_to(Marks::Dictionary, b';', text, 15).is_none());
    assert!(rt; section_to(Marks::Dictionary, b';', b"A+", 0).is_none());
}
