//! What no clause says: that calls succeed, and texts whose entries or faults are known from elsewhere.
use lg_base::MemFiles;
use lg_dictread::{
    DictError, EntryError, WordFileError, exactly_one_dictionary, exactly_one_entry,
    exactly_one_entry_text, read_dict, read_entry,
};
use lg_gram::{ItemKind, RawExpr, nodes};
use std::alloc::Global;
use std::test::Fail;

#[test]
fn laws_do_nothing() {
    exactly_one_entry();
    exactly_one_entry_text();
    exactly_one_dictionary();
}

/// Some word files.
fn word_files(alloc: Global) -> Result<MemFiles, Fail> {
    let mut files = MemFiles::new(alloc);
    files.add("w", b"\xEF\xBB\xBFp q\n")?;
    files.add("empty", b"")?;
    files.add("twice", b"p\np % \"")?;
    files.add("wrong", b"ab\xFF")?;
    Ok(files)
}

/// How many entries a text has, or its error as it is printed.
fn reading(alloc: Global, text: &[u8]) -> Result<String, Fail> {
    let mut files = word_files(alloc)?;
    match read_dict(alloc, text, &mut files) {
        Ok(entries) => Ok(format!(in alloc; "{}", entries.len())?),
        Err(error) => Ok(format!(in alloc; "{error}")?),
    }
}

#[test]
fn texts_are_read(rt: HostRuntime) -> Result<(), Fail> {
    let table = [
        (b"".as_slice(), "0"),
        (b"\xEF\xBB\xBF% x: A+;\n", "0"),
        (b"<m>: A+; <m2>: <m> or B+; x: <m2>; y: B-;", "4"),
        (b"x: [A+]0.25 or [[A+]].5; y: A-;", "2"),
        (b"/w /empty: A+; y: A-;", "2"),
        (b"/: A+; <>: A+; \":\" \"/gone\" \"<m>\": A+;", "3"),
        (b"a <a>: A+; <b> b: <a>;", "2"),
        (b"a: A+; b: A+; <m>: A+; c: A+; d: <m>; e: <m>;", "6"),
    ];
    for (text, want) in table {
        assert_eq!(rt; reading(rt.alloc(), text)?.as_str(), want);
    }
    Ok(())
}

#[test]
fn the_first_fault_is_told(rt: HostRuntime) -> Result<(), Fail> {
    let table = [
        (b"x: (A+".as_slice(), "line 1 column 7: syntax"),
        (
            b"a: A+;\nb: A+; c: A+\n;\nd: (A+;",
            "line 4 column 7: syntax",
        ),
        (b"\xEF\xBB\xBFx: (A+", "line 1 column 7: syntax"),
        (b"\xC3\xA9: (A+\n\n", "line 3 column 1: syntax"),
        (b"\xC3\xA9: A+) ;", "line 1 column 7: syntax"),
        (b": A+;", "line 1 column 1: syntax"),
        (b"x: A+;\ny", "line 2 column 2: syntax"),
        (b"x: AAAAAAAAAAAAAAAAA+;", "line 1 column 4: syntax"),
        (b"x: \xFFA+;", "byte 3 is not UTF-8"),
        (b"x: [A+]0.2500;", "line 1: cost form"),
        (b"x:\n[A+]10000.001 <m>;", "line 2: cost form"),
        (b"x: <m>; <m>: A+;", "line 1: unknown macro"),
        (b"<m>: {<m>};", "line 1: unknown macro"),
        (b"a: X+;\nb a: Y+;\n", "a word is defined on lines 1 and 2"),
        (
            b"<a>: X+;\n\nb <a>: Y+;",
            "a word is defined on lines 1 and 3",
        ),
        (
            b"a\nb b: X+; /gone: A+;",
            "a word is defined on lines 2 and 2",
        ),
        (b"q:A+;\n\n/w: A+;", "a word is defined on lines 1 and 3"),
        (b"\n/twice: A+;", "a word is defined on lines 2 and 2"),
        (b"x\n/gone: A+;", "line 2: a word file cannot be read"),
        (b"/wrong: A+;", "line 1: a word file is not UTF-8 at byte 2"),
        (b"x /gone x: A+; (", "line 1: a word file cannot be read"),
        (b"x /gone x: A+", "line 1 column 14: syntax"),
    ];
    for (text, want) in table {
        assert_eq!(rt; reading(rt.alloc(), text)?.as_str(), want);
    }
    Ok(())
}

/// A text of so many equal parts between two others.
fn repeated(
    alloc: Global,
    front: &[u8],
    part: &[u8],
    count: usize,
    back: &[u8],
) -> Result<Vec<u8>, Fail> {
    let mut text = Vec::new(alloc);
    text.extend_from_slice(front)?;
    for _ in 0..count {
        text.extend_from_slice(part)?;
    }
    text.extend_from_slice(back)?;
    Ok(text)
}

#[test]
fn limits_are_kept(rt: HostRuntime) -> Result<(), Fail> {
    let alloc = rt.alloc();
    let ten = b"<t>: A+ or A+ or A+ or A+ or A+ or A+ or A+ or A+ or A+ or A+;\nx: ".as_slice();
    let table = [
        (
            b"x: ".as_slice(),
            b"(".as_slice(),
            200,
            b"".as_slice(),
            "line 1 column 204: syntax",
        ),
        (b"x: ", b"(", 201, b"", "line 1: too deep"),
        (
            b"<m>: A+;\nx: ",
            b"[",
            199,
            b"<m>",
            "line 2 column 206: syntax",
        ),
        (b"<m>: A+;\nx: ", b"{", 200, b"<m>", "line 2: too deep"),
        (b"x: A+", b" & A+", 254, b";", "1"),
        (
            b"x: A-",
            b" & A-",
            255,
            b";",
            "line 1: too many connectors on a side 256",
        ),
        (b"x: A+", b" or A+", 999_998, b";", "1"),
        (
            b"x: A+",
            b" or A+",
            999_999,
            b";",
            "line 1: too many nodes 1000001",
        ),
        (ten, b"<t> & ", 5, b"<t>;", "2"),
        (
            ten,
            b"<t> & ",
            6,
            b"<t>;",
            "line 2: too many choices 10000000",
        ),
    ];
    for (front, part, count, back, want) in table {
        let text = repeated(alloc, front, part, count, back)?;
        assert_eq!(rt; reading(alloc, &text)?.as_str(), want);
    }
    Ok(())
}

#[test]
fn an_entry_has_its_parts(rt: HostRuntime) -> Result<(), Fail> {
    let alloc = rt.alloc();
    let text = b"<m>: (A+ & B-);\n% c\nx\n/w <n> \"y z\": [<m>]0.5 or C+;";
    match read_dict(alloc, text, &mut word_files(alloc)?) {
        Ok(entries) => {
            assert_eq!(rt; entries.len(), 2);
            let entry = &entries[1];
            for (word, want) in entry
                .words
                .items()
                .iter()
                .zip([b"x".as_slice(), b"p", b"q", b"y z"])
            {
                assert_eq!(rt; word.bytes(), want);
            }
            assert_eq!(rt; entry.words.items().len(), 4);
            assert_eq!(rt; entry.macros.items().len(), 1);
            assert_eq!(rt; entry.macros.items()[0].bytes(), b"<n>".as_slice());
            assert_eq!(rt; (entry.level, entry.line), (3, 3));
            assert_eq!(rt; nodes(entry.formula.expr()), 6);
        }
        Err(error) => panic!(rt; "{error}"),
    }
    Ok(())
}

// An expression that is recalled has the formula that it was read with, on its own line.
#[test]
fn an_expression_is_recalled(rt: HostRuntime) -> Result<(), Fail> {
    let alloc = rt.alloc();
    match read_dict(
        alloc,
        b"a: {A+} & [B-];\n\nb: {A+} & [B-];",
        &mut MemFiles::new(alloc),
    ) {
        Ok(entries) => {
            assert_eq!(rt; entries.len(), 2);
            assert_eq!(rt; (entries[1].level, entries[1].line), (1, 3));
            assert_eq!(rt; nodes(entries[1].formula.expr()), 6);
        }
        Err(error) => panic!(rt; "{error}"),
    }
    let unended = b"a: {A+} & [B-];\nb: {A+} & [B-]; c: {A+} & [B-]";
    assert_eq!(rt;
        reading(alloc, unended)?.as_str(),
        "line 2 column 31: syntax"
    );
    Ok(())
}

// A read that fails ends the reading, though the file is there.
#[test]
fn a_read_fails(rt: HostRuntime) -> Result<(), Fail> {
    let alloc = rt.alloc();
    let mut files = word_files(alloc)?;
    files.fail_at(2)?;
    match read_dict(alloc, b"/w: A+;\nx /empty\n/wrong: A+;", &mut files) {
        Err(DictError::WordFile(line, name, WordFileError::Failed)) => {
            assert_eq!(rt; (line, name.bytes()), (2, b"empty".as_slice()));
        }
        _ => panic!(rt; "no such error"),
    }
    Ok(())
}

#[test]
fn one_entry_is_read(rt: HostRuntime) {
    match read_entry(rt.alloc(), b"% c\n\"<q>\" <m> /w / :\n((<n>));%") {
        Ok(entry) => {
            let kinds = [
                ItemKind::Word,
                ItemKind::Macro,
                ItemKind::File,
                ItemKind::Word,
            ];
            assert_eq!(rt; entry.items.items().len(), kinds.len());
            for (item, kind) in entry.items.items().iter().zip(kinds) {
                assert_eq!(rt; item.kind, kind);
            }
            assert_eq!(rt; entry.items.items()[2].text.bytes(), b"w".as_slice());
            assert_eq!(rt; (entry.level, entry.line), (2, 2));
            assert!(rt; matches!(entry.expr, RawExpr::Named(_, 2)));
        }
        Err(error) => panic!(rt; "{error}"),
    }
}

// A mark is passed over at the front of a file alone, and an entry is no file.
#[test]
fn a_mark_is_part_of_an_entrys_first_token(rt: HostRuntime) {
    match read_entry(rt.alloc(), b"\xEF\xBB\xBFx y: A+;") {
        Ok(entry) => {
            let names = [b"\xEF\xBB\xBFx".as_slice(), b"y"];
            assert_eq!(rt; entry.items.items().len(), names.len());
            for (item, name) in entry.items.items().iter().zip(names) {
                assert_eq!(rt; item.text.bytes(), name);
            }
        }
        Err(error) => panic!(rt; "{error}"),
    }
}

/// The first fault of a text of one entry.
fn fault_of(alloc: Global, text: &[u8]) -> Option<EntryError> {
    match read_entry(alloc, text) {
        Ok(_) => None,
        Err(error) => Some(error),
    }
}

#[test]
fn the_first_fault_of_an_entry_is_told(rt: HostRuntime) {
    let table = [
        (b"".as_slice(), Some(EntryError::Syntax(1, 1))),
        (b"x: A+;", None),
        (b"x: A+; y", Some(EntryError::Syntax(1, 8))),
        (b"x: A+;;", Some(EntryError::Syntax(1, 7))),
        (b"x\n\"y: A+;", Some(EntryError::Syntax(2, 1))),
        (b"x: [A+]1e3;", Some(EntryError::CostForm(1))),
        (b"x: A+; \xC3", Some(EntryError::NotUtf8(7))),
        (b"a: <b>; c", Some(EntryError::Syntax(1, 9))),
    ];
    for (text, want) in table {
        assert_eq!(rt; fault_of(rt.alloc(), text), want);
    }
}
