use lg_gram::CommandKind;
use lg_script::{Command, Commands, ScriptError, Scripts, read_script};
use std::alloc::Global;
use std::test::Fail;

/// The first fault of a script.
fn fault_of(alloc: Global, text: &[u8]) -> Option<ScriptError> {
    match read_script(alloc, text) {
        Ok(_) => None,
        Err(error) => Some(error),
    }
}

#[test]
fn the_first_fault_is_told(rt: HostRuntime) {
    let table = [
        (b"list 0 1 x".as_slice(), Some(ScriptError::BadNumber(1))),
        (b"list 1 1000001 x", Some(ScriptError::BadNumber(1))),
        (b"version\nhalt\n", Some(ScriptError::UnknownCommand(2))),
        (b"more x", Some(ScriptError::UnknownCommand(1))),
        (b"set <m>: A+;", Some(ScriptError::BadEdit(1))),
        (b"macro x: A+;", Some(ScriptError::BadEdit(1))),
        (b"del a b", Some(ScriptError::BadEdit(1))),
        (b"more\n\xFF", Some(ScriptError::NotUtf8(5))),
        (b"", None),
    ];
    for (text, want) in table {
        assert_eq!(rt; fault_of(rt.alloc(), text), want);
    }
}

/// The kind of the only command, if there is one only.
fn only_kind(alloc: Global, text: &[u8]) -> Option<CommandKind> {
    match read_script(alloc, text) {
        Ok(commands) => match commands.as_slice() {
            [command] => Some(command.kind()),
            _ => None,
        },
        Err(_) => None,
    }
}

#[test]
fn each_kind_is_read(rt: HostRuntime) {
    let table = [
        (b"parse".as_slice(), CommandKind::Parse),
        (b"list 1 1 x", CommandKind::List),
        (b"more\r\n", CommandKind::More),
        (b"\tset x: A+; ", CommandKind::Set),
        (b"macro <m>: A+;", CommandKind::Macro),
        (b"del <m>", CommandKind::Del),
        (b"\n % c\nversion\n", CommandKind::Version),
    ];
    for (text, kind) in table {
        assert_eq!(rt; only_kind(rt.alloc(), text), Some(kind));
    }
}

#[test]
fn blank_lines_and_comments_are_passed_over(rt: HostRuntime) -> Result<(), Fail> {
    let commands = read_script(rt.alloc(), b"\n \t\r\n% c\n  % parse x\n")
        .ok()
        .ok_or("a script")?;
    assert!(rt; commands.is_empty());
    let scripts = Scripts::of(Vec::new(rt.alloc()));
    assert!(rt; scripts.items().is_empty());
    assert!(rt; scripts.into_items().is_empty());
    let commands = Commands::of(rt.alloc(), commands)?;
    assert!(rt; commands.items().is_empty());
    assert!(rt; commands.into_items().is_empty());
    Ok(())
}

/// Whether a script is one listing of this sentence.
fn is_listing(alloc: Global, text: &[u8], from: u64, want: u64, sentence: &[u8]) -> bool {
    match read_script(alloc, text) {
        Ok(commands) => match commands.as_slice() {
            [Command::List(first, count, words)] => {
                *first == from && *count == want && words.bytes() == sentence
            }
            _ => false,
        },
        Err(_) => false,
    }
}

/// Whether a script is one parse of this sentence.
fn is_parse(alloc: Global, text: &[u8], sentence: &[u8]) -> bool {
    match read_script(alloc, text) {
        Ok(commands) => match commands.as_slice() {
            [Command::Parse(words)] => words.bytes() == sentence,
            _ => false,
        },
        Err(_) => false,
    }
}

#[test]
fn sentences_are_trimmed(rt: HostRuntime) {
    assert!(rt; is_parse(rt.alloc(), b"\xEF\xBB\xBFparse  Mary ran \r\n", b"Mary ran"));
    assert!(rt; is_listing(rt.alloc(), b"list 007 1000000 x y", 7, 1_000_000, b"x y"));
}
