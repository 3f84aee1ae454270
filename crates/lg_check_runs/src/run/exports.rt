//! Texts of versions, and what a version is refused for.
use super::*;

const EDITS: &str = "macro <m>: {B-} & C+;\nset y: <m> or [D+]0.25;\n";

// The files `d` and `s1`.
fn files_with(alloc: Global, dictionary: &str, script: &str) -> Result<MemFiles, Fail> {
    let mut files = dictionary_of(alloc, dictionary.as_bytes())?;
    files.add("s1", script.as_bytes())?;
    Ok(files)
}

// Wants this text for the words, where the files are these.
fn exports<R: Abort + Threads + Sync>(
    rt: &R,
    alloc: Global,
    files: MemFiles,
    words: &str,
    text: &str,
) -> Result<(), Fail> {
    let words = words_of(alloc, words)?;
    expect(rt, alloc, files, &words, Status::Done, text, "")
}

// Wants this line for the words, where the files are these.
fn refuses_version<R: Abort + Threads + Sync>(
    rt: &R,
    alloc: Global,
    files: MemFiles,
    words: &str,
    line: &str,
) -> Result<(), Fail> {
    let words = words_of(alloc, words)?;
    expect(rt, alloc, files, &words, Status::BadInput, "", line)
}

#[test]
fn macros_and_words_after_two_edits(rt: HostRuntime) -> Result<(), Fail> {
    let text = "\
<m>: {B-} & C+;
\"x\": A+;
\"y\": {B-} & C+ or [D+]0.250;
";
    let files = files_with(rt.alloc(), "x: A+;", EDITS)?;
    exports(&rt, rt.alloc(), files, "export|d|s1|2", text)
}

#[test]
fn no_edit(rt: HostRuntime) -> Result<(), Fail> {
    let files = files_with(rt.alloc(), "x: A+;", EDITS)?;
    exports(&rt, rt.alloc(), files, "export|d|s1|0", "\"x\": A+;\n")
}

#[test]
fn more_edits_than_are_accepted(rt: HostRuntime) -> Result<(), Fail> {
    let line = "lgparse: s1: only 2 versions\n";
    let files = files_with(rt.alloc(), "x: A+;", EDITS)?;
    refuses_version(&rt, rt.alloc(), files, "export|d|s1|3", line)
}

#[test]
fn brackets_to_the_level_of_a_macro(rt: HostRuntime) -> Result<(), Fail> {
    let text = "\
<m>: ((A+));
\"x\": () or A+;
";
    let files = files_with(rt.alloc(), "<m>: ((A+)); x: {A+};", "")?;
    exports(&rt, rt.alloc(), files, "export|d|s1|0", text)
}

#[test]
fn a_word_with_a_quote(rt: HostRuntime) -> Result<(), Fail> {
    let line = "lgparse: d: a\"b has a quote\n";
    let mut files = files_with(rt.alloc(), "/w: A+;", "")?;
    files.add("w", b"a\"b")?;
    refuses_version(&rt, rt.alloc(), files, "export|d|s1|0", line)
}

#[test]
fn an_edit_that_is_refused_does_not_count(rt: HostRuntime) -> Result<(), Fail> {
    let files = files_with(rt.alloc(), "x: A+;", "parse x\ndel z\nset x: B-;\ndel x\n")?;
    exports(&rt, rt.alloc(), files, "export|d|s1|001", "\"x\": B-;\n")
}

#[test]
fn words_that_ask_for_no_version(rt: HostRuntime) -> Result<(), Fail> {
    let usage = "lgparse: the words are not a command of this program\n";
    for text in [
        "export|d|s1",
        "export|d|s1|",
        "export|d|s1|100001",
        "export|d|s1|0000001",
        "export|d|s1|-1",
        "export|-d|s1|1",
        "export|d|-s1|1",
        "export|--want=1|d|s1|1",
        "export|d|s1|1|1",
    ] {
        let files = dictionary_of(rt.alloc(), b"x: A+;")?;
        let words = words_of(rt.alloc(), text)?;
        expect(&rt, rt.alloc(), files, &words, Status::Usage, "", usage)?;
    }
    Ok(())
}
