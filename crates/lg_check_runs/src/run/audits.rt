//! Audits: of what a run writes, of documents that were changed, and what an audit is refused for.
use super::*;

const DICTIONARY: &str = "w: @A+ & @A+; x: B+; y: A- or B-; z: A-;";

const SCRIPT: &str = "list 1 2 w z z z\nset x: A+;\nparse x y\n";

// The files `d`, `k`, `s1`, and the document in file `o`.
fn files_with(alloc: Global, knowledge: &str, document: &[u8]) -> Result<MemFiles, Fail> {
    let mut files = files_of(alloc, DICTIONARY, knowledge, SCRIPT.as_bytes())?;
    files.add("o", document)?;
    Ok(files)
}

// Wants this line for the audit of the document.
fn audits<R: Abort + Threads + Sync>(
    rt: &R,
    alloc: Global,
    document: &[u8],
    line: &str,
) -> Result<(), Fail> {
    let files = files_with(alloc, "", document)?;
    let words = words_of(alloc, "audit|d|k|o|s1")?;
    expect(rt, alloc, files, &words, Status::Done, line, "")
}

// Wants the audit of what a run of these words writes to find so many linkages.
fn is_right<R: Abort + Threads + Sync>(
    rt: &R,
    alloc: Global,
    words: &str,
    line: &str,
) -> Result<(), Fail> {
    let mut files = files_with(alloc, "", b"")?;
    let words = words_of(alloc, words)?;
    let mut out = MemSink::new(alloc, ROOM)?;
    let mut err = MemSink::new(alloc, ROOM)?;
    let status = run(rt, alloc, &words, &mut files, &mut out, &mut err, &FreeGate);
    assert_eq!(rt; status, Status::Done);
    audits(rt, alloc, out.bytes(), line)
}

#[test]
fn what_a_run_writes(rt: HostRuntime) -> Result<(), Fail> {
    is_right(&rt, rt.alloc(), "run|d|k|s1", "audit yes 3\n")
}

#[test]
fn what_a_run_writes_with_all_lines(rt: HostRuntime) -> Result<(), Fail> {
    let words = "run|--stats=on|--diagram=on|--usage=on|d|k|s1";
    is_right(&rt, rt.alloc(), words, "audit yes 3\n")
}

const HEADING: &str = "unused 0 cost 0.000 length 6
word 0 w w - @A,@A 0.000
word 1 z z A - 0.000
word 2 z z A - 0.000
word 3 z z A - 0.000
";

const TWO_AND_ONE: &str = "link 0 1 A 0 0\nlink 0 2 A 0 0\nlink 0 3 A 1 0\n";

const ONE_AND_TWO: &str = "link 0 1 A 0 0\nlink 0 2 A 1 0\nlink 0 3 A 1 0\n";

const OF_A: &str = "linkage 1 unused 0 cost 0.000 length 1
word 0 x x - A 0.000
word 1 y y A - 0.000
link 0 1 A 0 0
page shown 1 examined 1 next 2 end
";

const JOURNAL: &str = "journal 1\nedit 1 1.2\ndone\n";

// Wants this line for a document with these links of the first two linkages, this version of the last answer, and these last lines.
fn audits_of<R: Abort + Threads + Sync>(
    rt: &R,
    alloc: Global,
    links: (&str, &str),
    version: &str,
    journal: &str,
    line: &str,
) -> Result<(), Fail> {
    let parts = [
        "1.1 list version 0\nlinkage 1 ",
        HEADING,
        links.0,
        "linkage 2 ",
        HEADING,
        links.1,
        "page shown 2 examined 2 next 3 more\n1.2 set version 1\n1.3 parse version ",
        version,
        "\n",
        OF_A,
        journal,
    ];
    let document = all(alloc, &parts)?;
    audits(rt, alloc, document.as_bytes(), line)
}

#[test]
fn a_document_that_is_right(rt: HostRuntime) -> Result<(), Fail> {
    let links = (TWO_AND_ONE, ONE_AND_TWO);
    audits_of(&rt, rt.alloc(), links, "1", JOURNAL, "audit yes 3\n")
}

#[test]
fn two_linkages_that_are_exchanged(rt: HostRuntime) -> Result<(), Fail> {
    let links = (ONE_AND_TWO, TWO_AND_ONE);
    audits_of(&rt, rt.alloc(), links, "1", JOURNAL, "audit no at 1.1\n")
}

#[test]
fn another_version(rt: HostRuntime) -> Result<(), Fail> {
    let links = (TWO_AND_ONE, ONE_AND_TWO);
    audits_of(&rt, rt.alloc(), links, "0", JOURNAL, "audit no at 1.3\n")
}

#[test]
fn an_edit_that_the_journal_lacks(rt: HostRuntime) -> Result<(), Fail> {
    let links = (TWO_AND_ONE, ONE_AND_TWO);
    let journal = "journal 0\ndone\n";
    audits_of(&rt, rt.alloc(), links, "1", journal, "audit no journal\n")
}

#[test]
fn no_journal(rt: HostRuntime) -> Result<(), Fail> {
    let links = (TWO_AND_ONE, ONE_AND_TWO);
    audits_of(&rt, rt.alloc(), links, "1", "done\n", "audit no shape\n")
}

#[test]
fn no_last_line(rt: HostRuntime) -> Result<(), Fail> {
    let links = (TWO_AND_ONE, ONE_AND_TWO);
    let journal = "journal 1\nedit 1 1.2\n";
    audits_of(&rt, rt.alloc(), links, "1", journal, "audit no shape\n")
}

// The files `d`, `k` and `s1`, where the script is none.
fn faulty(alloc: Global, knowledge: &str) -> Result<MemFiles, Fail> {
    files_of(alloc, DICTIONARY, knowledge, b"other\n")
}

#[test]
fn document_past_64_mebibytes(rt: HostRuntime) -> Result<(), Fail> {
    let alloc = rt.alloc();
    let mut files = faulty(alloc, "")?;
    files.add("o", &made(alloc, b"", &[b'\n'; 64], 1 << 20, b"\n")?)?;
    let words = words_of(alloc, "audit|d|k|o|s1")?;
    let line = "lgparse: o is longer than 67108864 bytes\n";
    expect(&rt, alloc, files, &words, Status::BadInput, "", line)
}

#[test]
fn knowledge_before_the_document(rt: HostRuntime) -> Result<(), Fail> {
    let alloc = rt.alloc();
    let files = faulty(alloc, "other: A;")?;
    let words = words_of(alloc, "audit|d|k|o|s1")?;
    let line = "lgparse: k: line 1: unknown section\n";
    expect(&rt, alloc, files, &words, Status::BadInput, "", line)
}

#[test]
fn missing_document(rt: HostRuntime) -> Result<(), Fail> {
    let alloc = rt.alloc();
    let files = faulty(alloc, "")?;
    let words = words_of(alloc, "audit|d|k|o|s1")?;
    let line = "lgparse: cannot read o\n";
    expect(&rt, alloc, files, &words, Status::ReadFault, "", line)
}

#[test]
fn words_that_ask_for_no_audit(rt: HostRuntime) -> Result<(), Fail> {
    let usage = "lgparse: the words are not a command of this program\n";
    for text in [
        "audit|d|k|o",
        "audit|-d|k|o|s1",
        "audit|d|k|-o|s1",
        "audit|d|k|o|s1|-s1",
        "audit|--stats=on|d|k|o|s1",
    ] {
        let files = dictionary_of(rt.alloc(), b"x: A+;")?;
        let words = words_of(rt.alloc(), text)?;
        expect(&rt, rt.alloc(), files, &words, Status::Usage, "", usage)?;
    }
    Ok(())
}
