//! Inputs at a limit, which are accepted, and one past it.
use super::*;

// The page of a word that the dictionary does not have.
const UNLINKED: &str = "\
linkage 1 unused 1 cost 0.000 length 0
word 0 z null
page shown 1 examined 1 next 2 end
";

// Wants this dictionary to be read.
fn is_read<R: Abort + Threads + Sync>(rt: &R, alloc: Global, text: &[u8]) -> Result<(), Fail> {
    let files = dictionary_of(alloc, text)?;
    let words = one(alloc, "z")?;
    expect(rt, alloc, files, &words, Status::Done, UNLINKED, "")
}

// Wants this dictionary to be refused with this line.
fn is_refused<R: Abort + Threads + Sync>(
    rt: &R,
    alloc: Global,
    text: &[u8],
    line: &str,
) -> Result<(), Fail> {
    let files = dictionary_of(alloc, text)?;
    refuses(rt, alloc, files, Status::BadInput, line)
}

// An entry of a connector in so many brackets.
fn nested(alloc: Global, count: usize) -> Result<Vec<u8>, Fail> {
    let opened = made(alloc, b"x: ", b"(", count, b"A+")?;
    made(alloc, &opened, b")", count, b";")
}

#[test]
fn two_hundred_brackets(rt: HostRuntime) -> Result<(), Fail> {
    let alloc = rt.alloc();
    is_read(&rt, alloc, &nested(alloc, 200)?)?;
    let line = "lgparse: d: line 1: too deep\n";
    is_refused(&rt, alloc, &nested(alloc, 201)?, line)
}

#[test]
fn connectors_of_a_side(rt: HostRuntime) -> Result<(), Fail> {
    let alloc = rt.alloc();
    is_read(&rt, alloc, &made(alloc, b"x: A+", b" & A+", 254, b";")?)?;
    let text = made(alloc, b"x: A+", b" & A+", 255, b";")?;
    let line = "lgparse: d: line 1: too many connectors on a side 256\n";
    is_refused(&rt, alloc, &text, line)
}

#[test]
fn a_million_nodes(rt: HostRuntime) -> Result<(), Fail> {
    let alloc = rt.alloc();
    let text = made(alloc, b"x: A+", b" or A+", 999_998, b";")?;
    is_read(&rt, alloc, &text)?;
    let text = made(alloc, b"x: A+", b" or A+", 999_999, b";")?;
    let line = "lgparse: d: line 1: too many nodes 1000001\n";
    is_refused(&rt, alloc, &text, line)
}

#[test]
fn connector_of_16_letters(rt: HostRuntime) -> Result<(), Fail> {
    is_read(&rt, rt.alloc(), b"x: AAAAAAAAAAAAAAAA+;")
}

#[test]
fn dictionary_of_64_mebibytes(rt: HostRuntime) -> Result<(), Fail> {
    let text = made(rt.alloc(), b"", &[b' '; 64], 1 << 20, b"")?;
    is_read(&rt, rt.alloc(), &text)
}

#[test]
fn edits_of_one_script_past_100000(rt: HostRuntime) -> Result<(), Fail> {
    let alloc = rt.alloc();
    let script = made(alloc, b"", b"del x\n", 100_001, b"")?;
    let files = files_of(alloc, "x: A+;", "", &script)?;
    let words = words_of(alloc, "run|d|k|s1")?;
    let line = "lgparse: s1: more than 100000 edits\n";
    expect(&rt, alloc, files, &words, Status::BadInput, "", line)
}

#[test]
fn sixty_four_scripts(rt: HostRuntime) -> Result<(), Fail> {
    let alloc = rt.alloc();
    let files = files_of(alloc, "x: A+;", "", b"")?;
    let mut words = words_of(alloc, "run|d|k")?;
    for _ in 0..64 {
        words.push(String::from_str(alloc, "s1")?)?;
    }
    let document = "journal 0\ndone\n";
    expect(&rt, alloc, files, &words, Status::Done, document, "")
}
