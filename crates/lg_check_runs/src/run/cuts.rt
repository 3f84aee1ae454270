//! Three texts, each cut after every byte of it: the run is answered, or the cut text is refused with one line on it.
use super::*;

// Whether there is one line, which begins so.
fn is_line(bytes: &[u8], front: &[u8]) -> bool {
    match bytes.split_last() {
        Some((last, line)) => {
            *last == b'\n' && !line.contains(&b'\n') && bytes.starts_with(front)
        }
        None => false,
    }
}

// Whether the inputs are accepted. Else nothing but one line on the file of this name is written.
fn is_accepted<R: Abort + Threads + Sync>(
    rt: &R,
    alloc: Global,
    files: &mut MemFiles,
    name: &str,
    words: &[String],
) -> Result<bool, Fail> {
    let mut out = MemSink::new(alloc, ROOM)?;
    let mut err = MemSink::new(alloc, ROOM)?;
    let status = run(rt, alloc, words, files, &mut out, &mut err, &FreeGate);
    if status == Status::Done {
        assert!(rt; err.bytes().is_empty());
        return Ok(true);
    }
    let front = format!(in alloc; "lgparse: {name}: line ")?;
    assert_eq!(rt; status, Status::BadInput);
    assert!(rt; out.bytes().is_empty());
    assert!(rt; is_line(err.bytes(), front.as_bytes()));
    Ok(false)
}

// How many of the texts are accepted that are left where the file of this name ends behind each byte of its text, or before it.
fn accepted<R: Abort + Threads + Sync>(
    rt: &R,
    alloc: Global,
    files: &mut MemFiles,
    name: &str,
    text: &[u8],
    words: &[String],
) -> Result<u64, Fail> {
    let mut count = 0u64;
    for end in 0..text.len() + 1 {
        files.add(name, &text[..end])?;
        if is_accepted(rt, alloc, files, name, words)? {
            count = count.saturating_add(1);
        }
    }
    Ok(count)
}

// It may end before its first entry, behind each of its six, and behind the blanks between them.
#[test]
fn a_dictionary_is_cut(rt: HostRuntime) -> Result<(), Fail> {
    let dictionary =
        "LEFT-WALL: Wd+ & {Xp+}; the: D+; big: A+; cat.n: {@A-} & D- & Wd- & S+; ran.v: S-; \".\": Xp-;";
    let alloc = rt.alloc();
    let words = one(alloc, "The big cat ran.")?;
    let mut files = MemFiles::new(alloc);
    let count = accepted(&rt, alloc, &mut files, "d", dictionary.as_bytes(), &words)?;
    assert_eq!(rt; count, 12);
    Ok(())
}

// It may end before its one statement and behind it.
#[test]
fn a_knowledge_file_is_cut(rt: HostRuntime) -> Result<(), Fail> {
    let alloc = rt.alloc();
    let dictionary = "x: (A+ & B+) or [C+ & B+]; y: A- or C-; z: B-;";
    let words = words_of(alloc, "run|d|k|s1")?;
    let mut files = files_of(alloc, dictionary, "", b"parse x y z\n")?;
    let count = accepted(&rt, alloc, &mut files, "k", b"none: A { B };", &words)?;
    assert_eq!(rt; count, 2);
    Ok(())
}

// It may end before its first line; within either sentence, which has six places for that; at the end of the edit and of `more`, with the end of
// the line or without.
#[test]
fn a_script_is_cut(rt: HostRuntime) -> Result<(), Fail> {
    let alloc = rt.alloc();
    let words = words_of(alloc, "run|d|k|s1")?;
    let mut files = files_of(alloc, "x: B+; y: A- or B-;", "", b"")?;
    let script = b"parse x y\nset x: A+;\nparse x y\nmore\n";
    let count = accepted(&rt, alloc, &mut files, "s1", script, &words)?;
    assert_eq!(rt; count, 17);
    Ok(())
}
