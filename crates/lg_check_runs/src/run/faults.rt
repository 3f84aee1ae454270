//! Reads and writes that fail, one after another.
use super::*;

#[test]
fn each_read_fails(rt: HostRuntime) -> Result<(), Fail> {
    let alloc = rt.alloc();
    let words = words_of(alloc, "run|d|k|s1")?;
    for (read, name) in [(1, "d"), (2, "w"), (3, "k"), (4, "s1")] {
        let mut files = files_of(alloc, "x: A+; /w: B+;", "", b"")?;
        files.add("w", b"")?;
        files.fail_at(read)?;
        let line = format!(in alloc; "lgparse: cannot read {name}\n")?;
        expect(
            &rt,
            alloc,
            files,
            &words,
            Status::ReadFault,
            "",
            line.as_str(),
        )?;
    }
    Ok(())
}

// What is written of each answer, and of the journal.
const PIECES: [&str; 5] = [
    "\
1.1 parse version 0
linkage 1 unused 0 cost 0.000 length 1
word 0 x x - B 0.000
word 1 y y B - 0.000
link 0 1 B 0 0
page shown 1 examined 1 next 2 end
",
    "1.2 set version 1\n",
    "\
1.3 parse version 1
linkage 1 unused 0 cost 0.000 length 1
word 0 x x - A 0.000
word 1 y y A - 0.000
link 0 1 A 0 0
page shown 1 examined 1 next 2 end
",
    "1.4 more version 1\npage shown 0 examined 0 next 2 end\n",
    "journal 1\nedit 1 1.2\ndone\n",
];

// Wants these bytes of the document where the write of this number fails.
fn stops<R: Abort + Threads + Sync>(
    rt: &R,
    alloc: Global,
    number: u64,
    written: &[u8],
) -> Result<(), Fail> {
    let script = b"parse x y\nset x: A+;\nparse x y\nmore\n";
    let mut files = files_of(alloc, "x: B+; y: A- or B-;", "", script)?;
    let words = words_of(alloc, "run|d|k|s1")?;
    let mut out = MemSink::new(alloc, ROOM)?;
    let mut err = MemSink::new(alloc, ROOM)?;
    out.fail_at(number)?;
    let status = run(rt, alloc, &words, &mut files, &mut out, &mut err, &FreeGate);
    assert_eq!(rt; status, Status::WriteFault);
    assert_eq!(rt; out.bytes(), written);
    assert_eq!(rt;
        err.bytes(),
        b"lgparse: cannot write the output\n".as_slice()
    );
    Ok(())
}

// The pieces before are written whole, and of the one at fault what the sink took.
#[test]
fn each_write_fails(rt: HostRuntime) -> Result<(), Fail> {
    let alloc = rt.alloc();
    let mut before = Vec::new(alloc);
    let mut number = 0u64;
    for piece in PIECES {
        let bytes = piece.as_bytes();
        let half = &bytes[..bytes.len() / 2];
        number = number.saturating_add(1);
        let written = made(alloc, &before, half, 1, b"")?;
        stops(&rt, alloc, number, &written)?;
        before.extend_from_slice(bytes)?;
    }
    Ok(())
}

// A fault of standard error changes no status, and leaves a front of the line.
#[test]
fn standard_error_fails(rt: HostRuntime) -> Result<(), Fail> {
    let alloc = rt.alloc();
    let mut files = dictionary_of(alloc, b"x: (A+")?;
    let words = one(alloc, "x")?;
    let mut out = MemSink::new(alloc, ROOM)?;
    let mut err = MemSink::new(alloc, ROOM)?;
    err.fail_at(1)?;
    let status = run(
        &rt, alloc, &words, &mut files, &mut out, &mut err, &FreeGate,
    );
    assert_eq!(rt; status, Status::BadInput);
    assert!(rt; out.bytes().is_empty());
    assert_eq!(rt; err.bytes(), b"lgparse: d: line 1".as_slice());
    Ok(())
}
