//! What no clause says: that calls succeed, outside values of printed and read numbers, and faults in mid-stream.
use lg_base::*;
use std::fs;
use std::io::Write;
use std::test::Fail;

#[test]
fn files_in_memory(rt: HostRuntime) -> Result<(), Fail> {
    let alloc = rt.alloc();
    let mut files = MemFiles::new(alloc);
    files.add("d", b"old")?;
    files.add("d", b"a: X+;")?;
    files.fail_at(5)?;
    let bytes = files.read_all(alloc, "d", 6)?;
    assert_eq!(rt; bytes.as_slice(), b"a: X+;".as_slice());
    assert_eq!(rt;
        files.read_all(alloc, "d", 5).err(),
        Some(FileError::TooLong)
    );
    assert_eq!(rt;
        files.read_all(alloc, "k", 6).err(),
        Some(FileError::Failed)
    );
    assert_eq!(rt; files.read_all(alloc, "d", 6).err(), None);
    assert_eq!(rt;
        files.read_all(alloc, "d", 6).err(),
        Some(FileError::Failed),
        "listed"
    );
    assert_eq!(rt; files.read_all(alloc, "d", 6).err(), None, "after it");
    Ok(())
}

#[test]
fn sink_in_memory(rt: HostRuntime) -> Result<(), Fail> {
    let mut sink = MemSink::new(rt.alloc(), 12)?;
    sink.fail_at(2)?;
    assert_eq!(rt; sink.put(b"reply "), Ok(()));
    assert_eq!(rt; sink.put(b""), Ok(()), "it has no number");
    assert_eq!(rt; sink.put(b"journal"), Err(SinkFault), "listed");
    assert_eq!(rt; sink.bytes(), b"reply jou".as_slice());
    assert_eq!(rt; sink.put(b"done"), Err(SinkFault), "no room");
    assert_eq!(rt; sink.bytes(), b"reply joudon".as_slice());
    Ok(())
}

#[test]
fn host(rt: HostRuntime) -> Result<(), Fail> {
    let alloc = rt.alloc();
    let mut files = HostFiles::new(&rt, alloc);
    let bytes = files.read_all(alloc, "/dev/null", 0)?;
    assert_eq!(rt; bytes.len(), 0);
    assert_eq!(rt;
        files.read_all(alloc, "/dev/zero", 9000).err(),
        Some(FileError::TooLong),
        "endless"
    );
    assert_eq!(rt;
        files.read_all(alloc, "no such file", 9).err(),
        Some(FileError::Failed)
    );
    assert_eq!(rt; HostSink::output(&rt).put(b"\n"), Ok(()));
    assert_eq!(rt; HostSink::errors(&rt).put(b"\n"), Ok(()));
    Ok(())
}

// Printed numbers and costs, counted by hand.
#[test]
fn printed(rt: HostRuntime) -> Result<(), Fail> {
    let alloc = rt.alloc();
    for (cost, want) in [
        (0, "0.000"),
        (1, "0.001"),
        (-25, "-0.025"),
        (-500, "-0.500"),
        (1000, "1.000"),
        (10_000_000, "10000.000"),
        (-10_000_000_000_000_000, "-10000000000000.000"),
    ] {
        let mut text = Vec::new(alloc);
        write_cost(&mut text, Cost::of(cost))?;
        assert_eq!(rt; text.as_slice(), want.as_bytes());
    }
    let mut text = Vec::new(alloc);
    write_bytes(&mut text, b"page ")?;
    write_number(&mut text, 18_446_744_073_709_551_615)?;
    assert_eq!(rt; text.as_slice(), b"page 18446744073709551615".as_slice());
    Ok(())
}

// Cost numbers, and texts that are none.
#[test]
fn read(rt: HostRuntime) {
    for (text, want) in [
        ("0", 0),
        ("00007", 7000),
        ("0.25", 250),
        (".5", 500),
        ("12.034", 12_034),
        ("10000", 10_000_000),
        ("10000.000", 10_000_000),
        ("-0.5", -500),
        ("-0", 0),
        ("-.25", -250),
    ] {
        let cost = parse_cost(text.as_bytes()).map(|cost| cost.thousandths());
        assert_eq!(rt; cost, Some(want), "{text}");
    }
    for text in [
        "",
        ".",
        "1.",
        "0.2500",
        "100000",
        "10000.001",
        "-",
        "--1",
        "-10000.001",
        "+1",
        "1.2.3",
        "1e3",
        " 1",
    ] {
        assert_eq!(rt; parse_cost(text.as_bytes()), None, "{text}");
    }
}

#[test]
fn values(rt: HostRuntime) -> Result<(), Fail> {
    let alloc = rt.alloc();
    assert_eq!(rt; Cost::of(250).plus(Cost::of(-1250)).thousandths(), -1000);
    let mut steps = Steps::start();
    steps.tick();
    assert_eq!(rt; steps.count(), 1);
    let text = Text::of(alloc, b"run.v")?;
    assert_eq!(rt; text.bytes(), b"run.v".as_slice());
    let bytes = Text::of(alloc, b"run.v")?.into_bytes();
    assert_eq!(rt; bytes.as_slice(), b"run.v".as_slice());
    let texts = Texts::of(vec![in alloc; text]?);
    assert_eq!(rt; texts.items().len(), 1);
    assert_eq!(rt; texts.into_items().len(), 1);
    let numbers = Numbers::of(vec![in alloc; 3, 1]?);
    assert_eq!(rt; numbers.items(), [3, 1].as_slice());
    assert_eq!(rt; numbers.into_items().len(), 2);
    let codes = Codes::of(vec![in alloc; 7]?);
    assert_eq!(rt; codes.items(), [7].as_slice());
    assert_eq!(rt; codes.into_items().len(), 1);
    Ok(())
}

// A file of more than 64 KiB is read whole, an empty one is no fault, and one that passes the limit by a byte is too long.
#[test]
fn files_of_the_process(rt: HostRuntime) -> Result<(), Fail> {
    let alloc = rt.alloc();
    let long = vec![in alloc; b'x'; 70_000]?;
    fs::create(&rt, "lg_base_long")?.write_all(long.as_slice())?;
    fs::create(&rt, "lg_base_empty")?.write_all(b"")?;
    let mut files = HostFiles::new(&rt, alloc);
    assert_eq!(rt; files.read_all(alloc, "lg_base_long", 70_000)?, long);
    assert_eq!(rt;
        files.read_all(alloc, "lg_base_long", 69_999).err(),
        Some(FileError::TooLong)
    );
    let none = files.read_all(alloc, "lg_base_empty", 0)?;
    assert_eq!(rt; none.len(), 0);
    Ok(())
}
