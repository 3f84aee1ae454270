//! Streams and a folder that tell what comes to them and what they hold. Those of the process tell nothing: what is said of
//! streams and folders that tell is met here.
ghost use Rattle.std.specs.Prelude.{◌≡◌, ◌++◌, ℕ, List, [], ◌∷◌, Some, IfOk, take};
ghost use Rattle.std.specs.FinMap.{from_entries};
ghost use Rattle.std.specs.Io.{WritesAtMost};

use lg_base::host::{Opens, Streams};
use lg_base::{HostSink, Sink, SinkFault};
use std::io::{self, ErrorKind, Read};
use std::test::Fail;

// Streams that take what they wait for, and nothing else.
#[derive(Drop)]
struct Awaited<'a> {
    output: &'a [u8],
    errors: &'a [u8],
}

// All of the bytes, if the text begins with them.
fn front(text: &[u8], bytes: &[u8]) -> io::Result<usize>
    ensures bound { WritesAtMost result bytes.now }
    ensures came { IfOk result (λ count. (rest : List ℕ) × (text.now ≡ take count bytes.now ++ rest)) }
{
    match text.strip_prefix(bytes) {
        Some(_) => Ok(bytes.len()),
        None => Err(io::Error::from(ErrorKind::BrokenPipe)),
    }
}

impl Streams for Awaited<'_> {
    ghost on_output = { λ s bytes. (rest : List ℕ) × (s.output.now ≡ bytes ++ rest) };

    ghost on_errors = { λ s bytes. (rest : List ℕ) × (s.errors.now ≡ bytes ++ rest) };

    fn write_output(&self, bytes: &[u8]) -> io::Result<usize> {
        front(self.output, bytes)
    }

    fn write_errors(&self, bytes: &[u8]) -> io::Result<usize> {
        front(self.errors, bytes)
    }
}

#[test]
fn streams(rt: HostRuntime) -> Result<(), Fail> {
    let awaited = Awaited {
        output: b"a page",
        errors: b"a line",
    };
    let mut out = HostSink::output(&awaited);
    let mut err = HostSink::errors(&awaited);
    assert_eq!(rt; out.put(b"a page"), Ok(()));
    assert_eq!(rt; err.put(b"a line"), Ok(()));
    assert_eq!(rt; out.put(b"a line"), Err(SinkFault));
    assert_eq!(rt; err.put(b"a page"), Err(SinkFault));
    Ok(())
}

// A folder with one file.
#[derive(Drop)]
struct Shelf<'a> {
    name: &'a str,
    bytes: &'a [u8],
}

impl<'a> Opens for Shelf<'a> {
    type File = &'a [u8];

    ghost contents = { λ s. Some (from_entries ((s.name.now, s.bytes.now) ∷ [])) };

    fn open_file(&self, name: &str) -> io::Result<&'a [u8]> {
        if name == self.name {
            Ok(self.bytes)
        } else {
            Err(io::Error::from(ErrorKind::NotFound))
        }
    }
}

#[test]
fn folders(rt: HostRuntime) -> Result<(), Fail> {
    let shelf = Shelf {
        name: "a",
        bytes: b"held",
    };
    let mut opened = shelf.open_file("a")?;
    let mut bytes = [0u8; 8];
    assert_eq!(rt; opened.read(&mut bytes)?, 4);
    assert_eq!(rt; &bytes[..4], b"held".as_slice());
    assert!(rt; shelf.open_file("b").is_err());
    Ok(())
}
