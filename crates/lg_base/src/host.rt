//! The files and standard streams of the process. They tell no content.
ghost use Rattle.std.specs.Prelude.{None, Some, ◌≡◌, ◌+◌, ◌≤◌, ◌<◌, [], OnOk, OnErr, IfOk, IfSome, IsOk, IsErrOf, is_err, vec_len, length, take, ℕ, List, ⊤, map, string_bytes, if◌then◌else◌};
ghost use Rattle.std.specs.declared.option.Option.{Option};
ghost use Rattle.std.specs.Io.{ReadsAtMost, WritesAtMost};
ghost use Rattle.std.specs.Io.KnownBytes.{Appends, WriteAppends, ReadConsumes};
ghost use Rattle.lg_base.specs.Faults.{raised};
ghost use Rattle.lg_base.specs.Contents.{Contents, file};
ghost use Rattle.lg_base.specs.Files.{asked_after, faults_with, faults_after, fault_of, Reads, IsOpened, HasReadCause};
ghost use Rattle.lg_base.specs.Reading.{Loses};
ghost use Rattle.lg_base.specs.Sinks.{AppendsFront, HasWriteCause};

use crate::files::{FileError, Files};
use crate::sinks::{Sink, SinkFault};
use std::alloc::Global;
use std::io::{ErrorKind, Read, Write};
use std::{fs, io, rt};

/// What opens files by name.
///
/// Contracts see what the files hold, where the object tells it.
pub trait Opens {
    /// An open file, to be read from its start.
    type File: Read + Drop;

    ghost contents: { Self → Option Contents };

    /// Opens the file with this name.
    fn open_file(&self, name: &str) -> io::Result<Self::File>
        ensures { IfSome (contents self.now) (λ known.
            IfOk result (λ opened. IsOpened (file known name.now) (Self.File.remaining opened))) };
}

/// What opens the files of the process, by a reference to its runtime. It tells no content.
#[derive(Drop)]
pub struct HostFolder<'a, R> {
    rt: &'a R,
}

impl<R: rt::Files> Opens for HostFolder<'_, R> {
    type File = R::File;

    ghost contents = { λ _. None };

    fn open_file(&self, name: &str) -> io::Result<R::File> {
        fs::open(self.rt, name)
    }
}

/// Files that are opened one by one and read whole. They tell what the opener tells.
#[derive(Drop)]
pub struct ReaderFiles<O> {
    opener: O,
    asked: Vec<String>,
    faults: u64,
}

/// The files of the process. They tell no content.
pub type HostFiles<'a, R> = ReaderFiles<HostFolder<'a, R>>;

impl<'a, R: rt::Files> ReaderFiles<HostFolder<'a, R>> {
    /// Files of which none was asked yet. It takes no memory.
    pub fn new(rt: &'a R, alloc: Global) -> HostFiles<'a, R>
        ensures asked { result.asked.items ≡ [] }
        ensures faults { result.faults ≡ 0 }
    {
        ReaderFiles {
            opener: HostFolder { rt },
            asked: Vec::new(alloc),
            faults: 0,
        }
    }
}

// The count of faults after this error.
fn faults_with(faults: u64, error: FileError) -> u64
    ensures { result ≡ faults_with faults error }
{
    match error {
        FileError::Failed => faults.saturating_add(1),
        FileError::NoMemory | FileError::TooLong => faults,
    }
}

// How often a read or a write is tried that the system interrupts, as by a signal.
const TRIES: u32 = 1_000;

// Reads some of the bytes. A read that is interrupted is tried again.
fn read_again<S: Read>(source: &mut S, buffer: &mut [u8]) -> io::Result<usize>
    ensures bound { ReadsAtMost result buffer.new }
    ensures bytes { ReadConsumes (S.remaining source.old) (S.remaining source.new) result buffer.new }
{
    for _ in 1..TRIES {
        match source.read(buffer) {
            Err(error) if error.kind() == ErrorKind::Interrupted => {}
            answer => return answer,
        }
    }
    source.read(buffer)
}

// Writes some of the bytes. A write that is interrupted is tried again.
fn write_again<W: Write>(writer: &mut W, bytes: &[u8]) -> io::Result<usize>
    ensures bound { WritesAtMost result bytes.now }
    ensures bytes { WriteAppends (W.contents writer.old) (W.contents writer.new) result bytes.now }
{
    for _ in 1..TRIES {
        match writer.write(bytes) {
            Err(error) if error.kind() == ErrorKind::Interrupted => {}
            answer => return answer,
        }
    }
    writer.write(bytes)
}

// A reader with a count of its reads that failed for another cause than memory.
#[derive(Drop)]
struct Counted<S> {
    source: S,
    faults: u64,
}

impl<S: Read> Counted<S> {
    // Reads some of the bytes.
    fn read_some(&mut self, buffer: &mut [u8]) -> Result<usize, FileError>
        ensures bound { ReadsAtMost result buffer.new }
        ensures bytes { ReadConsumes (S.remaining self.old.source) (S.remaining self.new.source) result buffer.new }
        ensures counted { self.new.faults ≡ faults_after self.old.faults result }
        ensures limitless { IsErrOf result FileError.TooLong → ⊥ }
    {
        match read_again(&mut self.source, buffer) {
            Ok(count) => Ok(count),
            Err(cause) => {
                let error = FileError::from(cause);
                self.faults = faults_with(self.faults, error);
                Err(error)
            }
        }
    }
}

// The most bytes that a turn reads.
const CHUNK: usize = 4096;

// All bytes that a reader has left, or that there are more than `limit`. Each turn takes at least one byte.
fn read_limited<S: Read>(
    alloc: Global,
    file: &mut Counted<S>,
    limit: u64,
) -> Result<Vec<u8>, FileError>
    ensures told { IfSome (S.remaining file.old.source) (λ known. Reads (Some known) limit result) }
    ensures limited { IfOk result (λ bytes. vec_len bytes ≤ limit) }

    // a read that failed is the only fault
    ensures counted { file.new.faults ≡ faults_after file.old.faults result }

    // it stops one byte past the limit
    ensures stops { IsErrOf result FileError.TooLong →
        Loses (S.remaining file.old.source) (S.remaining file.new.source) (limit + 1) }
{
    let mut bytes = Vec::new(alloc);
    let mut chunk = [0u8; CHUNK];
    let mut left = limit;
    loop {
        let want = left.saturating_add(1).min(CHUNK as u64) as usize;
        let count = file.read_some(&mut chunk[..want])?;
        if count == 0 {
            return Ok(bytes);
        }
        if count as u64 > left {
            return Err(FileError::TooLong);
        }
        bytes.extend_from_slice(&chunk[..count])?;
        left -= count as u64;
    }
}

// All bytes of the file with this name, and the count of faults after it.
fn read_file<O: Opens>(
    opener: &O,
    alloc: Global,
    name: &str,
    limit: u64,
    faults: &mut u64,
) -> Result<Vec<u8>, FileError>
    ensures told { IfSome (O.contents opener.now) (λ known. Reads (file known name.now) limit result) }
    ensures limited { IfOk result (λ bytes. vec_len bytes ≤ limit) }
    ensures counted { faults.new ≡ faults_after faults.old result }
{
    match opener.open_file(name) {
        Ok(source) => {
            let mut file = Counted {
                source,
                faults: *faults,
            };
            let answer = read_limited(alloc, &mut file, limit);
            *faults = file.faults;
            answer
        }
        Err(cause) => {
            let error = FileError::from(cause);
            *faults = faults_with(*faults, error);
            Err(error)
        }
    }
}

impl<O: Opens> Files for ReaderFiles<O> {
    ghost contents = { λ f. O.contents f.opener };

    ghost asked = { λ f. map string_bytes f.asked.items };

    ghost faults = { λ f. f.faults };

    fn read_all(&mut self, alloc: Global, name: &str, limit: u64) -> Result<Vec<u8>, FileError>
        ensures unchanged { O.contents self.new.opener ≡ O.contents self.old.opener }
        ensures asked { map string_bytes self.new.asked.items
            ≡ asked_after (map string_bytes self.old.asked.items) name.now result }
        ensures told { IfSome (O.contents self.old.opener) (λ known. Reads (file known name.now) limit result) }
        ensures limited { IfOk result (λ bytes. vec_len bytes ≤ limit) }
        ensures cause { HasReadCause self.old.faults self.new.faults result }

        // an open or a read that failed raises the count by one, and nothing else does
        ensures counted { self.new.faults ≡ faults_after self.old.faults result }
    {
        let mut faults = self.faults;
        let answer = read_file(&self.opener, alloc, name, limit, &mut faults);
        if let Err(FileError::NoMemory) = answer {
            return answer;
        }
        self.asked.push(String::from_str(alloc, name)?)?;
        self.faults = faults;
        answer
    }
}

/// A sink over a writer, which tells what the writer tells.
#[derive(Drop)]
pub struct WriterSink<W> {
    writer: W,
    faults: u64,
}

impl<W: Write> WriterSink<W> {
    // Writes some of the bytes. A write that fails or takes nothing is a fault, and a short one is none.
    fn write_some(&mut self, bytes: &[u8]) -> Result<usize, SinkFault>
        ensures bytes { WriteAppends (W.contents self.old.writer) (W.contents self.new.writer) result bytes.now }
        ensures taken { IfOk result (λ count. (0 < count) × (count ≤ length bytes.now)) }
        ensures counted { self.new.faults ≡ (if is_err result then raised self.old.faults else self.old.faults) }
    {
        match write_again(&mut self.writer, bytes) {
            Ok(0) | Err(_) => {
                self.faults = self.faults.saturating_add(1);
                Err(SinkFault)
            }
            Ok(count) => Ok(count),
        }
    }
}

// Writes all these bytes.
fn write_whole<W: Write>(sink: &mut WriterSink<W>, bytes: &[u8]) -> Result<(), SinkFault>
    ensures whole { OnOk result (Appends (W.contents sink.old.writer) (W.contents sink.new.writer) bytes.now) }
    ensures front { OnErr result (AppendsFront (W.contents sink.old.writer) (W.contents sink.new.writer) bytes.now) }
    ensures cause { HasWriteCause sink.old.faults sink.new.faults result }
    ensures counted { sink.new.faults ≡ (if is_err result then raised sink.old.faults else sink.old.faults) }
{
    let mut done = 0;
    while done < bytes.len() {
        let taken = sink.write_some(&bytes[done..])?;
        done += taken;
    }
    Ok(())
}

impl<W: Write> Sink for WriterSink<W> {
    ghost written = { λ s. W.contents s.writer };

    ghost faults = { λ s. s.faults };

    fn put(&mut self, bytes: &[u8]) -> Result<(), SinkFault>
        ensures whole { OnOk result (Appends (W.contents self.old.writer) (W.contents self.new.writer) bytes.now) }
        ensures front { OnErr result (AppendsFront (W.contents self.old.writer) (W.contents self.new.writer) bytes.now) }
        ensures cause { HasWriteCause self.old.faults self.new.faults result }
        ensures nothing { bytes.now ≡ [] → IsOk result × (W.contents self.new.writer ≡ W.contents self.old.writer)
            × (self.new.faults ≡ self.old.faults) }

        // a fault alone raises the count
        ensures counted { self.new.faults ≡ (if is_err result then raised self.old.faults else self.old.faults) }
    {
        if bytes.is_empty() {
            return Ok(());
        }
        write_whole(self, bytes)
    }
}

/// Where the process writes: some of the bytes, and how many.
///
/// Contracts see which bytes came to which stream, as far as the object tells it.
pub trait Streams {
    ghost on_output: { Self → List ℕ → Type 0 };

    ghost on_errors: { Self → List ℕ → Type 0 };

    /// Writes some of the bytes to standard output.
    fn write_output(&self, bytes: &[u8]) -> io::Result<usize>
        ensures bound { WritesAtMost result bytes.now }
        ensures came { IfOk result (λ count. on_output self.now (take count bytes.now)) };

    /// Writes some of the bytes to standard error.
    fn write_errors(&self, bytes: &[u8]) -> io::Result<usize>
        ensures bound { WritesAtMost result bytes.now }
        ensures came { IfOk result (λ count. on_errors self.now (take count bytes.now)) };
}

impl Streams for HostRuntime {
    ghost on_output = { λ _ _. ⊤ };

    ghost on_errors = { λ _ _. ⊤ };

    fn write_output(&self, bytes: &[u8]) -> io::Result<usize> {
        self.stdout().write_some(bytes)
    }

    fn write_errors(&self, bytes: &[u8]) -> io::Result<usize> {
        self.stderr().write_some(bytes)
    }
}

#[derive(Clone, Copy)]
enum Stream {
    Output,
    Errors,
}

/// A standard stream of the process, as a writer with no buffer. It tells no content.
#[derive(Drop)]
pub struct HostStream<'a, R> {
    rt: &'a R,
    stream: Stream,
}

impl<R: Streams> Write for HostStream<'_, R> {
    fn write(&mut self, buf: &[u8]) -> io::Result<usize>
        ensures bound { WritesAtMost result buf.now }
        ensures bytes { WriteAppends None None result buf.now }
        ensures stream { self.new.stream ≡ self.old.stream }

        // each stream takes its own bytes
        ensures output { self.old.stream ≡ Stream.Output →
            IfOk result (λ count. R.on_output self.old.rt.now (take count buf.now)) }
        ensures errors { self.old.stream ≡ Stream.Errors →
            IfOk result (λ count. R.on_errors self.old.rt.now (take count buf.now)) }
    {
        match self.stream {
            Stream::Output => self.rt.write_output(buf),
            Stream::Errors => self.rt.write_errors(buf),
        }
    }

    fn flush(&mut self) -> io::Result<()> {
        Ok(())
    }
}

/// A standard stream of the process, as a sink.
pub type HostSink<'a, R> = WriterSink<HostStream<'a, R>>;

impl<'a, R: Streams> WriterSink<HostStream<'a, R>> {
    /// Standard output.
    pub fn output(rt: &'a R) -> HostSink<'a, R>
        ensures stream { result.writer.stream ≡ Stream.Output }
        ensures faults { result.faults ≡ 0 }
    {
        let stream = Stream::Output;
        WriterSink {
            writer: HostStream { rt, stream },
            faults: 0,
        }
    }

    /// Standard error.
    pub fn errors(rt: &'a R) -> HostSink<'a, R>
        ensures stream { result.writer.stream ≡ Stream.Errors }
        ensures faults { result.faults ≡ 0 }
    {
        let stream = Stream::Errors;
        WriterSink {
            writer: HostStream { rt, stream },
            faults: 0,
        }
    }
}

#[cfg(test)]
mod tests {
    use super::*;
    use std::collections::VecDeque;
    use std::test::Fail;

    #[derive(Clone, Copy, PartialEq, Eq)]
    enum Device {
        Slow,
        Stuck,
        Broken,
    }

    // A byte a call, and at last no more.
    #[derive(Drop)]
    struct Fake {
        held: VecDeque<u8>,
        then: Device,
    }

    impl Read for Fake {
        fn read(&mut self, buf: &mut [u8]) -> io::Result<usize> {
            if self.held.is_empty() && self.then == Device::Broken {
                return Err(io::Error::from(io::ErrorKind::BrokenPipe));
            }
            let count = buf.len().min(1);
            self.held.read(&mut buf[..count])
        }
    }

    impl Write for Fake {
        fn write(&mut self, buf: &[u8]) -> io::Result<usize> {
            if self.held.len() >= 3 {
                match self.then {
                    Device::Slow => {}
                    Device::Stuck => return Ok(0),
                    Device::Broken => return Err(io::Error::from(io::ErrorKind::BrokenPipe)),
                }
            }
            let count = buf.len().min(1);
            self.held.write(&buf[..count])
        }

        fn flush(&mut self) -> io::Result<()> {
            Ok(())
        }
    }

    #[test]
    fn reads(rt: HostRuntime) -> Result<(), Fail> {
        let alloc = rt.alloc();
        for (then, limit, want) in [
            (Device::Slow, 3, None),
            (Device::Slow, 2, Some(FileError::TooLong)),
            (Device::Broken, 4, Some(FileError::Failed)),
        ] {
            let mut held = VecDeque::new(alloc);
            held.write_all(b"abc")?;
            let source = Fake { held, then };
            let mut file = Counted { source, faults: 0 };
            assert_eq!(rt; read_limited(alloc, &mut file, limit).err(), want);
            assert_eq!(rt; file.faults, u64::from(then == Device::Broken));
        }
        Ok(())
    }

    #[test]
    fn writes(rt: HostRuntime) -> Result<(), Fail> {
        let alloc = rt.alloc();
        for (then, want, count) in [
            (Device::Slow, Ok(()), 5),
            (Device::Stuck, Err(SinkFault), 3),
            (Device::Broken, Err(SinkFault), 3),
        ] {
            let held = VecDeque::new(alloc);
            let writer = Fake { held, then };
            let mut sink = WriterSink { writer, faults: 0 };
            assert_eq!(rt; sink.put(b"abcde"), want);
            assert_eq!(rt; sink.writer.held.len(), count);
            assert_eq!(rt; sink.faults, if want.is_ok() { 0 } else { 1 });
        }
        Ok(())
    }
}
