//! What no clause says: that runs come to an end other than running out of memory, and pages and lines that are known from
//! elsewhere.
mod audits;
mod cuts;
mod exports;
mod faults;
mod idioms;
mod limits;
mod looks;
mod recounts;
mod refusals;
mod rows;
mod sessions;

use lg_base::{MemFiles, MemSink, Sink};
use lg_run::{Status, run};
use lg_session::FreeGate;
use std::alloc::Global;
use std::process::Abort;
use std::test::Fail;
use std::thread::Threads;

const FIRST: &str =
    "a the: D+; snake cat: D- & (O- or S+); Mary: O- or S+; ran: S-; chased: S- & O+;";

// Room for each stream.
const ROOM: u32 = 1 << 16;

// Runs the words over the files, and wants this status and these bytes on the two streams.
fn expect<R: Abort + Threads + Sync>(
    rt: &R,
    alloc: Global,
    mut files: MemFiles,
    words: &[String],
    status: Status,
    page: &str,
    line: &str,
) -> Result<(), Fail> {
    let mut out = MemSink::new(alloc, ROOM)?;
    let mut err = MemSink::new(alloc, ROOM)?;
    let answer = run(rt, alloc, words, &mut files, &mut out, &mut err, &FreeGate);
    assert_eq!(rt; answer, status);
    assert_eq!(rt; out.bytes(), page.as_bytes());
    assert_eq!(rt; err.bytes(), line.as_bytes());
    Ok(())
}

// Wants this page of the sentence where file `d` holds the dictionary.
fn shows<R: Abort + Threads + Sync>(
    rt: &R,
    alloc: Global,
    dictionary: &str,
    sentence: &str,
    page: &str,
) -> Result<(), Fail> {
    let files = dictionary_of(alloc, dictionary.as_bytes())?;
    let words = one(alloc, sentence)?;
    expect(rt, alloc, files, &words, Status::Done, page, "")
}

// Wants this status and this line where the files are read for a sentence.
fn refuses<R: Abort + Threads + Sync>(
    rt: &R,
    alloc: Global,
    files: MemFiles,
    status: Status,
    line: &str,
) -> Result<(), Fail> {
    let words = one(alloc, "x")?;
    expect(rt, alloc, files, &words, status, "", line)
}

// The file `d` alone.
fn dictionary_of(alloc: Global, text: &[u8]) -> Result<MemFiles, Fail> {
    let mut files = MemFiles::new(alloc);
    files.add("d", text)?;
    Ok(files)
}

// The files `d`, `k` and `s1`.
fn files_of(
    alloc: Global,
    dictionary: &str,
    knowledge: &str,
    script: &[u8],
) -> Result<MemFiles, Fail> {
    let mut files = dictionary_of(alloc, dictionary.as_bytes())?;
    files.add("k", knowledge.as_bytes())?;
    files.add("s1", script)?;
    Ok(files)
}

// The words that ask for this sentence with the dictionary in file `d`.
fn one(alloc: Global, sentence: &str) -> Result<Vec<String>, Fail> {
    let mut words = words_of(alloc, "one|d")?;
    words.push(String::from_str(alloc, sentence)?)?;
    Ok(words)
}

// The words between the bars; no bars and no text are no words.
fn words_of(alloc: Global, text: &str) -> Result<Vec<String>, Fail> {
    let mut words = Vec::new(alloc);
    if text.is_empty() {
        return Ok(words);
    }
    for word in text.split('|') {
        words.push(String::from_str(alloc, word)?)?;
    }
    Ok(words)
}

// These texts one after another.
fn all(alloc: Global, texts: &[&str]) -> Result<String, Fail> {
    let mut whole = String::new(alloc);
    for text in texts {
        whole.push_str(text)?;
    }
    Ok(whole)
}

// So many equal parts between two other texts.
fn made(
    alloc: Global,
    front: &[u8],
    part: &[u8],
    count: usize,
    back: &[u8],
) -> Result<Vec<u8>, Fail> {
    let mut text = front.to_vec(alloc)?;
    for _ in 0..count {
        text.extend_from_slice(part)?;
    }
    text.extend_from_slice(back)?;
    Ok(text)
}
