//! The totals of usage, counted again from the lines of the same document.
use super::*;

// The word of that number in a line, from 0, or no text.
fn field(line: &str, number: usize) -> &str {
    line.split(' ').nth(number).unwrap_or("")
}

// Where a line of a document stands.
#[derive(Clone, Copy, Debug, PartialEq, Eq)]
enum Part {
    // in an answer to `parse` or `list`, before its first linkage
    Before,
    // in that linkage
    First,
    Elsewhere,
}

// Where this line stands, behind a line of that part. The first line of an answer has the command's word at its second place.
fn part_of(line: &str, last: Part) -> Part {
    match field(line, 1) {
        "parse" | "list" => return Part::Before,
        _ => {}
    }
    match field(line, 0) {
        "linkage" if last == Part::Before => Part::First,
        "fail" if last == Part::Before => Part::Before,
        "word" | "link" => last,
        _ => Part::Elsewhere,
    }
}

// The dictionary words of the linked positions and the labels of the links, of first linkages.
#[derive(Drop)]
struct Used<'a> {
    words: Vec<&'a str>,
    labels: Vec<&'a str>,
}

impl<'a> Used<'a> {
    // Those of the document, by its lines of words and of links. The line of an unlinked word ends behind four words.
    fn of(alloc: Global, document: &'a str) -> Result<Used<'a>, Fail> {
        let mut used = Used {
            words: Vec::new(alloc),
            labels: Vec::new(alloc),
        };
        let mut part = Part::Elsewhere;
        for line in document.lines() {
            part = part_of(line, part);
            if part == Part::First {
                used.take(line)?;
            }
        }
        Ok(used)
    }

    // Takes what this line of a linkage has.
    fn take(&mut self, line: &'a str) -> Result<(), Fail> {
        if field(line, 0) == "word" && !field(line, 4).is_empty() {
            self.words.push(field(line, 3))?;
        }
        if field(line, 0) == "link" {
            self.labels.push(field(line, 3))?;
        }
        Ok(())
    }
}

// Wants that the lines of this kind say of each of the texts how often it is there, and name no other text.
fn says<R: Abort>(
    rt: &R,
    alloc: Global,
    document: &str,
    kind: &str,
    texts: &[&str],
) -> Result<(), Fail> {
    let mut all = 0usize;
    for line in document.lines() {
        if field(line, 0) == "usage" && field(line, 1) == kind {
            let times = texts.iter().filter(|text| **text == field(line, 2)).count();
            let written = format!(in alloc; "{times}")?;
            assert_eq!(rt; field(line, 3), written.as_str(), "at {line}");
            assert!(rt; times > 0, "at {line}");
            all = all.saturating_add(times);
        }
    }
    assert_eq!(rt; all, texts.len());
    Ok(())
}

const RULED: &str = "x: (A+ & B+) or [C+ & B+]; y.n: A- or C-; z: B-; w: @D+ & @D+; v: D-; u: ();";

const ONE: &str = "\
parse x y z
set y.n: C-;
list 1 2 w v v v
more
list 9 1 w v v v
parse v u
";

const TWO: &str = "\
list 1 1 w v v v
parse x y z
more
set v: D- or E-;
list 2 1 w v v v
version
";

// The sessions run at once, and some of the answers are by the edits of the other one or not; the totals are those of the document.
#[test]
fn totals_of_two_sessions(rt: HostRuntime) -> Result<(), Fail> {
    let alloc = rt.alloc();
    let mut files = files_of(alloc, RULED, "none: A { B };", ONE.as_bytes())?;
    files.add("s2", TWO.as_bytes())?;
    let words = words_of(alloc, "run|--usage|on|d|k|s1|s2")?;
    let mut out = MemSink::new(alloc, ROOM)?;
    let mut err = MemSink::new(alloc, ROOM)?;
    let status = run(
        &rt, alloc, &words, &mut files, &mut out, &mut err, &FreeGate,
    );
    assert_eq!(rt; status, Status::Done);
    let document = str::from_utf8(out.bytes()).ok().ok_or("UTF-8")?;
    let used = Used::of(alloc, document)?;
    assert_eq!(rt; used.words.len(), 19);
    assert_eq!(rt; used.labels.len(), 13);
    says(&rt, alloc, document, "word", &used.words)?;
    says(&rt, alloc, document, "label", &used.labels)
}
