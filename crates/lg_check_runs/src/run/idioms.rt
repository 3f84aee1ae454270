//! Compounds of the dictionary that stand for several tokens.
use super::*;

// Wants this page of the sentence, with `--idioms` so, where file `d` holds a dictionary with one compound.
fn joins<R: Abort + Threads + Sync>(
    rt: &R,
    alloc: Global,
    switch: &str,
    sentence: &str,
    page: &str,
) -> Result<(), Fail> {
    let files = dictionary_of(alloc, b"New_York: S+; ran: S-;")?;
    let mut words = words_of(alloc, "one|--idioms")?;
    words.push(String::from_str(alloc, switch)?)?;
    words.push(String::from_str(alloc, "d")?)?;
    words.push(String::from_str(alloc, sentence)?)?;
    expect(rt, alloc, files, &words, Status::Done, page, "")
}

#[test]
fn a_compound_stands_for_its_parts(rt: HostRuntime) -> Result<(), Fail> {
    let page = "\
linkage 1 unused 0 cost 0.000 length 2
word 0 New New_York - id0.0.0 0.000
word 1 York New_York id0.0.0 S 0.000
word 2 ran ran S - 0.000
link 0 1 id0.0.0 0 0
link 1 2 S 0 0
page shown 1 examined 1 next 2 end
";
    joins(&rt, rt.alloc(), "on", "New York ran", page)
}

#[test]
fn without_idioms_its_parts_are_no_words(rt: HostRuntime) -> Result<(), Fail> {
    let page = "\
linkage 1 unused 3 cost 0.000 length 0
word 0 New null
word 1 York null
word 2 ran null
page shown 1 examined 1 next 2 end
";
    joins(&rt, rt.alloc(), "off", "New York ran", page)
}

#[test]
fn parts_apart_are_no_compound(rt: HostRuntime) -> Result<(), Fail> {
    let page = "\
linkage 1 unused 4 cost 0.000 length 0
word 0 New null
word 1 big null
word 2 York null
word 3 ran null
page shown 1 examined 1 next 2 end
";
    joins(&rt, rt.alloc(), "on", "New big York ran", page)
}
