//! Diagrams, numbers of disjuncts and made sessions.
use super::*;

// Wants this page of the sentence, with these options, where file `d` holds the dictionary.
fn looks<R: Abort + Threads + Sync>(
    rt: &R,
    alloc: Global,
    options: &str,
    dictionary: &str,
    sentence: &str,
    page: &str,
) -> Result<(), Fail> {
    let files = dictionary_of(alloc, dictionary.as_bytes())?;
    let mut words = words_of(alloc, options)?;
    words.push(String::from_str(alloc, "d")?)?;
    words.push(String::from_str(alloc, sentence)?)?;
    expect(rt, alloc, files, &words, Status::Done, page, "")
}

#[test]
fn stats_and_diagram(rt: HostRuntime) -> Result<(), Fail> {
    let page = "\
stats disjuncts 7 kept 5
linkage 1 unused 0 cost 0.000 length 5
word 0 the the - D 0.000
word 1 cat cat D S 0.000
word 2 chased chased S O 0.000
word 3 a a - D 0.000
word 4 snake snake D,O - 0.000
link 0 1 D 0 0
link 1 2 S 0 0
link 2 4 O 0 1
link 3 4 D 0 0
>        +----O-----+
>+-D-+-S-+      +-D-+
>the cat chased a   snake
page shown 1 examined 1 next 2 end
";
    looks(
        &rt,
        rt.alloc(),
        "one|--stats|on|--diagram|on",
        FIRST,
        "the cat chased a snake",
        page,
    )
}

// The dictionary of a whole sentence with walls.
const WALLS: &str =
    "LEFT-WALL: Wd+ & {Xp+}; the: D+; big: A+; cat.n: {@A-} & D- & Wd- & S+; ran.v: S-; \".\": Xp-;";

#[test]
fn diagram_of_four_heights(rt: HostRuntime) -> Result<(), Fail> {
    let page = "\
linkage 1 unused 0 cost 0.000 length 12
word 0 LEFT-WALL LEFT-WALL - Wd,Xp 0.000
word 1 The the - D 0.000
word 2 big big - A 0.000
word 3 cat cat.n @A,D,Wd S 0.000
word 4 ran ran.v S - 0.000
word 5 . . Xp - 0.000
link 0 3 Wd 0 2
link 0 5 Xp 1 0
link 1 3 D 0 1
link 2 3 A 0 0
link 3 4 S 0 0
>+-----------Xp------------+
>+-------Wd--------+       |
>|         +---D---+       |
>|         |   +-A-+-S-+   |
>LEFT-WALL The big cat ran .
page shown 1 examined 1 next 2 end
";
    looks(
        &rt,
        rt.alloc(),
        "one|--diagram|on",
        WALLS,
        "The big cat ran.",
        page,
    )
}

#[test]
fn diagram_with_an_unlinked_word(rt: HostRuntime) -> Result<(), Fail> {
    let page = "\
linkage 1 unused 1 cost 0.000 length 3
word 0 the the - D 0.000
word 1 cat cat D S 0.000
word 2 Mary null
word 3 ran ran S - 0.000
link 0 1 D 0 0
link 1 3 S 0 0
>+-D-+----S-----+
>the cat [Mary] ran
page shown 1 examined 1 next 2 end
";
    looks(
        &rt,
        rt.alloc(),
        "one|--diagram=on",
        FIRST,
        "the cat Mary ran",
        page,
    )
}

#[test]
fn stats_over_an_unlinked_word(rt: HostRuntime) -> Result<(), Fail> {
    let page = "\
stats disjuncts 6 kept 4
linkage 1 unused 1 cost 0.000 length 3
word 0 the the - D 0.000
word 1 cat cat D S 0.000
word 2 Mary null
word 3 ran ran S - 0.000
link 0 1 D 0 0
link 1 3 S 0 0
page shown 1 examined 1 next 2 end
";
    looks(
        &rt,
        rt.alloc(),
        "one|--stats|on",
        FIRST,
        "the cat Mary ran",
        page,
    )
}

#[test]
fn stats_without_pruning(rt: HostRuntime) -> Result<(), Fail> {
    let page = "\
stats disjuncts 6 kept 6
linkage 1 unused 1 cost 0.000 length 3
word 0 the the - D 0.000
word 1 cat cat D S 0.000
word 2 Mary null
word 3 ran ran S - 0.000
link 0 1 D 0 0
link 1 3 S 0 0
page shown 1 examined 1 next 2 end
";
    looks(
        &rt,
        rt.alloc(),
        "one|--stats|on|--prune|off",
        FIRST,
        "the cat Mary ran",
        page,
    )
}

#[test]
fn diagram_of_no_words(rt: HostRuntime) -> Result<(), Fail> {
    let page = "\
linkage 1 unused 0 cost 0.000 length 0
>
page shown 1 examined 1 next 2 end
";
    looks(&rt, rt.alloc(), "one|--diagram|on", FIRST, "", page)
}

#[test]
fn characters_of_two_bytes_take_one_column(rt: HostRuntime) -> Result<(), Fail> {
    let page = "\
linkage 1 unused 0 cost 0.000 length 2
word 0 é é - D 0.000
word 1 b b D S 0.000
word 2 c c S - 0.000
link 0 1 D 0 0
link 1 2 S 0 0
>+-D-+-S-+
>é   b   c
page shown 1 examined 1 next 2 end
";
    looks(
        &rt,
        rt.alloc(),
        "one|--diagram|on",
        "é: D+; b: D- & S+; c: S-;",
        "é b c",
        page,
    )
}

// Wants this document of a made session.
fn makes<R: Abort + Threads + Sync>(
    rt: &R,
    alloc: Global,
    words: &str,
    document: &str,
) -> Result<(), Fail> {
    let words = words_of(alloc, words)?;
    expect(
        rt,
        alloc,
        MemFiles::new(alloc),
        &words,
        Status::Done,
        document,
        "",
    )
}

#[test]
fn made_input_one_sentence(rt: HostRuntime) -> Result<(), Fail> {
    let document = "gen 0 3 1\nsentences 1\nexamined 1\nshown 1\nunused 0\nlength 1\n";
    makes(&rt, rt.alloc(), "gen|0|3|1", document)
}

#[test]
fn made_input_two_sentences(rt: HostRuntime) -> Result<(), Fail> {
    let document = "gen 0 3 2\nsentences 2\nexamined 5\nshown 5\nunused 3\nlength 5\n";
    makes(&rt, rt.alloc(), "gen|00|003|2", document)
}

#[test]
fn numbers_that_make_nothing(rt: HostRuntime) -> Result<(), Fail> {
    for words in [
        "gen|0|3",
        "gen|0|3|0",
        "gen|0|0|1",
        "gen|0|100001|1",
        "gen|0|1|100001",
        "gen|4294967296|1|1",
        "gen|00000000000|1|1",
        "gen|+1|1|1",
        "gen|1|1|1|1",
        "gen|--stats|on|1|1|1",
    ] {
        let words = words_of(rt.alloc(), words)?;
        let line = "lgparse: the words are not a command of this program\n";
        expect(
            &rt,
            rt.alloc(),
            MemFiles::new(rt.alloc()),
            &words,
            Status::Usage,
            "",
            line,
        )?;
    }
    Ok(())
}
