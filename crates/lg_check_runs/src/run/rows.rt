//! Sentences and their pages, and what is written past a bound.
use super::*;

#[test]
fn one_transitive_sentence(rt: HostRuntime) -> Result<(), Fail> {
    let page = "\
linkage 1 unused 0 cost 0.000 length 5
word 0 the the - D 0.000
word 1 cat cat D S 0.000
word 2 chased chased S O 0.000
word 3 a a - D 0.000
word 4 snake snake D,O - 0.000
link 0 1 D 0 0
link 1 2 S 0 0
link 2 4 O 0 1
link 3 4 D 0 0
page shown 1 examined 1 next 2 end
";
    shows(&rt, rt.alloc(), FIRST, "the cat chased a snake", page)
}

#[test]
fn subject_and_verb(rt: HostRuntime) -> Result<(), Fail> {
    let page = "\
linkage 1 unused 0 cost 0.000 length 1
word 0 Mary Mary - S 0.000
word 1 ran ran S - 0.000
link 0 1 S 0 0
page shown 1 examined 1 next 2 end
";
    shows(&rt, rt.alloc(), FIRST, "Mary ran", page)
}

#[test]
fn empty_sentence(rt: HostRuntime) -> Result<(), Fail> {
    let page = "\
linkage 1 unused 0 cost 0.000 length 0
page shown 1 examined 1 next 2 end
";
    shows(&rt, rt.alloc(), FIRST, "", page)
}

#[test]
fn nothing_fits_all_words_unlinked(rt: HostRuntime) -> Result<(), Fail> {
    let page = "\
linkage 1 unused 4 cost 0.000 length 0
word 0 the null
word 1 Mary null
word 2 chased null
word 3 cat null
page shown 1 examined 1 next 2 end
";
    shows(&rt, rt.alloc(), FIRST, "the Mary chased cat", page)
}

#[test]
fn two_subjects_stay_unlinked(rt: HostRuntime) -> Result<(), Fail> {
    let page = "\
linkage 1 unused 2 cost 0.000 length 0
word 0 Mary null
word 1 Mary null
page shown 1 examined 1 next 2 end
";
    shows(&rt, rt.alloc(), FIRST, "Mary Mary", page)
}

#[test]
fn unlinked_word_under_a_link(rt: HostRuntime) -> Result<(), Fail> {
    let page = "\
linkage 1 unused 1 cost 0.000 length 3
word 0 the the - D 0.000
word 1 cat cat D S 0.000
word 2 Mary null
word 3 ran ran S - 0.000
link 0 1 D 0 0
link 1 3 S 0 0
page shown 1 examined 1 next 2 end
";
    shows(&rt, rt.alloc(), FIRST, "the cat Mary ran", page)
}

#[test]
fn exclusion_of_two_links_of_one_pair(rt: HostRuntime) -> Result<(), Fail> {
    let page = "\
linkage 1 unused 2 cost 0.000 length 0
word 0 x null
word 1 y null
page shown 1 examined 1 next 2 end
";
    shows(&rt, rt.alloc(), "x: A+ & B+; y: A- & B-;", "x y", page)
}

#[test]
fn second_subscript_places_differ(rt: HostRuntime) -> Result<(), Fail> {
    let page = "\
linkage 1 unused 2 cost 0.000 length 0
word 0 x null
word 1 y null
page shown 1 examined 1 next 2 end
";
    shows(&rt, rt.alloc(), "x: S*b+; y: Ssa-;", "x y", page)
}

#[test]
fn lone_plus_stays_unlinked(rt: HostRuntime) -> Result<(), Fail> {
    let page = "\
linkage 1 unused 1 cost 0.000 length 0
word 0 x null
page shown 1 examined 1 next 2 end
";
    shows(&rt, rt.alloc(), "x: [A+];", "x", page)
}

#[test]
fn lone_word_with_empty_disjunct(rt: HostRuntime) -> Result<(), Fail> {
    let page = "\
linkage 1 unused 1 cost 0.000 length 0
word 0 x null
word 1 y y - - 0.000
linkage 2 unused 1 cost 0.000 length 0
word 0 x x - - 0.000
word 1 y null
page shown 2 examined 2 next 3 end
";
    shows(&rt, rt.alloc(), "x: (); y: ();", "x y", page)
}

#[test]
fn ranking_by_bracket_cost(rt: HostRuntime) -> Result<(), Fail> {
    let page = "\
linkage 1 unused 0 cost 0.000 length 1
word 0 x x - A 0.000
word 1 y y A - 0.000
link 0 1 A 0 0
linkage 2 unused 0 cost 1.000 length 1
word 0 x x - B 1.000
word 1 y y B - 0.000
link 0 1 B 0 0
page shown 2 examined 2 next 3 end
";
    shows(&rt, rt.alloc(), "x: A+ or [B+]; y: A- or B-;", "x y", page)
}

#[test]
fn cost_forms_and_least_cost(rt: HostRuntime) -> Result<(), Fail> {
    let page = "\
linkage 1 unused 0 cost 0.250 length 1
word 0 x x - A 0.250
word 1 y y A - 0.000
link 0 1 A 0 0
page shown 1 examined 1 next 2 end
";
    shows(
        &rt,
        rt.alloc(),
        "x: [A+]0.25 or [[A+]].5; y: A-;",
        "x y",
        page,
    )
}

#[test]
fn equal_disjuncts_are_one(rt: HostRuntime) -> Result<(), Fail> {
    let page = "\
linkage 1 unused 0 cost 0.000 length 1
word 0 x x - A 0.000
word 1 y y A - 0.000
link 0 1 A 0 0
page shown 1 examined 1 next 2 end
";
    shows(&rt, rt.alloc(), "x: A+ or [A+]; y: A-;", "x y", page)
}

#[test]
fn multi_connector_with_two_links(rt: HostRuntime) -> Result<(), Fail> {
    let page = "\
linkage 1 unused 0 cost 0.000 length 3
word 0 big big - A 0.000
word 1 big big - A 0.000
word 2 dog dog @A - 0.000
link 0 2 A 0 0
link 1 2 A 0 0
page shown 1 examined 1 next 2 end
";
    shows(&rt, rt.alloc(), "big: A+; dog: {@A-};", "big big dog", page)
}

#[test]
fn two_multi_connectors_share_three_words(rt: HostRuntime) -> Result<(), Fail> {
    let page = "\
linkage 1 unused 0 cost 0.000 length 6
word 0 w w - @A,@A 0.000
word 1 z z A - 0.000
word 2 z z A - 0.000
word 3 z z A - 0.000
link 0 1 A 0 0
link 0 2 A 0 0
link 0 3 A 1 0
linkage 2 unused 0 cost 0.000 length 6
word 0 w w - @A,@A 0.000
word 1 z z A - 0.000
word 2 z z A - 0.000
word 3 z z A - 0.000
link 0 1 A 0 0
link 0 2 A 1 0
link 0 3 A 1 0
page shown 2 examined 2 next 3 end
";
    shows(&rt, rt.alloc(), "w: @A+ & @A+; z: A-;", "w z z z", page)
}

#[test]
fn label_joins_both_subscripts(rt: HostRuntime) -> Result<(), Fail> {
    let page = "\
linkage 1 unused 0 cost 0.000 length 1
word 0 x x - S**b 0.000
word 1 y y Ss - 0.000
link 0 1 Ss*b 0 0
page shown 1 examined 1 next 2 end
";
    shows(&rt, rt.alloc(), "x: S**b+; y: Ss-;", "x y", page)
}

#[test]
fn label_takes_letters_of_both(rt: HostRuntime) -> Result<(), Fail> {
    let page = "\
linkage 1 unused 0 cost 0.000 length 1
word 0 x x - S**b 0.000
word 1 y y Ssa - 0.000
link 0 1 Ssab 0 0
page shown 1 examined 1 next 2 end
";
    shows(&rt, rt.alloc(), "x: S**b+; y: Ssa-;", "x y", page)
}

#[test]
fn macro_of_a_macro(rt: HostRuntime) -> Result<(), Fail> {
    let page = "\
linkage 1 unused 0 cost 0.000 length 1
word 0 x x - B 0.000
word 1 y y B - 0.000
link 0 1 B 0 0
page shown 1 examined 1 next 2 end
";
    shows(
        &rt,
        rt.alloc(),
        "<m>: A+; <m2>: <m> or B+; x: <m2>; y: B-;",
        "x y",
        page,
    )
}

#[test]
fn words_of_a_word_file(rt: HostRuntime) -> Result<(), Fail> {
    let page = "\
linkage 1 unused 0 cost 0.000 length 1
word 0 q q - A 0.000
word 1 y y A - 0.000
link 0 1 A 0 0
page shown 1 examined 1 next 2 end
";
    let mut files = dictionary_of(rt.alloc(), b"/w: A+; y: A-;")?;
    files.add("w", b"p q")?;
    let words = one(rt.alloc(), "q y")?;
    expect(&rt, rt.alloc(), files, &words, Status::Done, page, "")
}

#[test]
fn walls_capital_and_full_stop(rt: HostRuntime) -> Result<(), Fail> {
    let page = "\
linkage 1 unused 0 cost 0.000 length 12
word 0 LEFT-WALL LEFT-WALL - Wd,Xp 0.000
word 1 The the - D 0.000
word 2 big big - A 0.000
word 3 cat cat.n @A,D,Wd S 0.000
word 4 ran ran.v S - 0.000
word 5 . . Xp - 0.000
link 0 3 Wd 0 2
link 0 5 Xp 1 0
link 1 3 D 0 1
link 2 3 A 0 0
link 3 4 S 0 0
page shown 1 examined 1 next 2 end
";
    let dictionary =
        "LEFT-WALL: Wd+ & {Xp+}; the: D+; big: A+; cat.n: {@A-} & D- & Wd- & S+; ran.v: S-; \".\": Xp-;";
    shows(&rt, rt.alloc(), dictionary, "The big cat ran.", page)
}

#[test]
fn possessive_is_cut_off(rt: HostRuntime) -> Result<(), Fail> {
    let page = "\
linkage 1 unused 0 cost 0.000 length 1
word 0 It it - S 0.000
word 1 's 's S - 0.000
link 0 1 S 0 0
page shown 1 examined 1 next 2 end
";
    shows(&rt, rt.alloc(), "it: S+; \"'s\": S-;", "It's", page)
}

#[test]
fn numbers_and_unknown_word(rt: HostRuntime) -> Result<(), Fail> {
    let page = "\
linkage 1 unused 0 cost 0.000 length 1
word 0 3.5 NUMBERS - N 0.000
word 1 zork UNKNOWN-WORD.n N - 0.000
link 0 1 N 0 0
page shown 1 examined 1 next 2 end
";
    shows(
        &rt,
        rt.alloc(),
        "NUMBERS: N+; UNKNOWN-WORD.n: N-;",
        "3.5 zork",
        page,
    )
}

#[test]
fn hyphenated_and_capitalized_words(rt: HostRuntime) -> Result<(), Fail> {
    let page = "\
linkage 1 unused 0 cost 0.000 length 1
word 0 well-made HYPHENATED-WORDS - A 0.000
word 1 Zork CAPITALIZED-WORDS A - 0.000
link 0 1 A 0 0
page shown 1 examined 1 next 2 end
";
    shows(
        &rt,
        rt.alloc(),
        "HYPHENATED-WORDS: A+; CAPITALIZED-WORDS: A-;",
        "well-made Zork",
        page,
    )
}

#[test]
fn nine_words_stay_unlinked(rt: HostRuntime) -> Result<(), Fail> {
    let page = "\
linkage 1 unused 9 cost 0.000 length 0
word 0 ran null
word 1 ran null
word 2 ran null
word 3 ran null
word 4 ran null
word 5 ran null
word 6 ran null
word 7 ran null
word 8 ran null
page shown 1 examined 1 next 2 end
";
    let sentence = "ran ran ran ran ran ran ran ran ran";
    shows(&rt, rt.alloc(), FIRST, sentence, page)
}

#[test]
fn words_past_252_are_too_many(rt: HostRuntime) -> Result<(), Fail> {
    let sentence = made(rt.alloc(), b"x", b" x", 252, b"")?;
    let sentence = str::from_utf8(&sentence).ok().ok_or("UTF-8")?;
    let page = "too many words 253\n";
    shows(&rt, rt.alloc(), "x: {X-} & {X+};", sentence, page)
}

#[test]
fn five_million_choices_by_one(rt: HostRuntime) -> Result<(), Fail> {
    let page = "too many choices 5000000\n";
    let dictionary =
        "<t>: A+ or A+ or A+ or A+ or A+ or A+ or A+ or A+ or A+ or A+; x: <t> & <t> & <t> & <t> & <t> & <t>;";
    shows(&rt, rt.alloc(), dictionary, "x x x x x", page)
}

const FIRST_OF_TWO: &str = "\
linkage 1 unused 0 cost 0.000 length 6
word 0 w w - @A,@A 0.000
word 1 z z A - 0.000
word 2 z z A - 0.000
word 3 z z A - 0.000
link 0 1 A 0 0
link 0 2 A 0 0
link 0 3 A 1 0
page shown 1 examined 1 next 2 more
";

// Wants the first of two linkages alone, by these options, with a bar behind each word.
fn shows_one<R: Abort + Threads + Sync>(rt: &R, alloc: Global, options: &str) -> Result<(), Fail> {
    let files = dictionary_of(alloc, b"w: @A+ & @A+; z: A-;")?;
    let text = format!(in alloc; "one|{options}d|w z z z")?;
    let words = words_of(alloc, &text)?;
    expect(rt, alloc, files, &words, Status::Done, FIRST_OF_TWO, "")
}

#[test]
fn an_option_in_two_words(rt: HostRuntime) -> Result<(), Fail> {
    shows_one(&rt, rt.alloc(), "--want|1|")
}

#[test]
fn an_option_in_one_word(rt: HostRuntime) -> Result<(), Fail> {
    shows_one(&rt, rt.alloc(), "--examine=1|")
}

#[test]
fn both_options_with_leading_zeros(rt: HostRuntime) -> Result<(), Fail> {
    shows_one(&rt, rt.alloc(), "--examine|0000001|--want=1000000|")
}

#[test]
fn workers_change_no_page(rt: HostRuntime) -> Result<(), Fail> {
    for options in ["--want|1|--workers|16|", "--workers=1|--want=1|"] {
        shows_one(&rt, rt.alloc(), options)?;
    }
    Ok(())
}

// The files of a script, where the first linkage of `Mary ran` breaks the rule.
fn mary(alloc: Global, script: &str) -> Result<MemFiles, Fail> {
    files_of(alloc, FIRST, "none: S { S };", script.as_bytes())
}

// Wants this document by a rule for unlinked words.
fn decides<R: Abort + Threads + Sync>(
    rt: &R,
    alloc: Global,
    nulls: &str,
    files: MemFiles,
    document: &str,
) -> Result<(), Fail> {
    let text = format!(in alloc; "run|--nulls|{nulls}|d|k|s1")?;
    let words = words_of(alloc, &text)?;
    expect(rt, alloc, files, &words, Status::Done, document, "")
}

#[test]
fn passing_goes_on_to_more_unlinked_words(rt: HostRuntime) -> Result<(), Fail> {
    let document = "\
1.1 parse version 0
fail 1 rule 1 link 0 1
linkage 2 unused 2 cost 0.000 length 0
word 0 Mary null
word 1 ran null
page shown 1 examined 2 next 3 end
journal 0
done
";
    let files = mary(rt.alloc(), "parse Mary ran\n")?;
    decides(&rt, rt.alloc(), "passing", files, document)
}

#[test]
fn first_stops_at_the_fewest_unlinked_words(rt: HostRuntime) -> Result<(), Fail> {
    let document = "\
1.1 parse version 0
fail 1 rule 1 link 0 1
page shown 0 examined 1 next 2 end
journal 0
done
";
    let files = mary(rt.alloc(), "parse Mary ran\n")?;
    decides(&rt, rt.alloc(), "first", files, document)
}

#[test]
fn passing_from_the_second_candidate(rt: HostRuntime) -> Result<(), Fail> {
    let document = "\
1.1 list version 0
linkage 2 unused 2 cost 0.000 length 0
word 0 Mary null
word 1 ran null
page shown 1 examined 1 next 3 more
1.2 more version 0
page shown 0 examined 0 next 3 end
journal 0
done
";
    let files = mary(rt.alloc(), "list 2 1 Mary ran\nmore\n")?;
    decides(&rt, rt.alloc(), "passing", files, document)
}

#[test]
fn passing_from_past_the_end(rt: HostRuntime) -> Result<(), Fail> {
    let document = "\
1.1 list version 0
page shown 0 examined 0 next 3 end
journal 0
done
";
    let files = mary(rt.alloc(), "list 9 1 Mary ran\n")?;
    decides(&rt, rt.alloc(), "passing", files, document)
}

#[test]
fn passing_does_not_list_a_further_level(rt: HostRuntime) -> Result<(), Fail> {
    let document = "\
1.1 list version 0
page shown 0 examined 0 next 3 end
journal 0
done
";
    let files = files_of(rt.alloc(), "x: (); y: ();", "", b"list 3 1 x y\n")?;
    decides(&rt, rt.alloc(), "passing", files, document)
}
