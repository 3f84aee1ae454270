//! Sessions, from their script to the document.
use super::*;

// Wants this document of the script where file `d` holds the dictionary and file `k` the knowledge.
fn documents<R: Abort + Threads + Sync>(
    rt: &R,
    alloc: Global,
    dictionary: &str,
    knowledge: &str,
    script: &str,
    document: &str,
) -> Result<(), Fail> {
    let files = files_of(alloc, dictionary, knowledge, script.as_bytes())?;
    let words = words_of(alloc, "run|d|k|s1")?;
    expect(rt, alloc, files, &words, Status::Done, document, "")
}

const SHARING: &str = "w: @A+ & @A+; z: A-;";

#[test]
fn more_goes_on_and_ends(rt: HostRuntime) -> Result<(), Fail> {
    let document = "\
1.1 list version 0
linkage 1 unused 0 cost 0.000 length 6
word 0 w w - @A,@A 0.000
word 1 z z A - 0.000
word 2 z z A - 0.000
word 3 z z A - 0.000
link 0 1 A 0 0
link 0 2 A 0 0
link 0 3 A 1 0
page shown 1 examined 1 next 2 more
1.2 more version 0
linkage 2 unused 0 cost 0.000 length 6
word 0 w w - @A,@A 0.000
word 1 z z A - 0.000
word 2 z z A - 0.000
word 3 z z A - 0.000
link 0 1 A 0 0
link 0 2 A 1 0
link 0 3 A 1 0
page shown 1 examined 1 next 3 more
1.3 more version 0
page shown 0 examined 0 next 3 end
journal 0
done
";
    let script = "list 1 1 w z z z\nmore\nmore\n";
    documents(&rt, rt.alloc(), SHARING, "", script, document)
}

#[test]
fn list_from_past_the_end(rt: HostRuntime) -> Result<(), Fail> {
    let document = "\
1.1 list version 0
page shown 0 examined 0 next 3 end
journal 0
done
";
    documents(&rt, rt.alloc(), SHARING, "", "list 6 1 w z z z\n", document)
}

#[test]
fn a_rule_fails_the_first_linkage(rt: HostRuntime) -> Result<(), Fail> {
    let dictionary = "x: (A+ & B+) or [C+ & B+]; y: A- or C-; z: B-;";
    let document = "\
1.1 parse version 0
fail 1 rule 1 link 0 1
linkage 2 unused 0 cost 1.000 length 3
word 0 x x - C,B 1.000
word 1 y y C - 0.000
word 2 z z B - 0.000
link 0 1 C 0 0
link 0 2 B 1 0
page shown 1 examined 2 next 3 end
journal 0
done
";
    let knowledge = "none: A { B };";
    documents(
        &rt,
        rt.alloc(),
        dictionary,
        knowledge,
        "parse x y z\n",
        document,
    )
}

const OF_B: &str = "\
linkage 1 unused 0 cost 0.000 length 1
word 0 x x - B 0.000
word 1 y y B - 0.000
link 0 1 B 0 0
page shown 1 examined 1 next 2 end
";

const OF_A: &str = "\
linkage 1 unused 0 cost 0.000 length 1
word 0 x x - A 0.000
word 1 y y A - 0.000
link 0 1 A 0 0
page shown 1 examined 1 next 2 end
";

#[test]
fn an_edit_changes_the_next_listing(rt: HostRuntime) -> Result<(), Fail> {
    let last = "\
1.4 more version 1
page shown 0 examined 0 next 2 end
journal 1
edit 1 1.2
done
";
    let alloc = rt.alloc();
    let parts = [
        "1.1 parse version 0\n",
        OF_B,
        "1.2 set version 1\n1.3 parse version 1\n",
        OF_A,
        last,
    ];
    let document = all(alloc, &parts)?;
    let script = "parse x y\nset x: A+;\nparse x y\nmore\n";
    documents(
        &rt,
        alloc,
        "x: B+; y: A- or B-;",
        "",
        script,
        document.as_str(),
    )
}

// Wants this document of the script with the totals of usage.
fn counts<R: Abort + Threads + Sync>(
    rt: &R,
    alloc: Global,
    dictionary: &str,
    script: &str,
    document: &str,
) -> Result<(), Fail> {
    let files = files_of(alloc, dictionary, "", script.as_bytes())?;
    let words = words_of(alloc, "run|--usage|on|d|k|s1")?;
    expect(rt, alloc, files, &words, Status::Done, document, "")
}

#[test]
fn usage_totals_of_two_listings(rt: HostRuntime) -> Result<(), Fail> {
    let last = "\
1.4 more version 1
page shown 0 examined 0 next 2 end
journal 1
edit 1 1.2
usage word x 2
usage word y 2
usage label A 1
usage label B 1
done
";
    let alloc = rt.alloc();
    let parts = [
        "1.1 parse version 0\n",
        OF_B,
        "1.2 set version 1\n1.3 parse version 1\n",
        OF_A,
        last,
    ];
    let document = all(alloc, &parts)?;
    let script = "parse x y\nset x: A+;\nparse x y\nmore\n";
    counts(&rt, alloc, "x: B+; y: A- or B-;", script, document.as_str())
}

#[test]
fn usage_without_a_listing(rt: HostRuntime) -> Result<(), Fail> {
    let document = "\
1.1 set refused at 0: unknown macro <none>
1.2 del refused at 0: no such word
1.3 more nothing held
1.4 version 0
journal 0
done
";
    let script = "set x: <none>;\ndel absent\nmore\nversion\n";
    counts(&rt, rt.alloc(), "x: A+;", script, document)
}

#[test]
fn more_keeps_its_version_after_an_edit(rt: HostRuntime) -> Result<(), Fail> {
    let document = "\
1.1 list version 0
linkage 1 unused 0 cost 0.000 length 6
word 0 w w - @A,@A 0.000
word 1 z z A - 0.000
word 2 z z A - 0.000
word 3 z z A - 0.000
link 0 1 A 0 0
link 0 2 A 0 0
link 0 3 A 1 0
page shown 1 examined 1 next 2 more
1.2 set version 1
1.3 more version 0
linkage 2 unused 0 cost 0.000 length 6
word 0 w w - @A,@A 0.000
word 1 z z A - 0.000
word 2 z z A - 0.000
word 3 z z A - 0.000
link 0 1 A 0 0
link 0 2 A 1 0
link 0 3 A 1 0
page shown 1 examined 1 next 3 more
journal 1
edit 1 1.2
done
";
    let script = "list 1 1 w z z z\nset w: A+;\nmore\n";
    documents(&rt, rt.alloc(), SHARING, "", script, document)
}

#[test]
fn refusals_and_replies_without_a_listing(rt: HostRuntime) -> Result<(), Fail> {
    let document = "\
1.1 set refused at 0: unknown macro <none>
1.2 del refused at 0: no such word
1.3 more nothing held
1.4 version 0
journal 0
done
";
    let script = "set x: <none>;\ndel absent\nmore\nversion\n";
    documents(&rt, rt.alloc(), "x: A+;", "", script, document)
}

#[test]
fn macros_are_bound_when_set(rt: HostRuntime) -> Result<(), Fail> {
    let first = "\
1.1 macro version 1
1.2 set version 2
1.3 macro version 3
1.4 parse version 3
";
    let last = "\
journal 3
edit 1 1.1
edit 2 1.2
edit 3 1.3
done
";
    let alloc = rt.alloc();
    let document = all(alloc, &[first, OF_A, last])?;
    let script = "macro <m>: A+;\nset x: <m>;\nmacro <m>: B+;\nparse x y\n";
    documents(&rt, alloc, "y: A- or B-;", "", script, document.as_str())
}

#[test]
fn empty_script(rt: HostRuntime) -> Result<(), Fail> {
    documents(&rt, rt.alloc(), "x: A+;", "", "", "journal 0\ndone\n")
}

#[test]
fn deleted_word_stays_unlinked(rt: HostRuntime) -> Result<(), Fail> {
    let document = "\
1.1 del version 1
1.2 parse version 1
linkage 1 unused 2 cost 0.000 length 0
word 0 x null
word 1 y null
page shown 1 examined 1 next 2 end
journal 1
edit 1 1.1
done
";
    let script = "del x\nparse x y\n";
    documents(&rt, rt.alloc(), "x: A+; y: A-;", "", script, document)
}

const MANY: &str = "<t>: A+ or A+ or A+ or A+ or A+ or A+ or A+ or A+ or A+ or A+;
x: <t> & <t> & <t> & <t> & <t> & <t>;
";

#[test]
fn five_million_choices_are_too_many(rt: HostRuntime) -> Result<(), Fail> {
    let document = "1.1 parse version 0 too many choices 5000000\njournal 0\ndone\n";
    documents(&rt, rt.alloc(), MANY, "", "parse x x x x x\n", document)
}

// Edits that the measures of an entry refuse, with what was counted.
#[test]
fn large_edits_are_refused(rt: HostRuntime) -> Result<(), Fail> {
    let script = "\
set y: <t> & <t> & <t> & <t> & <t> & <t> & <t>;
macro <d>: A+ & A+;
macro <d>: <d> & <d>;
macro <d>: <d> & <d>;
macro <d>: <d> & <d>;
macro <d>: <d> & <d>;
macro <d>: <d> & <d>;
macro <d>: <d> & <d>;
macro <d>: <d> & <d>;
";
    let document = "\
1.1 set refused at 0: too many choices 10000000
1.2 macro version 1
1.3 macro version 2
1.4 macro version 3
1.5 macro version 4
1.6 macro version 5
1.7 macro version 6
1.8 macro version 7
1.9 macro refused at 7: too many connectors on a side 256
journal 7
edit 1 1.2
edit 2 1.3
edit 3 1.4
edit 4 1.5
edit 5 1.6
edit 6 1.7
edit 7 1.8
done
";
    documents(&rt, rt.alloc(), MANY, "", script, document)
}

#[test]
fn options_set_the_pages(rt: HostRuntime) -> Result<(), Fail> {
    let document = "\
1.1 parse version 0
linkage 1 unused 1 cost 0.000 length 0
word 0 x null
word 1 y y - - 0.000
page shown 1 examined 1 next 2 more
1.2 list version 0
linkage 1 unused 1 cost 0.000 length 0
word 0 x null
word 1 y y - - 0.000
page shown 1 examined 1 next 2 more
journal 0
done
";
    let alloc = rt.alloc();
    let files = files_of(alloc, "x: (); y: ();", "", b"parse x y\nlist 1 5 x y\n")?;
    let words = words_of(alloc, "run|--examine=1|--want|1|d|k|s1")?;
    expect(&rt, alloc, files, &words, Status::Done, document, "")
}

// With the two numbers exchanged the page would end at its first line; with none it would show a further linkage.
#[test]
fn options_are_taken_by_name(rt: HostRuntime) -> Result<(), Fail> {
    let document = "\
1.1 parse version 0
fail 1 rule 1 link 0 1
linkage 2 unused 0 cost 1.000 length 3
word 0 x x - C,B 1.000
word 1 y y C - 0.000
word 2 z z B - 0.000
link 0 1 C 0 0
link 0 2 B 1 0
page shown 1 examined 2 next 3 more
journal 0
done
";
    let alloc = rt.alloc();
    let dictionary = "x: (A+ & B+) or [C+ & B+] or [[E+ & B+]]; y: A- or C- or E-; z: B-;";
    let mut files = dictionary_of(alloc, dictionary.as_bytes())?;
    files.add("k", b"none: A { B };")?;
    files.add("s=1", b"parse x y z\n")?;
    let words = words_of(alloc, "run|--examine=0070|--want|01|d|k|s=1")?;
    expect(&rt, alloc, files, &words, Status::Done, document, "")
}

// Wants that nothing is written but this line where the knowledge and the script are these.
fn refused<R: Abort + Threads + Sync>(
    rt: &R,
    alloc: Global,
    knowledge: &str,
    script: &[u8],
    line: &str,
) -> Result<(), Fail> {
    let files = files_of(alloc, FIRST, knowledge, script)?;
    let words = words_of(alloc, "run|d|k|s1")?;
    expect(rt, alloc, files, &words, Status::BadInput, "", line)
}

#[test]
fn knowledge_without_its_semicolon(rt: HostRuntime) -> Result<(), Fail> {
    let line = "lgparse: k: line 1 column 11: syntax\n";
    refused(&rt, rt.alloc(), "start: e C", b"version\n", line)
}

#[test]
fn knowledge_with_another_section(rt: HostRuntime) -> Result<(), Fail> {
    let line = "lgparse: k: line 1: unknown section\n";
    refused(&rt, rt.alloc(), "some: A;", b"version\n", line)
}

#[test]
fn knowledge_with_a_small_pattern(rt: HostRuntime) -> Result<(), Fail> {
    let line = "lgparse: k: line 1: pattern\n";
    refused(&rt, rt.alloc(), "none: a { B };", b"version\n", line)
}

#[test]
fn knowledge_with_a_capital_kind(rt: HostRuntime) -> Result<(), Fail> {
    let line = "lgparse: k: line 1: domain type\n";
    refused(&rt, rt.alloc(), "bounded: E;", b"version\n", line)
}

#[test]
fn unknown_command(rt: HostRuntime) -> Result<(), Fail> {
    let line = "lgparse: s1: line 2: unknown command\n";
    refused(&rt, rt.alloc(), "", b"version\nhalt\n", line)
}

#[test]
fn list_from_zero(rt: HostRuntime) -> Result<(), Fail> {
    let line = "lgparse: s1: line 1: number\n";
    refused(&rt, rt.alloc(), "", b"list 0 1 x\n", line)
}

#[test]
fn set_of_a_macro(rt: HostRuntime) -> Result<(), Fail> {
    let line = "lgparse: s1: line 1: edit\n";
    refused(&rt, rt.alloc(), "", b"set <m>: A+;\n", line)
}

#[test]
fn script_that_is_not_utf8(rt: HostRuntime) -> Result<(), Fail> {
    let line = "lgparse: s1: byte 6 is not UTF-8\n";
    refused(&rt, rt.alloc(), "", b"parse \xFF", line)
}

// Wants that nothing is written but this line where these are two scripts.
fn refused_of_two<R: Abort + Threads + Sync>(
    rt: &R,
    alloc: Global,
    first: &[u8],
    second: &[u8],
    line: &str,
) -> Result<(), Fail> {
    let mut files = files_of(alloc, FIRST, "", first)?;
    files.add("s2", second)?;
    let words = words_of(alloc, "run|d|k|s1|s2")?;
    expect(rt, alloc, files, &words, Status::BadInput, "", line)
}

#[test]
fn edits_of_two_scripts_past_100000(rt: HostRuntime) -> Result<(), Fail> {
    let first = made(rt.alloc(), b"", b"del x\n", 50_000, b"")?;
    let second = made(rt.alloc(), b"", b"del x\n", 50_001, b"")?;
    let line = "lgparse: s2: more than 100000 edits\n";
    refused_of_two(&rt, rt.alloc(), &first, &second, line)
}

#[test]
fn unknown_command_of_the_second_script(rt: HostRuntime) -> Result<(), Fail> {
    let line = "lgparse: s2: line 1: unknown command\n";
    refused_of_two(&rt, rt.alloc(), b"version\n", b"halt\n", line)
}

// Whether the document is one of two: the session whose edit is the first asks for the version before the second edit, or after it.
fn is_in_order(document: &[u8], before: &str, after: &str) -> bool {
    document == before.as_bytes() || document == after.as_bytes()
}

const FIRST_BEFORE: &str = "\
1.1 set version 1
1.2 version 1
2.1 set version 2
2.2 version 2
journal 2
edit 1 1.1
edit 2 2.1
done
";

const FIRST_AFTER: &str = "\
1.1 set version 1
1.2 version 2
2.1 set version 2
2.2 version 2
journal 2
edit 1 1.1
edit 2 2.1
done
";

const SECOND_BEFORE: &str = "\
1.1 set version 2
1.2 version 2
2.1 set version 1
2.2 version 1
journal 2
edit 1 2.1
edit 2 1.1
done
";

const SECOND_AFTER: &str = "\
1.1 set version 2
1.2 version 2
2.1 set version 1
2.2 version 2
journal 2
edit 1 2.1
edit 2 1.1
done
";

// The sessions run at once, so that either edit may be the first.
#[test]
fn two_sessions_edit_one_dictionary(rt: HostRuntime) -> Result<(), Fail> {
    let alloc = rt.alloc();
    let mut files = files_of(alloc, "y: A- or B-;", "", b"set x: A+;\nversion\n")?;
    files.add("s2", b"set x: B+;\nversion\n")?;
    let words = words_of(alloc, "run|d|k|s1|s2")?;
    let mut out = MemSink::new(alloc, ROOM)?;
    let mut err = MemSink::new(alloc, ROOM)?;
    let status = run(
        &rt, alloc, &words, &mut files, &mut out, &mut err, &FreeGate,
    );
    let first = is_in_order(out.bytes(), FIRST_BEFORE, FIRST_AFTER);
    let second = is_in_order(out.bytes(), SECOND_BEFORE, SECOND_AFTER);
    assert_eq!(rt; status, Status::Done);
    assert!(rt; first || second);
    Ok(())
}

// Wants this file to be missing, where the dictionary names the word file `w`.
fn missing<R: Abort + Threads + Sync>(
    rt: &R,
    alloc: Global,
    files: MemFiles,
    line: &str,
) -> Result<(), Fail> {
    let words = words_of(alloc, "run|d|k|s1")?;
    expect(rt, alloc, files, &words, Status::ReadFault, "", line)
}

#[test]
fn missing_word_file(rt: HostRuntime) -> Result<(), Fail> {
    let files = files_of(rt.alloc(), "x: A+; /w: B+;", "", b"")?;
    missing(&rt, rt.alloc(), files, "lgparse: cannot read w\n")
}

#[test]
fn missing_knowledge_file(rt: HostRuntime) -> Result<(), Fail> {
    let mut files = dictionary_of(rt.alloc(), b"x: A+; /w: B+;")?;
    files.add("w", b"")?;
    files.add("s1", b"")?;
    missing(&rt, rt.alloc(), files, "lgparse: cannot read k\n")
}

#[test]
fn missing_script(rt: HostRuntime) -> Result<(), Fail> {
    let mut files = dictionary_of(rt.alloc(), b"x: A+; /w: B+;")?;
    files.add("w", b"")?;
    files.add("k", b"")?;
    missing(&rt, rt.alloc(), files, "lgparse: cannot read s1\n")
}

#[test]
fn sink_fails_at_second_call(rt: HostRuntime) -> Result<(), Fail> {
    let alloc = rt.alloc();
    let mut files = files_of(alloc, "x: A+;", "", b"version\nversion\n")?;
    let words = words_of(alloc, "run|d|k|s1")?;
    let mut out = MemSink::new(alloc, ROOM)?;
    let mut err = MemSink::new(alloc, ROOM)?;
    out.fail_at(2)?;
    let status = run(
        &rt, alloc, &words, &mut files, &mut out, &mut err, &FreeGate,
    );
    assert_eq!(rt; status, Status::WriteFault);
    assert_eq!(rt; out.bytes(), b"1.1 version 0\n1.2 ver".as_slice());
    assert_eq!(rt;
        err.bytes(),
        b"lgparse: cannot write the output\n".as_slice()
    );
    Ok(())
}
