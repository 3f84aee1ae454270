//! Words, files and streams that end a run before its page, and the line that is written of each.
use super::*;

const USAGE: &str = "lgparse: the words are not a command of this program\n";

// Wants these words to be in no form, with bars between them.
fn formless<R: Abort + Threads + Sync>(rt: &R, alloc: Global, text: &str) -> Result<(), Fail> {
    let files = dictionary_of(alloc, b"x: A+;")?;
    let words = words_of(alloc, text)?;
    expect(rt, alloc, files, &words, Status::Usage, "", USAGE)
}

#[test]
fn no_words(rt: HostRuntime) -> Result<(), Fail> {
    formless(&rt, rt.alloc(), "")
}

#[test]
fn too_few_or_too_many_operands(rt: HostRuntime) -> Result<(), Fail> {
    for text in ["one", "one|d", "one|d|x|y", "run|d|k"] {
        formless(&rt, rt.alloc(), text)?;
    }
    Ok(())
}

#[test]
fn operands_that_begin_with_a_hyphen(rt: HostRuntime) -> Result<(), Fail> {
    for text in [
        "one|-d|x",
        "one|d|-x",
        "one|--|d|x",
        "run|d|-|s",
        "run|d|k|s|-t",
    ] {
        formless(&rt, rt.alloc(), text)?;
    }
    Ok(())
}

#[test]
fn another_first_word(rt: HostRuntime) -> Result<(), Fail> {
    for text in ["two|d|x", "One|d|x", "|d|x", "--want=1|one|d|x"] {
        formless(&rt, rt.alloc(), text)?;
    }
    Ok(())
}

#[test]
fn numbers_that_are_none(rt: HostRuntime) -> Result<(), Fail> {
    for text in [
        "one|--want|0|d|x",
        "one|--want=1000001|d|x",
        "one|--want=00000001|d|x",
        "one|--want=+1|d|x",
        "one|--want=|d|x",
        "one|--want||d|x",
        "one|--want=1=2|d|x",
        "one|--workers|0|d|x",
        "one|--workers=17|d|x",
        "one|--workers|x|d|x",
    ] {
        formless(&rt, rt.alloc(), text)?;
    }
    Ok(())
}

#[test]
fn options_that_are_none(rt: HostRuntime) -> Result<(), Fail> {
    for text in [
        "one|--want|d|x",
        "one|--wants=1|d|x",
        "one|-want=1|d|x",
        "one|--prune=maybe|d|x",
        "one|--stats=on=off|d|x",
        "one|--nulls|second|d|x",
        "one|--nulls=First|d|x",
        "one|--nulls=first|--nulls=passing|d|x",
        "one|--usage=on|d|x",
        "run|--usage|maybe|d|k|s",
        "one|--help|d|x",
        "--help",
        "--version",
        "one|--want|1|--want|2|d|x",
        "one|--want|1|--examine=2|--want=1|d|x",
        "one|d|--want=1|x",
        "one|d|x|--want=1",
    ] {
        formless(&rt, rt.alloc(), text)?;
    }
    Ok(())
}

#[test]
fn sixty_five_scripts(rt: HostRuntime) -> Result<(), Fail> {
    let files = dictionary_of(rt.alloc(), b"x: A+;")?;
    let mut words = words_of(rt.alloc(), "run|d|k")?;
    for _ in 0..65 {
        words.push(String::from_str(rt.alloc(), "s1")?)?;
    }
    expect(&rt, rt.alloc(), files, &words, Status::Usage, "", USAGE)
}

// Wants this line of a dictionary that is refused.
fn refused<R: Abort + Threads + Sync>(
    rt: &R,
    alloc: Global,
    text: &[u8],
    line: &str,
) -> Result<(), Fail> {
    let files = dictionary_of(alloc, text)?;
    refuses(rt, alloc, files, Status::BadInput, line)
}

#[test]
fn end_of_text_inside_an_entry(rt: HostRuntime) -> Result<(), Fail> {
    refused(
        &rt,
        rt.alloc(),
        b"x: (A+",
        "lgparse: d: line 1 column 7: syntax\n",
    )
}

#[test]
fn connector_of_17_letters(rt: HostRuntime) -> Result<(), Fail> {
    let line = "lgparse: d: line 1 column 4: syntax\n";
    refused(&rt, rt.alloc(), b"x: AAAAAAAAAAAAAAAAA+;", line)
}

#[test]
fn byte_255_in_a_dictionary(rt: HostRuntime) -> Result<(), Fail> {
    refused(
        &rt,
        rt.alloc(),
        b"x: \xFFA+;",
        "lgparse: d: byte 3 is not UTF-8\n",
    )
}

#[test]
fn word_on_two_lines(rt: HostRuntime) -> Result<(), Fail> {
    let line = "lgparse: d: a is defined on lines 1 and 2\n";
    refused(&rt, rt.alloc(), b"a: X+;\nb a: Y+;\n", line)
}

#[test]
fn macro_that_is_not_defined(rt: HostRuntime) -> Result<(), Fail> {
    refused(
        &rt,
        rt.alloc(),
        b"x: <m>;",
        "lgparse: d: line 1: unknown macro <m>\n",
    )
}

#[test]
fn cost_with_four_digits_after_the_point(rt: HostRuntime) -> Result<(), Fail> {
    refused(
        &rt,
        rt.alloc(),
        b"x: [A+]0.2500;",
        "lgparse: d: line 1: cost form\n",
    )
}

#[test]
fn cost_above_ten_thousand(rt: HostRuntime) -> Result<(), Fail> {
    refused(
        &rt,
        rt.alloc(),
        b"x: [A+]10000.001;",
        "lgparse: d: line 1: cost form\n",
    )
}

#[test]
fn missing_dictionary(rt: HostRuntime) -> Result<(), Fail> {
    let files = MemFiles::new(rt.alloc());
    refuses(
        &rt,
        rt.alloc(),
        files,
        Status::ReadFault,
        "lgparse: cannot read d\n",
    )
}

#[test]
fn dictionary_that_fails(rt: HostRuntime) -> Result<(), Fail> {
    let mut files = dictionary_of(rt.alloc(), b"x: A+;")?;
    files.fail_at(1)?;
    refuses(
        &rt,
        rt.alloc(),
        files,
        Status::ReadFault,
        "lgparse: cannot read d\n",
    )
}

#[test]
fn dictionary_past_64_mebibytes(rt: HostRuntime) -> Result<(), Fail> {
    let text = made(rt.alloc(), b"", &[b' '; 64], 1 << 20, b" ")?;
    refused(
        &rt,
        rt.alloc(),
        &text,
        "lgparse: d is longer than 67108864 bytes\n",
    )
}

#[test]
fn missing_word_file(rt: HostRuntime) -> Result<(), Fail> {
    let files = dictionary_of(rt.alloc(), b"/w: A+;")?;
    refuses(
        &rt,
        rt.alloc(),
        files,
        Status::ReadFault,
        "lgparse: cannot read w\n",
    )
}

// The files `d`, which names the word files `v` and `w`, `v`, and `w` of these bytes.
fn word_files(alloc: Global, words: &[u8]) -> Result<MemFiles, Fail> {
    let mut files = dictionary_of(alloc, b"y /v: A+;\n/w: B+;")?;
    files.add("v", b"p q")?;
    files.add("w", words)?;
    Ok(files)
}

#[test]
fn word_file_that_fails(rt: HostRuntime) -> Result<(), Fail> {
    let mut files = word_files(rt.alloc(), b"r")?;
    files.fail_at(3)?;
    refuses(
        &rt,
        rt.alloc(),
        files,
        Status::ReadFault,
        "lgparse: cannot read w\n",
    )
}

#[test]
fn word_file_past_64_mebibytes(rt: HostRuntime) -> Result<(), Fail> {
    let words = made(rt.alloc(), b"", &[b' '; 64], 1 << 20, b" ")?;
    let files = word_files(rt.alloc(), &words)?;
    let line = "lgparse: w is longer than 67108864 bytes\n";
    refuses(&rt, rt.alloc(), files, Status::BadInput, line)
}

#[test]
fn word_file_that_is_not_utf8(rt: HostRuntime) -> Result<(), Fail> {
    let files = word_files(rt.alloc(), b"r \xC3")?;
    let line = "lgparse: w: byte 2 is not UTF-8\n";
    refuses(&rt, rt.alloc(), files, Status::BadInput, line)
}

#[test]
fn word_of_a_word_file_twice(rt: HostRuntime) -> Result<(), Fail> {
    let files = word_files(rt.alloc(), b"r q")?;
    let line = "lgparse: d: q is defined on lines 1 and 2\n";
    refuses(&rt, rt.alloc(), files, Status::BadInput, line)
}

// A fault of the output has its status and line; one of the stream of errors changes no status.
#[test]
fn faults(rt: HostRuntime) -> Result<(), Fail> {
    let alloc = rt.alloc();
    let mut files = dictionary_of(alloc, FIRST.as_bytes())?;
    let words = one(alloc, "Mary ran")?;
    let mut out = MemSink::new(alloc, 10)?;
    let mut err = MemSink::new(alloc, 33)?;
    let status = run(
        &rt, alloc, &words, &mut files, &mut out, &mut err, &FreeGate,
    );
    assert_eq!(rt; status, Status::WriteFault);
    assert_eq!(rt; out.bytes(), b"linkage 1 ".as_slice());
    assert_eq!(rt;
        err.bytes(),
        b"lgparse: cannot write the output\n".as_slice()
    );
    let status = run(
        &rt, alloc, &words, &mut files, &mut out, &mut err, &FreeGate,
    );
    assert_eq!(rt; status, Status::WriteFault);
    files.fail_at(3)?;
    let status = run(
        &rt, alloc, &words, &mut files, &mut out, &mut err, &FreeGate,
    );
    assert_eq!(rt; status, Status::ReadFault);
    Ok(())
}
