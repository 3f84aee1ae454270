//! Sentences and their tokens, by hand from the rules of link-parser's tokens.
ghost use Rattle.std.specs.Prelude.{◌≢◌, [], ◌∷◌, All, AllPairs, IfOk, IsTrue};
ghost use Rattle.lg_dict.specs.Dictionary.{AreEntries};

mod chunks;

use lg_base::{Text, Texts, write_bytes, write_number};
use lg_dict::{Dict, View};
use lg_gram::{Connector, Entry, Expr, Formula, Token, Tokens};
use lg_lex::{Separators, next_run};
use lg_token::{tokens, tokens_are_one_list};
use std::alloc::Global;
use std::process::Abort;
use std::test::Fail;

// Wants these tokens of a sentence, each as its span, its text and its words, in a dictionary of these words.
fn expect(
    rt: &impl Abort,
    alloc: Global,
    words: &str,
    sentence: &str,
    want: &str,
) -> Result<(), Fail> {
    let dict = dictionary(alloc, words.as_bytes())?;
    let view = View::of(alloc, &dict);
    assert!(rt; sentence.len() < 1000);
    let found = shown(alloc, &tokens(alloc, &view, sentence)?)?;
    assert!(rt; found.as_slice() == want.as_bytes(), "{sentence}");
    Ok(())
}

// A dictionary of the words that stand between blanks, with the formula `A+`.
fn dictionary(alloc: Global, words: &[u8]) -> Result<Dict, Fail> {
    dictionary_of(alloc, words, one_leaf()?)
}

pub(crate) fn one_leaf() -> Result<Expr, Fail> {
    let connector = Connector::of(b"A", b"", false, true).ok_or("a name")?;
    Ok(Expr::Conn(connector))
}

// The same with this formula.
pub(crate) fn dictionary_of(alloc: Global, words: &[u8], formula: Expr) -> Result<Dict, Fail> {
    let mut entries = Vec::new(alloc);
    entries.push(entry(alloc, words_in(alloc, words)?, formula)?)?;
    let dict = Dict::of(alloc, entries)?;
    Ok(dict)
}

fn entry(alloc: Global, words: Texts, formula: Expr) -> Result<Entry, Fail>
    requires { AllPairs (λ a b. a ≢ b) words }
    ensures { IfOk result (λ entry. AreEntries (entry ∷ [])) }
{
    let formula = Formula::of(formula).ok_or("a formula")?;
    // the call tells that the formula is within the limits
    let _expr = formula.expr();
    Ok(Entry {
        words,
        macros: Texts::of(Vec::new(alloc)),
        formula,
        level: 200,
        line: 1,
    })
}

// The texts between blanks, each once.
fn words_in(alloc: Global, text: &[u8]) -> Result<Texts, Fail>
    ensures { IfOk result (λ words. AllPairs (λ a b. a ≢ b) words) }
{
    let mut words = Vec::new(alloc);
    let mut from = 0;
    while let Some(run) = next_run(Separators::Blanks, text, from) {
        if is_new(&words, run.bytes) {
            words.push(Text::of(alloc, run.bytes)?)?;
        }
        from = run.end;
    }
    Ok(Texts::of(words))
}

fn is_new(words: &[Text], text: &[u8]) -> bool
    ensures { IsTrue result → All (λ word. word ≢ text.now) words.now }
{
    words.iter().all(|word| word.bytes() != text)
}

fn shown(alloc: Global, tokens: &Tokens) -> Result<Vec<u8>, Fail> {
    let mut out = Vec::new(alloc);
    for token in tokens.items() {
        show(&mut out, token)?;
    }
    Ok(out)
}

fn show(out: &mut Vec<u8>, token: &Token) -> Result<(), Fail> {
    write_number(out, u64::from(token.from))?;
    write_bytes(out, b"-")?;
    write_number(out, u64::from(token.to))?;
    write_bytes(out, b" ")?;
    write_bytes(out, token.text.bytes())?;
    for word in token.words.items() {
        write_bytes(out, b" ")?;
        write_bytes(out, word.bytes())?;
    }
    write_bytes(out, b";")?;
    Ok(())
}

#[test]
fn a_sentence_has_walls_and_signs(rt: HostRuntime) -> Result<(), Fail> {
    expect(
        &rt,
        rt.alloc(),
        "LEFT-WALL RIGHT-WALL.x the big cat.v cat.n ran .",
        "The big  cat ran.",
        "0-0 LEFT-WALL LEFT-WALL;0-3 The the;4-7 big big;9-12 cat cat.n cat.v;13-16 ran ran;16-17 . .;17-17 RIGHT-WALL RIGHT-WALL.x;",
    )?;
    expect(
        &rt,
        rt.alloc(),
        "RIGHT-WALL",
        " \t",
        "2-2 RIGHT-WALL RIGHT-WALL;",
    )?;
    expect(&rt, rt.alloc(), "a", "", "")
}

#[test]
fn the_first_word_is_lowered(rt: HostRuntime) -> Result<(), Fail> {
    expect(
        &rt,
        rt.alloc(),
        "the The.x",
        "The The",
        "0-3 The The.x the;4-7 The The.x;",
    )?;
    expect(
        &rt,
        rt.alloc(),
        "the \"",
        "\"The The",
        "0-1 \" \";1-4 The the;5-8 The;",
    )
}

#[test]
fn the_possessive_is_cut_off(rt: HostRuntime) -> Result<(), Fail> {
    expect(&rt, rt.alloc(), "it 's.v", "It's", "0-2 It it;2-4 's 's.v;")?;
    expect(&rt, rt.alloc(), "it", "It's", "0-4 It's;")?;
    expect(&rt, rt.alloc(), "it's 's", "It's", "0-4 It's it's;")?;
    expect(&rt, rt.alloc(), "'s", "'s", "0-2 's 's;")?;
    expect(&rt, rt.alloc(), "s", "'s", "0-1 ';1-2 s s;")
}

#[test]
fn signs_are_cut_off(rt: HostRuntime) -> Result<(), Fail> {
    expect(
        &rt,
        rt.alloc(),
        ". !",
        "(\"end.)!",
        "0-1 (;1-2 \";2-5 end;5-6 . .;6-7 );7-8 ! !;",
    )?;
    expect(&rt, rt.alloc(), "?", ". ..", "0-1 .;2-3 .;3-4 .;")?;
    expect(
        &rt,
        rt.alloc(),
        "Mr. .",
        "Mr. X.",
        "0-3 Mr. Mr.;4-5 X;5-6 . .;",
    )?;
    expect(&rt, rt.alloc(), "été", "(été)", "0-1 (;1-6 été été;6-7 );")
}

#[test]
fn special_words_stand_for_others(rt: HostRuntime) -> Result<(), Fail> {
    expect(
        &rt,
        rt.alloc(),
        "NUMBERS UNKNOWN-WORD.n",
        "3.5 zork 1,234. 5a",
        "0-3 3.5 NUMBERS;4-8 zork UNKNOWN-WORD.n;9-14 1,234 NUMBERS;14-15 . UNKNOWN-WORD.n;16-18 5a UNKNOWN-WORD.n;",
    )?;
    expect(
        &rt,
        rt.alloc(),
        "CAPITALIZED-WORDS HYPHENATED-WORDS UNKNOWN-WORD",
        "Bob well-known -x a- --",
        "0-3 Bob CAPITALIZED-WORDS;4-14 well-known HYPHENATED-WORDS;15-17 -x UNKNOWN-WORD;18-20 a- UNKNOWN-WORD;21-23 -- UNKNOWN-WORD;",
    )?;
    expect(
        &rt,
        rt.alloc(),
        "HYPHENATED-WORDS",
        "A-b 7",
        "0-3 A-b HYPHENATED-WORDS;4-5 7;",
    )
}

#[test]
fn the_law_does_nothing() {
    tokens_are_one_list();
}
