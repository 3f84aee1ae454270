//! Diagrams of linkages.
//!
//! A word is a pair: its text, and its connectors with a space behind each, those to the left first, each side from near to
//! far, as `Ds- Wd- Ss+ `. A word without connectors stays unlinked.
ghost use Rattle.std.specs.Prelude.{◌≡◌, ◌≤◌, length};

use lg_base::{Cost, Text, Texts};
use lg_gram::{
    Connector, Connectors, Disjunct, Disjuncts, Positions, Problem, Token, Tokens, Word,
};
use lg_rules::{PLAIN_POSITIONS, plain_list};
use lg_text::diagram;
use std::alloc::Global;
use std::process::Abort;
use std::test::Fail;

fn token(alloc: Global, text: &str) -> Result<Token, Fail> {
    let text = Text::of(alloc, text.as_bytes())?;
    let words = Texts::of(Vec::new(alloc));
    Ok(Token {
        from: 0,
        to: 0,
        text,
        words,
    })
}

fn tokens(alloc: Global, texts: &[&str]) -> Result<Tokens, Fail> {
    let mut items = Vec::new(alloc);
    for text in texts {
        items.push(token(alloc, *text)?)?;
    }
    Ok(Tokens::of(items))
}

// A connector as `Ss`, whose first letter is the capital.
fn connector(name: &[u8], is_right: bool) -> Result<Connector, Fail> {
    let (caps, subs) = name.split_at(name.len().min(1));
    let connector = Connector::of(caps, subs, false, is_right).ok_or("no connector")?;
    Ok(connector)
}

fn disjunct(alloc: Global, text: &str) -> Result<Disjunct, Fail> {
    let mut left = Vec::new(alloc);
    let mut right = Vec::new(alloc);
    for part in text.as_bytes().split(|b| *b == b' ') {
        if let Some((sign, name)) = part.split_last() {
            if *sign == b'+' {
                right.push(connector(name, true)?)?;
            } else {
                left.push(connector(name, false)?)?;
            }
        }
    }
    Ok(Disjunct {
        word: Word::of(alloc, text.as_bytes())?,
        left: Connectors::of(alloc, left)?,
        right: Connectors::of(alloc, right)?,
        cost: Cost::of(0),
    })
}

// The problem whose positions have one disjunct each, or none where the text is empty.
fn problem(alloc: Global, words: &[&str]) -> Result<Problem, Fail> {
    let mut positions = Vec::new(alloc);
    for word in words {
        let mut disjuncts = Vec::new(alloc);
        if !word.is_empty() {
            disjuncts.push(disjunct(alloc, *word)?)?;
        }
        positions.push(Disjuncts::of(disjuncts))?;
    }
    Ok(Problem::of(Positions::of(positions)).ok_or("no problem")?)
}

// The diagram of the best linkage.
fn best_diagram(alloc: Global, tokens: &Tokens, problem: &Problem) -> Result<Vec<u8>, Fail>
    requires few { length problem.now ≤ 8 }
    requires same_length { length tokens.now ≡ length problem.now }
{
    let list = plain_list(alloc, problem)?;
    if list.is_empty() {
        return Err("no linkage")?;
    }
    let text = diagram(alloc, tokens, &list[0])?;
    Ok(text)
}

// Wants this diagram of the best linkage of these words.
fn expect<R: Abort>(
    rt: &R,
    alloc: Global,
    texts: &[&str],
    words: &[&str],
    want: &str,
) -> Result<(), Fail> {
    let tokens = tokens(alloc, texts)?;
    let problem = problem(alloc, words)?;
    let count = problem.positions().len();
    if count > PLAIN_POSITIONS || tokens.items().len() != count {
        return Err("too many words, or not as many texts")?;
    }
    let text = best_diagram(alloc, &tokens, &problem)?;
    assert_eq!(rt; text.as_slice(), want.as_bytes());
    Ok(())
}

const BIG_CAT: &str = "+-----------Xp------------+
+-------Wd--------+       |
|         +---D---+       |
|         |   +-A-+-S-+   |
LEFT-WALL The big cat ran .
";

#[test]
fn links_lie_over_links(rt: HostRuntime) -> Result<(), Fail> {
    let texts = ["LEFT-WALL", "The", "big", "cat", "ran", "."];
    let words = ["Wd+ Xp+", "D+", "A+", "A- D- Wd- S+", "S-", "Xp-"];
    expect(&rt, rt.alloc(), &texts, &words, BIG_CAT)
}

const MARY: &str = "+-D-+----S-----+
the cat [Mary] ran
";

#[test]
fn an_unlinked_word_stands_in_brackets(rt: HostRuntime) -> Result<(), Fail> {
    let texts = ["the", "cat", "Mary", "ran"];
    let words = ["D+", "D- S+", "", "S-"];
    expect(&rt, rt.alloc(), &texts, &words, MARY)
}

#[test]
fn no_words_and_no_links(rt: HostRuntime) -> Result<(), Fail> {
    expect(&rt, rt.alloc(), &[], &[], "\n")?;
    expect(&rt, rt.alloc(), &["a", "b"], &["", ""], "[a] [b]\n")
}

const ACCENTS: &str = "+-Dmc-+-Ss-+
été   né   là
";

// `é` takes one column, and a label of three letters keeps a dash on each side.
#[test]
fn letters_of_two_bytes_and_long_labels(rt: HostRuntime) -> Result<(), Fail> {
    let texts = ["été", "né", "là"];
    let words = ["Dmc+", "Dmc- Ss+", "Ss-"];
    expect(&rt, rt.alloc(), &texts, &words, ACCENTS)
}

const APART: &str = "+----C----+
+-A-+ +-B-+
a   b c   d
";

#[test]
fn links_of_one_height_apart(rt: HostRuntime) -> Result<(), Fail> {
    let texts = ["a", "b", "c", "d"];
    let words = ["A+ C+", "A-", "B+", "B- C-"];
    expect(&rt, rt.alloc(), &texts, &words, APART)
}
