//! The words of the command line. Their form is tested without taking memory.
ghost use Rattle.std.specs.Prelude.{◌≡◌, ℕ, List, [], ◌∷◌, MatchOption, map, string_bytes, codes};
ghost use Rattle.std.specs.List.{list_all};
ghost use Rattle.lg_run.specs.Words.{Task, TaskIs, is_operand};
ghost use Rattle.lg_run.specs.Commands.{option_words, IsCommand};

use crate::number::{edit_count_of, made_count_of, seed_of};
use crate::options::{ONE, RUN, cut_options, is_operand};
use lg_dictread::FILE;

/// What the words ask for, with the words that are its options.
#[derive(Clone, Copy, Debug, PartialEq, Eq)]
pub enum Command<'a> {
    /// The linkages of one sentence.
    One {
        options: &'a [String],
        dictionary: &'a str,
        sentence: &'a str,
    },
    /// The answers to scripts.
    Run {
        options: &'a [String],
        dictionary: &'a str,
        knowledge: &'a str,
        scripts: &'a [String],
    },
    /// The sums of a made session.
    Gen {
        seed: u32,
        words: u32,
        sentences: u32,
    },
    /// The text of a version.
    Export {
        dictionary: &'a str,
        script: &'a String,
        /// How many edits are made.
        number: u32,
    },
    /// Whether a document of scripts is right.
    Audit {
        dictionary: &'a str,
        knowledge: &'a str,
        document: &'a str,
        scripts: &'a [String],
    },
}

impl<'a> Command<'a> {
    /// The words that are its options.
    pub fn options(&self) -> &'a [String]
        ensures { map string_bytes result.now ≡ option_words self.now }
    {
        match self {
            Command::One { options, .. } | Command::Run { options, .. } => options,
            Command::Gen { .. } | Command::Export { .. } | Command::Audit { .. } => &[],
        }
    }
}

// The most bytes of a sentence: as many as a file may have.
const SENTENCE: usize = FILE as usize;

// The most scripts.
const SCRIPTS: usize = 64;

/// The command that the words ask for. None where they are in no form.
///
/// The first word is `one`, `run`, `gen`, `export` or `audit`. After the first two stand options, each at most once and in any
/// order, in two words or joined by `=`: `--want N` and `--examine N`, where N is one to seven digits that write a number from 1 to
/// 1,000,000, `--nulls first` or `--nulls passing`, `--prune`, `--stats`, `--diagram` and `--idioms`, each with `on` or `off`,
/// and `--workers N`, where N is such a number from 1 to 16; and after `run` alone `--usage` with `on` or `off`. If an option is
/// left out, want is 10, examine is 1000, nulls is first, prune is on, stats, diagram, idioms and usage are off, and workers is
/// 1. Operands are last, and none of them begins with `-`: `one` has two, DICT and SENTENCE, of which the second has at most
/// 67,108,864 bytes, and `run` has DICT, KNOWLEDGE and 1 to 64 scripts. After `gen` stand three words of digits alone: a seed of
/// up to ten digits that write a number below 2^32, and the numbers of words and of sentences, each of up to six digits that
/// write a number from 1 to 100,000. After `export` stand DICT and SCRIPT, which do not begin with `-`, and the number of edits:
/// up to six digits that write a number up to 100,000. After `audit` stand DICT, KNOWLEDGE, DOCUMENT and 1 to 64 scripts, none of
/// which begins with `-`.
pub fn command_of(words: &[String]) -> Option<Command<'_>>
    ensures { MatchOption result
        ((t : Task) → TaskIs (map string_bytes words.now) t → ⊥)
        (IsCommand (map string_bytes words.now)) }
{
    let (word, rest) = words.split_first()?;
    match word.as_str() {
        "one" => one_of(rest),
        "run" => run_of(rest),
        "gen" => gen_of(rest),
        "export" => export_of(rest),
        "audit" => audit_of(rest),
        _ => None,
    }
}

fn one_of(words: &[String]) -> Option<Command<'_>>
    ensures { MatchOption result
        ((t : Task) → TaskIs (codes "one" ∷ map string_bytes words.now) t → ⊥)
        (IsCommand (codes "one" ∷ map string_bytes words.now)) }
{
    let cut = cut_options(&ONE, words)?;
    let (dictionary, sentence) = two_of(cut.behind)?;
    if !is_operand(dictionary) || !is_operand(sentence) || sentence.len() > SENTENCE {
        return None;
    }
    Some(Command::One {
        options: cut.options,
        dictionary,
        sentence,
    })
}

fn run_of(words: &[String]) -> Option<Command<'_>>
    ensures { MatchOption result
        ((t : Task) → TaskIs (codes "run" ∷ map string_bytes words.now) t → ⊥)
        (IsCommand (codes "run" ∷ map string_bytes words.now)) }
{
    let cut = cut_options(&RUN, words)?;
    let (dictionary, knowledge, scripts) = two_and_more(cut.behind)?;
    if scripts.is_empty() || scripts.len() > SCRIPTS || !are_operands(cut.behind) {
        return None;
    }
    Some(Command::Run {
        options: cut.options,
        dictionary,
        knowledge,
        scripts,
    })
}

fn gen_of(words: &[String]) -> Option<Command<'_>>
    ensures { MatchOption result
        ((t : Task) → TaskIs (codes "gen" ∷ map string_bytes words.now) t → ⊥)
        (IsCommand (codes "gen" ∷ map string_bytes words.now)) }
{
    let (seed, words, sentences) = three_of(words)?;
    let seed = seed_of(seed)?;
    let words = made_count_of(words)?;
    let sentences = made_count_of(sentences)?;
    Some(Command::Gen {
        seed,
        words,
        sentences,
    })
}

fn export_of(words: &[String]) -> Option<Command<'_>>
    ensures { MatchOption result
        ((t : Task) → TaskIs (codes "export" ∷ map string_bytes words.now) t → ⊥)
        (IsCommand (codes "export" ∷ map string_bytes words.now)) }
{
    let (dictionary, script, number) = files_and_number(words)?;
    if !is_operand(dictionary) || !is_operand(script) {
        return None;
    }
    let number = edit_count_of(number)?;
    Some(Command::Export {
        dictionary,
        script,
        number,
    })
}

fn audit_of(words: &[String]) -> Option<Command<'_>>
    ensures { MatchOption result
        ((t : Task) → TaskIs (codes "audit" ∷ map string_bytes words.now) t → ⊥)
        (IsCommand (codes "audit" ∷ map string_bytes words.now)) }
{
    let (dictionary, knowledge, document, scripts) = three_and_more(words)?;
    if scripts.is_empty() || scripts.len() > SCRIPTS || !are_operands(words) {
        return None;
    }
    Some(Command::Audit {
        dictionary,
        knowledge,
        document,
        scripts,
    })
}

// The words, where there are three.
fn files_and_number(words: &[String]) -> Option<(&str, &String, &str)>
    ensures { MatchOption result
        ((a b c : List ℕ) → map string_bytes words.now ≡ a ∷ b ∷ c ∷ [] → ⊥)
        (λ three. map string_bytes words.now ≡ three.0.now ∷ string_bytes three.1.now ∷ three.2.now ∷ []) }
{
    let (dictionary, rest) = words.split_first()?;
    let (script, numbers) = rest.split_first()?;
    let (number, more) = numbers.split_first()?;
    if !more.is_empty() {
        return None;
    }
    Some((dictionary.as_str(), script, number.as_str()))
}

// The words, where there are three.
fn three_of(words: &[String]) -> Option<(&str, &str, &str)>
    ensures { MatchOption result
        ((a b c : List ℕ) → map string_bytes words.now ≡ a ∷ b ∷ c ∷ [] → ⊥)
        (λ three. map string_bytes words.now ≡ three.0.now ∷ three.1.now ∷ three.2.now ∷ []) }
{
    let (first, rest) = words.split_first()?;
    let (second, third) = two_of(rest)?;
    Some((first.as_str(), second, third))
}

// The words, where there are two.
fn two_of(words: &[String]) -> Option<(&str, &str)>
    ensures { MatchOption result
        ((a b : List ℕ) → map string_bytes words.now ≡ a ∷ b ∷ [] → ⊥)
        (λ two. map string_bytes words.now ≡ two.0.now ∷ two.1.now ∷ []) }
{
    let (first, second, rest) = two_and_more(words)?;
    if !rest.is_empty() {
        return None;
    }
    Some((first, second))
}

// The first three words and those behind them, where there are three.
fn three_and_more(words: &[String]) -> Option<(&str, &str, &str, &[String])>
    ensures { MatchOption result
        ((a b c : List ℕ) (behind : List (List ℕ)) → map string_bytes words.now ≡ a ∷ b ∷ c ∷ behind → ⊥)
        (λ cut. map string_bytes words.now ≡ cut.0.now ∷ cut.1.now ∷ cut.2.now ∷ map string_bytes cut.3.now) }
{
    let (first, rest) = words.split_first()?;
    let (second, third, behind) = two_and_more(rest)?;
    Some((first.as_str(), second, third, behind))
}

// The first two words and those behind them, where there are two.
fn two_and_more(words: &[String]) -> Option<(&str, &str, &[String])>
    ensures { MatchOption result
        ((a b : List ℕ) (behind : List (List ℕ)) → map string_bytes words.now ≡ a ∷ b ∷ behind → ⊥)
        (λ cut. map string_bytes words.now ≡ cut.0.now ∷ cut.1.now ∷ map string_bytes cut.2.now) }
{
    let (first, rest) = words.split_first()?;
    let (second, behind) = rest.split_first()?;
    Some((first.as_str(), second.as_str(), behind))
}

// Whether each word is an operand.
fn are_operands(words: &[String]) -> bool
    ensures { result ≡ list_all (λ word. is_operand (string_bytes word)) words.now }
{
    words.iter().all(|word| is_operand(word))
}
