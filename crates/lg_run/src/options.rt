//! The form of a command's options.
ghost use Rattle.std.specs.Prelude.{◌≡◌, true, false, ℕ, Bool, List, Contains, MatchOption, map, string_bytes, bytes_eq};
ghost use Rattle.std.specs.List.{list_any};
ghost use Rattle.lg_script.specs.Commands.{IsNumber};
ghost use Rattle.lg_answer.specs.declared.options.Nulls.{Nulls as SeenNulls};
ghost use Rattle.lg_run.specs.Words.{HasForm, WritesNulls, WritesSwitch, WritesWorkers, is_operand};
ghost use Rattle.lg_run.specs.Settings.{value_kind, named, option_word, Begins, BeginsWith, front_of, is_given, Ends, IsCut};

use lg_answer::Nulls;
use lg_script::number_of;

/// What an option sets.
#[derive(Clone, Copy, Debug, PartialEq, Eq)]
pub(crate) enum Setting {
    Want,
    Examine,
    Nulls,
    Prune,
    Stats,
    Diagram,
    Workers,
    Idioms,
    Usage,
}

/// How the value of an option is written.
#[derive(Clone, Copy, Debug, PartialEq, Eq)]
pub(crate) enum Kind {
    Number,
    Nulls,
    Switch,
    Workers,
}

/// The options of `one`.
pub(crate) const ONE: [Setting; 8] = [
    Setting::Want,
    Setting::Examine,
    Setting::Nulls,
    Setting::Prune,
    Setting::Stats,
    Setting::Diagram,
    Setting::Workers,
    Setting::Idioms,
];

/// The options of `run`.
pub(crate) const RUN: [Setting; 9] = [
    Setting::Want,
    Setting::Examine,
    Setting::Nulls,
    Setting::Prune,
    Setting::Stats,
    Setting::Diagram,
    Setting::Workers,
    Setting::Idioms,
    Setting::Usage,
];

/// An option that some words begin with, its word, and the words behind it.
#[derive(Clone, Copy)]
struct First<'a> {
    word: &'a str,
    setting: Setting,
    behind: &'a [String],
}

/// Words cut in two.
#[derive(Clone, Copy)]
pub(crate) struct Cut<'a> {
    pub options: &'a [String],
    pub behind: &'a [String],
}

/// The options that the words begin with, each known and at most once, and the words behind them, of which the first begins
/// with no dash. None where the words begin in no such way. Takes no memory.
pub(crate) fn cut_options<'a>(known: &[Setting], words: &'a [String]) -> Option<Cut<'a>>
    ensures { MatchOption result
        ((front behind : List (List ℕ)) → IsCut (named known.now) (map string_bytes words.entry.now) front behind → ⊥)
        (λ cut. IsCut (named known.now) (map string_bytes words.entry.now) (map string_bytes cut.options.now) (map string_bytes cut.behind.now)) }
{
    let mut done = &words[..0];
    let mut rest = words;
    while begins_with_dash(rest) {
        let option = first_option(known, rest)?;
        if is_given(option.word, done) {
            return None;
        }
        let cut = words.split_at(words.len() - option.behind.len());
        done = cut.0;
        rest = cut.1;
    }
    Some(Cut {
        options: done,
        behind: rest,
    })
}

// Whether one of the words begins the option that begins with this word.
fn is_given(word: &str, done: &[String]) -> bool
    ensures { result ≡ list_any (λ other. bytes_eq (front_of (string_bytes other)) word.now) done.now }
{
    done.iter().any(|other| front_of(other) == word)
}

// What stands in a word before its first equals sign, or all of it.
fn front_of(word: &str) -> &str
    ensures { result.now ≡ front_of word.now }
{
    match word.split_once('=') {
        Some((name, _)) => name,
        None => word,
    }
}

// Whether there is a first word, and it begins with a dash.
fn begins_with_dash(words: &[String]) -> bool
    ensures no { result ≡ false → Ends (map string_bytes words.now) }
    ensures yes { result ≡ true → Ends (map string_bytes words.now) → ⊥ }
{
    match words {
        [word, ..] => !is_operand(word),
        [] => false,
    }
}

/// Whether the word does not begin with a dash.
pub(crate) fn is_operand(word: &str) -> bool
    ensures { result ≡ is_operand word.now }
{
    match word.as_bytes() {
        [b'-', ..] => false,
        _ => true,
    }
}

// The option that the words begin with, where it is known.
fn first_option<'a>(known: &[Setting], words: &'a [String]) -> Option<First<'a>>
    ensures { MatchOption result
        ((setting : Setting) (value : List ℕ) (behind : List (List ℕ)) → BeginsWith known.now (map string_bytes words.entry.now) setting value behind → ⊥)
        (λ first. (first.word.now ≡ option_word first.setting) × ((value : List ℕ) × BeginsWith known.now (map string_bytes words.entry.now) first.setting value (map string_bytes first.behind.now))) }
{
    let (word, value, behind) = word_and_value(words)?;
    let setting = setting_of(known, word)?;
    if !setting.kind().is_form_of(value) {
        return None;
    }
    Some(First {
        word,
        setting,
        behind,
    })
}

// The word and the value that the words begin with, in two words or in one, and the words behind them.
fn word_and_value(words: &[String]) -> Option<(&str, &str, &[String])>
    ensures { MatchOption result
        ((word value : List ℕ) (behind : List (List ℕ)) → Begins word value behind (map string_bytes words.now) → ⊥)
        (λ cut. Begins cut.0.now cut.1.now (map string_bytes cut.2.now) (map string_bytes words.now)) }
{
    let (word, rest) = words.split_first()?;
    match word.split_once('=') {
        Some((name, value)) => Some((name, value, rest)),
        None => {
            let (value, behind) = rest.split_first()?;
            Some((word.as_str(), value.as_str(), behind))
        }
    }
}

// The option that begins with this word, where it is known.
fn setting_of(known: &[Setting], word: &str) -> Option<Setting>
    ensures { MatchOption result
        ((setting : Setting) → word.now ≡ option_word setting → Contains known.now setting → ⊥)
        (λ setting. (word.now ≡ option_word setting) × Contains known.now setting) }
{
    let setting = setting_by(word)?;
    if !known.contains(&setting) {
        return None;
    }
    Some(setting)
}

// The option that begins with this word.
fn setting_by(word: &str) -> Option<Setting>
    ensures { MatchOption result
        ((setting : Setting) → word.now ≡ option_word setting → ⊥)
        (λ setting. word.now ≡ option_word setting) }
{
    match word {
        "--want" => Some(Setting::Want),
        "--examine" => Some(Setting::Examine),
        "--nulls" => Some(Setting::Nulls),
        "--prune" => Some(Setting::Prune),
        "--stats" => Some(Setting::Stats),
        "--diagram" => Some(Setting::Diagram),
        "--workers" => Some(Setting::Workers),
        "--idioms" => Some(Setting::Idioms),
        "--usage" => Some(Setting::Usage),
        _ => None,
    }
}

impl Setting {
    fn kind(self) -> Kind
        ensures { result ≡ value_kind self }
    {
        match self {
            Setting::Want | Setting::Examine => Kind::Number,
            Setting::Nulls => Kind::Nulls,
            Setting::Prune | Setting::Stats | Setting::Diagram | Setting::Idioms | Setting::Usage =>
                Kind::Switch,
            Setting::Workers => Kind::Workers,
        }
    }
}

impl Kind {
    // Whether the text is a value of this kind.
    fn is_form_of(self, value: &str) -> bool
        ensures yes { result ≡ true → HasForm self value.now }
        ensures no { result ≡ false → HasForm self value.now → ⊥ }
    {
        match self {
            Kind::Number => is_number(value),
            Kind::Nulls => nulls_of(value).is_some(),
            Kind::Switch => switch_of(value).is_some(),
            Kind::Workers => workers_of(value).is_some(),
        }
    }
}

// Whether the text is one to seven digits that write a number from 1 to 1,000,000.
fn is_number(text: &str) -> bool
    ensures yes { result ≡ true → (n : ℕ) × IsNumber text.now n }
    ensures no { result ≡ false → (n : ℕ) → IsNumber text.now n → ⊥ }
{
    number_of(text.as_bytes()).is_some()
}

/// Which linkages decide how many words may stay unlinked, as the text says. None where it says nothing of the kind.
pub(crate) fn nulls_of(text: &str) -> Option<Nulls>
    ensures { MatchOption result ((n : SeenNulls) → WritesNulls text.now n → ⊥) (WritesNulls text.now) }
{
    match text {
        "first" => Some(Nulls::First),
        "passing" => Some(Nulls::Passing),
        _ => None,
    }
}

/// Whether something is done, as the text says. None where it says nothing of the kind.
pub(crate) fn switch_of(text: &str) -> Option<bool>
    ensures { MatchOption result ((b : Bool) → WritesSwitch text.now b → ⊥) (WritesSwitch text.now) }
{
    match text {
        "on" => Some(true),
        "off" => Some(false),
        _ => None,
    }
}

// The most workers.
const WORKERS: u64 = 16;

/// How many workers look for linkages, as the text says: a number from 1 to 16. None where it says nothing of the kind.
pub(crate) fn workers_of(text: &str) -> Option<u32>
    ensures { MatchOption result ((n : ℕ) → WritesWorkers text.now n → ⊥) (WritesWorkers text.now) }
{
    match number_of(text.as_bytes()) {
        Some(n) if n <= WORKERS => Some(n as u32),
        _ => None,
    }
}
