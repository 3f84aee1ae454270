//! The statements of a knowledge text, read a token at a time.

ghost use Rattle.std.specs.Prelude.{◌≡◌};
ghost use Rattle.lg_lex.specs.Found.{lexeme_of};
ghost use Rattle.lg_knowread.specs.Automaton.{rule_of, first_word, with_word, with_list, with_sign, unfit, advance};
ghost use Rattle.lg_knowread.specs.View.{Gives};

use crate::fault::{Fault, Refusal};
use crate::knowledge::{Knowledge, Pattern, Patterns, Rule};
use crate::words::{Section, Test, kind_of, pattern_of, section_of};
use lg_lex::Token;
use std::alloc::Global;

/// What a list of patterns is for.
#[derive(Debug, Drop)]
pub(crate) enum Head {
    /// Links that match start domains of this kind.
    Starts(u8),
    /// Links that match are ignored.
    Ignored,
    /// A rule with this trigger looks for links that match.
    Others(Test, Pattern),
}

/// What may come next, with what is read of a statement.
#[derive(Debug, Drop)]
pub(crate) enum State {
    /// The name of a section, or the end of the text.
    Name,
    /// The colon after the name.
    Colon(Section),
    /// The kind or the pattern after the colon.
    First(Section),
    /// The opening brace after the trigger.
    Brace(Test, Pattern),
    /// A further pattern or, after one pattern or more, the end of the list.
    Further(Head, Patterns),
    /// The semicolon after a rule.
    End(Rule),
}

/// What the statements so far say, and where the reader is in the next.
#[derive(Debug, Drop)]
pub(crate) struct Reading {
    pub(crate) knowledge: Knowledge,
    pub(crate) state: State,
}

impl Reading {
    /// With one more token of the text.
    pub(crate) fn advance(self, alloc: Global, token: &Token<'_>) -> Result<Reading, Refusal>
        ensures { Gives result (advance self (lexeme_of token.now)) }
    {
        match token {
            Token::Plain(word) => Ok(Reading {
                knowledge: self.knowledge,
                state: with_word(alloc, self.state, word)?,
            }),
            Token::Sign(sign) => self.with_sign(alloc, *sign),
            Token::Quoted(_) | Token::Broken => Err(Refusal::Fault(unfit(&self.state))),
        }
    }

    fn with_sign(self, alloc: Global, sign: u8) -> Result<Reading, Refusal>
        ensures { Gives result (with_sign self.knowledge self.state sign) }
    {
        let Reading { knowledge, state } = self;
        match state {
            State::Name => Err(Refusal::Fault(Fault::UnknownSection)),
            State::Colon(section) if sign == b':' => Ok(Reading {
                knowledge,
                state: State::First(section),
            }),
            State::Brace(test, trigger) if sign == b'{' => Ok(Reading {
                knowledge,
                state: State::Further(Head::Others(test, trigger), Patterns::of(Vec::new(alloc))),
            }),
            State::Further(head, patterns) if !patterns.items().is_empty() => {
                with_list(knowledge, head, patterns, sign)
            }
            State::End(rule) if sign == b';' => Ok(Reading {
                knowledge: knowledge.with_rule(rule)?,
                state: State::Name,
            }),
            _ => Err(Refusal::Fault(Fault::Syntax)),
        }
    }
}

/// A sign after a list of patterns.
fn with_list(
    knowledge: Knowledge,
    head: Head,
    patterns: Patterns,
    sign: u8,
) -> Result<Reading, Refusal>
    ensures { Gives result (with_list knowledge head patterns sign) }
{
    match head {
        Head::Starts(kind) if sign == b';' => Ok(Reading {
            knowledge: knowledge.with_starts(kind, patterns)?,
            state: State::Name,
        }),
        Head::Ignored if sign == b';' => Ok(Reading {
            knowledge: knowledge.with_ignored(patterns)?,
            state: State::Name,
        }),
        Head::Others(test, trigger) if sign == b'}' => Ok(Reading {
            knowledge,
            state: State::End(rule_of(test, trigger, patterns)),
        }),
        _ => Err(Refusal::Fault(Fault::Syntax)),
    }
}

fn rule_of(test: Test, trigger: Pattern, others: Patterns) -> Rule
    ensures { result ≡ rule_of test trigger others }
{
    let grouped = matches!(test, Test::NoneInGroup | Test::OneInGroup);
    match test {
        Test::NoneOf | Test::NoneInGroup => Rule::Forbid {
            grouped,
            trigger,
            others,
        },
        Test::OneOf | Test::OneInGroup => Rule::Demand {
            grouped,
            trigger,
            others,
        },
    }
}

/// A word where the reader is.
fn with_word(alloc: Global, state: State, word: &[u8]) -> Result<State, Refusal>
    ensures { Gives result (with_word state word.now) }
{
    match state {
        State::Name => Ok(State::Colon(section_of(word)?)),
        State::First(section) => first_word(alloc, section, word),
        State::Further(head, patterns) => {
            let patterns = patterns.with(pattern_of(alloc, word)?)?;
            Ok(State::Further(head, patterns))
        }
        State::Colon(_) | State::Brace(_, _) | State::End(_) => {
            Err(Refusal::Fault(Fault::Syntax))
        }
    }
}

/// A word after the colon.
fn first_word(alloc: Global, section: Section, word: &[u8]) -> Result<State, Refusal>
    ensures { Gives result (first_word section word.now) }
{
    match section {
        Section::Start => Ok(State::Further(
            Head::Starts(kind_of(word)?),
            Patterns::of(Vec::new(alloc)),
        )),
        Section::Ignore => {
            let patterns = Patterns::of(Vec::new(alloc)).with(pattern_of(alloc, word)?)?;
            Ok(State::Further(Head::Ignored, patterns))
        }
        Section::Test(test) => Ok(State::Brace(test, pattern_of(alloc, word)?)),
        Section::Bounded => Ok(State::End(Rule::Bounded {
            kind: kind_of(word)?,
        })),
        Section::Cycle => Ok(State::End(Rule::Cycle {
            pattern: pattern_of(alloc, word)?,
        })),
    }
}

/// The fault of a token that is neither a word nor a sign.
fn unfit(state: &State) -> Fault
    ensures { result ≡ unfit state.now }
{
    match state {
        State::Name => Fault::UnknownSection,
        _ => Fault::Syntax,
    }
}
