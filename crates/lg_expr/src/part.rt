use lg_base::Cost;
use lg_gram::Connector;

/// What joins the members of a list.
#[derive(Clone, Copy, Debug, PartialEq, Eq)]
pub enum Operator {
    /// `&` or `and`
    And,
    /// `|` or `or`
    Or,
}

/// A kind of bracket.
#[derive(Clone, Copy, Debug, PartialEq, Eq)]
pub enum Bracket {
    /// `(` and `)`
    Round,
    /// `{` and `}`, round what is optional.
    Curly,
    /// `[` and `]`, round what has a cost.
    Square,
}

/// What a token is inside an expression.
#[derive(Clone, Copy, Debug)]
pub enum Part<'a> {
    Connector(Connector),
    /// A macro's name, with its angle brackets.
    Macro(&'a [u8]),
    Operator(Operator),
    Open(Bracket),
    Close(Bracket),
    /// A token that is a cost number.
    Number(Cost),
    /// A token that begins as a number, with a digit, `.` or `-`, and is no cost number.
    NoNumber,
    /// The `;` that ends the entry.
    End,
    /// Any other token. No expression has it.
    Wrong,
}
