/// Where an expression is spelled.
#[derive(Clone, Copy, Debug, PartialEq, Eq)]
pub(crate) enum Spot {
    /// By itself, or in brackets.
    Top,
    /// As a member of an `or`.
    InOr,
    /// As a member of an `&`.
    InAnd,
}
