//! What is wrong with a linkage.

/// The answer to a linkage: good, or the first rule that fails, at its least case. Links are named by their number in
/// the list of links; on a side, true is right. Numbers count from 0.
#[derive(Clone, Copy, Debug, PartialEq, Eq)]
pub enum Verdict {
    Good,
    /// A link whose connectors do not match.
    Unmatched(u32),
    /// Position, side and place of a connector with no link, or with two links where it is not multi.
    Unsatisfied(u32, bool, u32),
    /// Two links that cross, the one that begins first named first.
    Crossing(u32, u32),
    /// The least linked position that no walk over links joins to the first linked position.
    Apart(u32),
    /// Two links with the same two positions.
    Twice(u32, u32),
    /// Position, side and place that joins a word not nearer than a word joined at a later place of that side.
    Order(u32, bool, u32),
}
