//! What is printed beside the linkages of a page.

/// What is printed beside the linkages of a page.
#[derive(Clone, Copy, Debug, PartialEq, Eq)]
pub struct Look {
    /// The diagram of each linkage that passes, each line of it after `>`.
    pub diagram: bool,
    /// The numbers of disjuncts, before the first page of a listing.
    pub stats: bool,
}
