//! Sides of disjuncts.
use lg_gram::Connector;

/// The list on a side of disjuncts of a position. Many disjuncts share it.
#[derive(Clone, Copy)]
pub struct Side<'a> {
    pub position: u32,
    pub list: &'a [Connector],
}
