//! The members of a problem: its disjuncts, each with its position and the numbers of its two lists.
//!
//! What takes disjuncts away works over members, since many of them share a list, and writes those that are left by position. It
//! finds partners of connectors in tables of sites, whose cells are by position and by capital letters.
#![tactic(auto)]

pub mod cells;
pub mod form;
mod hints;
pub mod law;
mod made;
pub mod member;
pub mod outlines;
pub mod rows;
pub mod side;
pub mod uses;

pub use cells::{Cells, Wide, class_of};
pub use form::Form;
pub use law::{members_go_by_rounds, rows_are_problems};
pub use member::{Member, members_of};
pub use outlines::{Outlines, members_in};
pub use rows::rows_of;
pub use side::Side;
pub use uses::{keep, used};
