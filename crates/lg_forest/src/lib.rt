//! The packed forest of a problem.
#![tactic(auto)]

mod dead;
mod draft;
mod fact;
pub mod forest;
mod half_set;
mod halves;
mod key_set;
mod known;
mod law;
mod linkages;
mod memory;
mod openings;
mod right_ends;
mod search;
mod slots;
pub mod spell;
mod spread;
mod table;
mod worker;
mod workers;

pub use forest::{Forest, solve, solve_at, solve_at_by};
pub use spell::spell_all;
