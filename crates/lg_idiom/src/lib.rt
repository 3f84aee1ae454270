//! Idioms: compounds of the dictionary that stand for several tokens in a row.
#![tactic(auto)]

mod adding;
mod chain;
mod fitting;
pub mod law;
mod order;
mod sentence;
mod taken;

pub use law::{
    added_are_few, chains_are_whole, chains_stand_for_words, joints_join_neighbours,
    plain_linkages_stay, taken_are_chains, taken_are_laid_over, taken_are_one,
};
pub use sentence::idioms;
