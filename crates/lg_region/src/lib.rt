//! The parts of a sentence that the packed forest is made of: regions between two words, and the ways in which they are cut.
//!
//! A key is a region whose lists are given by their numbers (`Lists`), and `expand_key` lists its alternatives. The laws say
//! over definitions alone that each linkage is cut in exactly one way.
#![tactic(auto)]

pub mod alternative;
pub mod chains;
pub mod expand;
pub mod group;
pub mod key;
pub mod law;
pub mod lists;
mod matching;
mod numbering;
pub mod opening;
mod small;
pub mod spare;
pub mod ways;

pub use alternative::{Alt, Alts};
pub use expand::expand_key;
pub use group::{Gap, Group, Right, rights};
pub use key::{Joint, Key};
pub use law::{
    alternatives_are_small, alternatives_decide, alternatives_end, cuts_are_valid,
    numbers_tell_lists_apart, parts_make_linkages, regions_are_cut_once, regions_begin_alike,
    sentences_are_cut_once,
};
pub use lists::Lists;
pub use opening::{
    Beginning, Origin, beginnings, end_with, gap_of, groups_at, origin_of, push_ended, push_endings,
};
pub use spare::Spare;
