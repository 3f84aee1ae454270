//! What the texts of lgparse share: their bytes and tokens, their lines and columns, and UTF-8.
//!
//! Dictionary texts, knowledge texts, word files, scripts and sentences are read through this crate. It allocates
//! nothing, and each function takes time linear in the bytes that it looks at.
#![tactic(auto)]

mod laws;
mod location;
mod marks;
mod run;
mod section;
mod spot;
mod token;
mod utf8;

pub use laws::{
    bytes_are_utf8_or_at_fault, locations_add_up, parts_are_utf8, runs_are_one_list,
    sections_keep_their_tokens, texts_start_at_the_first_spot, tokens_are_no_more_than_bytes,
    tokens_are_one_list, tokens_are_utf8,
};
pub use location::{Location, location_at};
pub use marks::{Class, Marks, class_of};
pub use run::{Run, Separators, next_run};
pub use section::section_to;
pub use spot::{Spot, Spotted, next_spotted};
pub use token::{Found, Token, next_token};
pub use utf8::{utf8_fault, without_mark};
