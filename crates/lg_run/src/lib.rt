//! The top call: the words of the command line, the order of the work, and how a run ends.
#![tactic(auto)]

mod audit;
mod command;
mod export;
mod inputs;
mod knowledge;
pub mod law;
mod line;
mod lister;
mod made;
mod matched;
mod number;
mod options;
mod outcome;
mod printer;
mod script;
mod sentence;
mod setup;
mod status;
mod stop;
mod top;
mod usage;

pub use law::{
    answers_are_determined, dictionaries_are_plain, dictionaries_have_no_joints,
    documents_are_audited, documents_hold, documents_show, exports_are_dictionaries,
    inputs_have_one_verdict, words_have_one_task,
};
pub use status::Status;
pub use top::run;
