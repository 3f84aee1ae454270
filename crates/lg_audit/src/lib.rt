//! The audit of a document: whether each linkage that it shows is right, without a parser.
#![tactic(auto)]

mod answer;
mod auditing;
mod basis;
mod cause;
mod dated;
mod document;
mod edited;
mod head;
mod journal;
mod law;
mod lines;
mod linkages;
mod listed;
mod numeral;
mod page;
mod piece;
mod published;
mod reading;
mod reply;
mod runs;
mod session;
mod shown;
mod tally;
mod verdict;
mod versions;
mod walk;

pub use answer::AuditAnswer;
pub use auditing::audit;
pub use document::{Document, read_document};
pub use law::{answers_are_shown, audits_are_sound};
pub use shown::{
    ShownChoice, ShownEnd, ShownItem, ShownLink, ShownLinkage, ShownPage, ShownReply, ShownSums,
    ShownWord,
};
