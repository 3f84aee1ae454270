//! The texts that are printed of linkages, pages, answers and the journal.
#![tactic(auto)]

mod drawing;
mod journal;
pub mod law;
mod linkage;
mod look;
mod page;
mod piece;
mod reply;

pub use drawing::diagram;
pub use journal::journal_text;
pub use law::{diagrams_show_links, documents_show};
pub use linkage::linkage_text;
pub use look::Look;
pub use page::{bound_text, listing_text, page_text};
pub use reply::reply_text;
