//! A memo that threads share: what one worker found, the others need not find again.
//!
//! A memo has shards, and each shard holds pairs of a key and a value. A worker uses it by a seat: it takes a shard, looks up
//! keys and keeps pairs in it, and gives it back. Nobody waits. Every value is right for its key, whatever the workers did.
#![tactic(auto)]

pub mod closing;
pub mod dealing;
pub mod fact;
pub mod memo;
pub mod rule;
pub mod seat;
pub mod shard;
pub mod view;

pub use fact::Fact;
pub use memo::Memo;
pub use rule::memo_laws;
pub use seat::MemoSeat;
pub use shard::Shard;
