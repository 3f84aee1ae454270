//! What a pass knows of the history. No value of these types is made: they are for the proofs.
use std::collections::LinkedList;

/// What a pass knew when it was joined to another: the codes that it had seen, and the sessions that it carried.
pub struct Account {
    pub seen: LinkedList<u64>,
    pub sessions: LinkedList<u64>,
}

/// What a pass knows. The note is empty but between a join and the load that follows it. Only a view that is spent, since its
/// pass was joined to another, is not live.
pub struct View {
    pub seen: LinkedList<u64>,
    pub sessions: LinkedList<u64>,
    pub note: LinkedList<Account>,
    pub ends: u64,
    pub end_at: u64,
    pub counts: LinkedList<u32>,
    pub live: bool,
}
