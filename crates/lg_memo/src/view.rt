//! What a seat knows of its memo. No value of `View` is made: it is for the proofs.
use std::collections::LinkedList;
use std::snapshot::Snapshot;

/// Which memo it is: its name, and how many shards and seats it has.
#[derive(Drop)]
pub struct About<N> {
    pub name: Snapshot<N>,
    pub shards: u32,
    pub seats: u32,
}

/// So many entries of a shard.
pub struct Count {
    pub shard: u64,
    pub entries: u64,
}

/// What a seat knows: its memo, the numbers of the seats that it stands for, the shard that it has, with the entries that it took,
/// how often another seat had the shard that it wanted, and what it took and gave, the last first. Only the view of a seat that is
/// spent, since it was joined to another, has no memo.
pub struct View<N> {
    pub about: Option<About<N>>,
    pub numbers: LinkedList<u64>,
    pub has: Option<Count>,
    pub lost: u64,
    pub known: LinkedList<Count>,
}
