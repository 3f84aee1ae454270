//! What a session has in hand.

use lg_dict::View;
use lg_log::Pass;

/// A session between two of its commands.
#[derive(Drop)]
pub struct Session<'a, H: Drop> {
    /// The number of the session, from 0.
    pub session: u32,
    /// How many of its commands are answered.
    pub place: u32,
    /// What it has seen of the edits that are published. It carries this session alone.
    pub pass: Pass,
    /// The dictionary after the edits that it has seen.
    pub view: View<'a>,
    /// The listing that could go on, beside the version of the dictionary that it began with.
    pub held: Option<(u64, H)>,
}
