//! What is called before each command of each session.

/// What a session's thread calls before each of its commands.
///
/// It answers nothing, and no answer of a session depends on it. It may note the command, or come back only when another session
/// has come so far: so tests hold one session back for another. It has to come back.
pub trait Gate: Sync {
    /// Called before a command, by the thread that runs it. Sessions, and the commands of each, are numbered from 1.
    fn pass(&self, session: u32, command: u32);
}

/// A gate that comes back at once.
pub struct FreeGate;

impl Gate for FreeGate {
    fn pass(&self, _session: u32, _command: u32) {}
}
