//! What is kept of the answers of sessions.

use lg_base::NoMemory;
use lg_gram::{Place, Replies, Reply};
use lg_script::Command;
use std::alloc::Global;

/// What keeps the answers of sessions, each as it comes, on the thread of its session: their texts, say, so that no answer itself has
/// to be kept.
pub trait Keeper: Sync {
    ghost use Rattle.std.specs.Prelude.{◌≡◌, ◌+◌, ℕ, List, [], ◌∷◌, ◌++◌, length, IfOk};
    ghost use Rattle.lg_gram.specs.declared.reply.Reply.{Reply as Answer};
    ghost use Rattle.lg_script.specs.Commands.{CommandView, command_view};

    /// What is kept of the answers of one session.
    type Kept: Drop + Send;

    // This answer to this command may be kept.
    ghost takes: { Self → CommandView → Answer → Type 0 };

    // This is kept of the answers to these commands of a session, whose number counts from 1.
    ghost keeps: { Self → ℕ → List CommandView → List Answer → Self.Kept → Type 0 };

    /// What is kept of a session before its first answer. The only error is running out of memory.
    fn begin(&self, alloc: Global, session: u32) -> Result<Self::Kept, NoMemory>
        ensures { IfOk result (keeps self.now session [] []) };

    /// Keeps one answer more: that to the command at this place, after those that are kept. The only error is running out of memory,
    /// and then what was kept is gone.
    fn keep(
        &self,
        alloc: Global,
        kept: Self::Kept,
        place: Place,
        command: &Command,
        reply: Reply,
    ) -> Result<Self::Kept, NoMemory>
        requires takes { takes self.now (command_view command.now) reply }
        requires kept { (commands : List CommandView) × (replies : List Answer) × keeps self.now place.session commands replies kept × (length replies + 1 ≡ place.command) }
        ensures { (commands : List CommandView) (replies : List Answer) → keeps self.now place.session commands replies kept → length replies + 1 ≡ place.command → IfOk result (keeps self.now place.session (commands ++ command_view command.now ∷ []) (replies ++ reply ∷ [])) };
}

/// Keeps each answer as it is.
pub struct WholeReplies;

impl Keeper for WholeReplies {
    ghost use Rattle.std.specs.Prelude.{◌≡◌};

    type Kept = Replies;

    ghost takes = { λ keeper command reply. Unit {0} };

    ghost keeps = { λ keeper session commands replies kept. kept ≡ replies };

    fn begin(&self, alloc: Global, _session: u32) -> Result<Replies, NoMemory> {
        Ok(Replies::of(Vec::new(alloc)))
    }

    fn keep(
        &self,
        _alloc: Global,
        kept: Replies,
        _place: Place,
        _command: &Command,
        reply: Reply,
    ) -> Result<Replies, NoMemory> {
        let mut replies = kept.into_items();
        replies.push(reply)?;
        Ok(Replies::of(replies))
    }
}
