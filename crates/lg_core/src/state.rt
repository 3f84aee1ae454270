//! The states of the core.
ghost use Rattle.std.specs.Prelude.{◌≡◌, ◌+◌, ◌<◌, ◌^◌, List, length, slice_set, IfOk};
ghost use Rattle.lg_dict.specs.Dictionary.{Dictionary};
ghost use Rattle.lg_script.specs.Commands.{CommandView};
ghost use Rattle.lg_core.specs.Core.{IsCore, start_of, ended, note_of};

use crate::note::{Note, NoteKind};
use lg_base::{Codes, NoMemory};
use std::alloc::Global;
use std::marker::Model;

/// A listing that a session holds: the version of its dictionary, the number, from 1, of the command that began it, and how many
/// `more`s went on with it.
#[derive(Clone, Copy, Debug, PartialEq, Eq)]
pub struct Hold {
    pub version: u64,
    pub command: u32,
    pub mores: u32,
}

/// Where a session stands: how many of its commands have ended, how many codes of the history it has seen, and the listing that
/// it holds.
#[derive(Clone, Copy, Debug, PartialEq, Eq)]
pub struct Actor {
    pub place: u32,
    pub seen: u64,
    pub held: Option<Hold>,
}

/// A list of actors.
#[derive(Clone, Debug, Drop)]
pub struct Actors {
    items: Vec<Actor>,
}

impl Model for Actors {
    ghost use Rattle.std.specs.Prelude.{List};
    ghost use Rattle.lg_core.specs.declared.state.Actor.{Actor as Seen};

    ghost Value = { List Seen };

    ghost view = { λ t. t.items.items };
}

impl Actors {
    /// The list of these actors.
    pub fn of(items: Vec<Actor>) -> Self
        ensures { result ≡ items.items }
    {
        Actors { items }
    }

    /// The actors.
    pub fn items(&self) -> &[Actor]
        ensures { result.now ≡ self.now }
    {
        self.items.as_slice()
    }

    /// The actors, as a vector.
    pub fn into_items(self) -> Vec<Actor>
        ensures { result.items ≡ self }
    {
        let Actors { items } = self;
        items
    }

    /// The actor of this session, from 0, is that one.
    pub(crate) fn set(&mut self, session: u32, actor: Actor)
        requires { session < length self.old }
        ensures { self.new ≡ slice_set self.old session actor }
    {
        self.items[session as usize] = actor;
    }
}

/// A state of the core: the codes that were published, in their order, and an actor for each session.
#[derive(Debug, Drop)]
pub struct Core {
    pub history: Codes,
    pub actors: Actors,
}

impl Core {
    /// The core before any step: no history, and so many sessions before their first commands. The only error is running out of
    /// memory.
    pub fn new(alloc: Global, sessions: u32) -> Result<Core, NoMemory>
        ensures start { IfOk result (λ core. core ≡ start_of sessions) }
        ensures core { (scripts : List (List CommandView)) (base : Dictionary) → length scripts ≡ sessions → IfOk result (IsCore scripts base) }
    {
        let newcomer = Actor {
            place: 0,
            seen: 0,
            held: None,
        };
        let mut actors = Vec::new(alloc);
        for _ in 0..sessions {
            actors.push(newcomer)?;
        }
        Ok(Core {
            history: Codes::of(Vec::new(alloc)),
            actors: Actors::of(actors),
        })
    }

    /// The number of codes in the history, which is its newest version.
    pub(crate) fn version(&self) -> u64
        ensures { result ≡ length self.now.history }
    {
        self.history.items().len() as u64
    }

    /// The command of the actor of this session ends with a note, and the session holds this listing.
    pub(crate) fn end(
        &mut self,
        session: u32,
        actor: Actor,
        held: Option<Hold>,
        version: u64,
        kind: NoteKind,
    ) -> Note
        requires session { session < length self.old.actors }
        requires sessions { length self.old.actors < 2 ^ 32 }
        requires next { actor.place + 1 < 2 ^ 32 }
        ensures ended { self.new ≡ ended self.old session actor held }
        ensures note { result ≡ note_of session actor version kind }
    {
        let command = actor.place + 1;
        self.actors.set(
            session,
            Actor {
                place: command,
                held,
                ..actor
            },
        );
        Note {
            session: session + 1,
            command,
            version,
            kind,
        }
    }
}
