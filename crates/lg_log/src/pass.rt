//! Passes, by which threads use a log.
ghost use Rattle.std.specs.Prelude.{◌≡◌, ◌≤◌, ◌<◌, ◌++◌, [], ◌∷◌, true, false, None, eqb, length, sum, vec_len, vec_capacity, IfSome, IfNone};
ghost use Rattle.std.specs.List.{list_any, list_all, IsDistinct};
ghost use Rattle.lg_log.specs.Codes.{is_code, is_of};
ghost use Rattle.lg_log.specs.Passes.{with_code, at_end, longer_of, HasAllOf, IsOther, CarriesAll};

use crate::log::Log;
use crate::steps::{Look, Publish, Settle, TakeOver};
use crate::view::View;
use atomic_table::Seat;
use std::marker::Model;

/// What one thread uses a log with: how far it has seen, and the sessions that it carries. No two passes carry one session.
///
/// Contracts see the log, the sessions, the codes that were seen, and two numbers that they alone know: `ends`, how often `look`
/// found no code, and `end_at`, how many codes had been seen when it last did.
#[derive(Drop)]
pub struct Pass {
    pub(crate) seat: Seat<(), View>,
    // There is room for all codes of the log.
    pub(crate) seen: Vec<u64>,
}

impl Model for Pass {
    ghost use Rattle.std.specs.Prelude.{vec_capacity};
    ghost use Rattle.lg_log.specs.Passes.{Standing};
    ghost use Rattle.lg_log.specs.Views.{standing, IsReady};

    ghost Value = { Standing };

    ghost view = { λ p. standing p.seat.table_id p.seat.me.0 };

    ghost invariant = { λ p. IsReady p.seat.table_id p.seat.me p.seen.items (vec_capacity p.seen) };
}

impl Pass {
    /// The codes that were seen, the first codes of the history in order. They differ, and each is a code of the log.
    pub fn seen(&self) -> &[u64]
        ensures seen { result.now ≡ self.now.seen }
        ensures codes { list_all (is_code self.now.log.counts) self.now.seen ≡ true }
        ensures distinct { IsDistinct eqb self.now.seen }
        ensures few { length self.now.seen ≤ sum self.now.log.counts }
    {
        self.seen.as_slice()
    }

    /// Looks for the next code of the history, which is then seen too. It is of no session that the pass carries.
    ///
    /// `None` comes exactly where, at the step of this call, the history has no code that was not seen. So a pass that carries
    /// every session of the log has seen the whole history: it finds no further code. No memory.
    pub fn look(&mut self, log: &Log) -> Option<u64>
        requires { self.old.log ≡ log.now }
        ensures end { IfNone result (self.new ≡ at_end self.old) }
        ensures next { IfSome result (λ code. self.new ≡ with_code self.old code) }
        ensures other { IfSome result (λ code. IsOther self.old code) }
        ensures whole { CarriesAll self.old → result ≡ None }
        ensures few { length self.new.seen ≤ sum self.new.log.counts }
    {
        let next = log
            .table
            .shared
            .load::<Look>(&mut self.seat, self.seen.len());
        if next == 0 {
            return None;
        }
        append(&mut self.seen, next);
        Some(next)
    }

    /// Publishes a code just after all that was seen, and has then seen it. The pass carries its session, and has not seen it.
    ///
    /// `Some` is the other code that stands there, of no session that the pass carries. It is then seen, and nothing else
    /// changed. A pass that carries every session of the log meets no other code. No memory.
    pub fn publish(&mut self, log: &Log, code: u64) -> Option<u64>
        requires log { self.old.log ≡ log.now }
        requires code { is_code self.old.log.counts code ≡ true }
        requires carried { is_of self.old.sessions code ≡ true }
        requires fresh { list_any (eqb code) self.old.seen ≡ false }
        ensures published { IfNone result (self.new ≡ with_code self.old code) }
        ensures next { IfSome result (λ other. self.new ≡ with_code self.old other) }
        ensures other { IfSome result (λ other. IsOther self.old other) }
        ensures whole { CarriesAll self.old → result ≡ None }
        ensures few { length self.new.seen ≤ sum self.new.log.counts }
    {
        let found = log
            .table
            .shared
            .compare_exchange::<Publish>(&mut self.seat, self.seen.len(), 0, code);
        if found == 0 {
            append(&mut self.seen, code);
            return None;
        }
        append(&mut self.seen, found);
        Some(found)
    }

    /// Takes over the sessions of another pass, and the longer of the two seen lists, which begins with the shorter. What the
    /// longer has beyond either list is of no session that the pass with that list carried. No memory.
    pub fn join(&mut self, log: &Log, other: Pass)
        requires log { self.old.log ≡ log.now }
        requires other_log { other.log ≡ log.now }
        ensures joined { self.new ≡ record self.old { sessions = self.old.sessions ++ other.sessions; seen = longer_of self.old.seen other.seen } }
        ensures mine { HasAllOf self.old.sessions self.old.seen self.new.seen }
        ensures others { HasAllOf other.sessions other.seen self.new.seen }
    {
        let Pass {
            seat: other_seat,
            seen: other_seen,
        } = other;
        log.table
            .shared
            .join_seat::<TakeOver>(&mut self.seat, other_seat);
        log.table.shared.load::<Settle>(&mut self.seat, 0);
        if self.seen.len() < other_seen.len() {
            self.seen = other_seen;
        }
    }
}

// Appends a code. There is room for it.
fn append(seen: &mut Vec<u64>, code: u64)
    requires { vec_len seen.old < vec_capacity seen.old }
    ensures items { seen.new.items ≡ seen.old.items ++ code ∷ [] }
    ensures capacity { vec_capacity seen.old ≤ vec_capacity seen.new }
{
    let Ok(()) = seen.push(code) else {
        unreachable!()
    };
}
