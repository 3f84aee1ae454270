//! How the sessions of a new log are dealt to passes.
ghost use Rattle.std.specs.Prelude.{◌≡◌, ◌≤◌, [], ◌∷◌, eqb, length, map, sum, take, drop, vec_capacity, IfOk};
ghost use Rattle.std.specs.List.{range_with_len, IsDistinct};
ghost use Rattle.lg_log.specs.Passes.{at_start};

use crate::log::Log;
use crate::pass::Pass;
use crate::steps::GiveFirst;
use lg_base::NoMemory;
use std::alloc::Global;

impl Pass {
    // A pass for each session, which this pass then does not carry.
    pub(crate) fn deal(
        &mut self,
        alloc: Global,
        log: &Log,
        sessions: usize,
        most: usize,
    ) -> Result<Vec<Pass>, NoMemory>
        requires most { most ≡ sum log.now.counts }
        requires start { self.old ≡ at_start log.now (range_with_len 0 sessions) }
        ensures first { IfOk result (λ passes. self.new ≡ at_start log.now []) }
        ensures passes { IfOk result (λ passes. passes.items ≡ map (λ session. at_start log.now (session ∷ [])) (range_with_len 0 sessions)) }
    {
        let mut passes = Vec::with_capacity(alloc, sessions)?;
        for _ in 0..sessions {
            let seen = Vec::with_capacity(alloc, most)?;
            passes.push(self.split(log, seen))?;
        }
        Ok(passes)
    }

    // A new pass with the first session of this one.
    fn split(&mut self, log: &Log, seen: Vec<u64>) -> Pass
        requires start { self.old ≡ at_start log.now self.old.sessions }
        requires distinct { IsDistinct eqb self.old.sessions }
        requires empty { seen.items ≡ [] }
        requires room { sum log.now.counts ≤ vec_capacity seen }
        ensures left { self.new ≡ at_start log.now (drop 1 self.old.sessions) }
        ensures given { result ≡ at_start log.now (take 1 self.old.sessions) }
    {
        let seat = log.table.shared.split_seat::<GiveFirst>(&mut self.seat);
        Pass { seat, seen }
    }
}
