//! The log, and how it is made.
ghost use Rattle.std.specs.Prelude.{◌≡◌, ◌≤◌, ◌<◌, [], ◌∷◌, length, map, sum, IfOk};
ghost use Rattle.std.specs.List.{range_with_len};
ghost use Rattle.lg_log.specs.Passes.{at_start};

use crate::pass::Pass;
use crate::rule::LogRule;
use crate::view::View;
use atomic_table::Table;
use lg_base::NoMemory;
use std::alloc::Global;
use std::marker::Model;

/// The words that all passes share: the history, and zeros behind it. Contracts see which log it is, and how many codes each
/// session has.
#[derive(Drop)]
pub struct Log {
    pub(crate) table: Table<(), View, Vec<u32>, LogRule, Global>,
}

impl Model for Log {
    ghost use Rattle.lg_log.specs.Passes.{LogId};

    ghost Value = { LogId };

    ghost view = { λ l. record { table = l.table.shared.table_id; counts = l.table.shared.key.items } };
}

impl Log {
    /// A log with an empty history, for sessions that have so many codes each, 1 to 64 sessions and at most 100,000 codes in all.
    /// With it come a pass that carries no session, and one for each session in order, which carries that session. All memory of
    /// the log and of its passes is taken here.
    pub fn make(alloc: Global, counts: &[u32]) -> Result<(Log, Pass, Vec<Pass>), NoMemory>
        requires sessions { (0 < length counts.now) × (length counts.now ≤ 64) }
        requires codes { sum counts.now ≤ 100000 }
        ensures log { IfOk result (λ made. made.0.counts ≡ counts.now) }
        ensures first { IfOk result (λ made. made.1 ≡ at_start made.0 []) }
        ensures passes { IfOk result (λ made. made.2.items ≡ map (λ session. at_start made.0 (session ∷ [])) (range_with_len 0 (length counts.now))) }
    {
        let most = total(counts);
        let (log, mut first) = Log::open(alloc, counts, most)?;
        let passes = first.deal(alloc, &log, counts.len(), most)?;
        Ok((log, first, passes))
    }

    // The log, and a pass that carries each session.
    fn open(alloc: Global, counts: &[u32], most: usize) -> Result<(Log, Pass), NoMemory>
        requires most { most ≡ sum counts.now }
        requires bound { most ≤ 100000 }
        ensures log { IfOk result (λ made. made.0.counts ≡ counts.now) }
        ensures first { IfOk result (λ made. made.1 ≡ at_start made.0 (range_with_len 0 (length counts.now))) }
    {
        let words = Vec::from_elem(alloc, 0u64, most + 1)?;
        let about = Vec::from_slice(alloc, counts)?;
        let (table, seat) = Table::of_words(alloc, words.as_slice(), &about)?;
        let seen = Vec::with_capacity(alloc, most)?;
        Ok((Log { table }, Pass { seat, seen }))
    }
}

// How many codes the sessions have together.
fn total(counts: &[u32]) -> usize
    requires { sum counts.now ≤ 100000 }
    ensures { result ≡ sum counts.now }
{
    let mut all = 0;
    for count in counts {
        all += *count as usize;
    }
    all
}
