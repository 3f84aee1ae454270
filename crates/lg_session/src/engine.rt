//! What answers the sentences of a session.

use lg_base::{NoMemory, Text};
use lg_dict::View;
use lg_gram::{Bound, Page, Stats, Tokens};
use std::alloc::Global;
use std::thread::Threads;

/// The listing of a sentence at its start: its first page and what is held to go on with it, or the bound that the sentence
/// passes.
#[derive(Drop)]
pub enum Opening<H: Drop> {
    Listed {
        held: H,
        tokens: Tokens,
        page: Page,
        stats: Stats,
    },
    Beyond(Bound),
}

/// What answers the sentences of a session. What it answers is a matter of the dictionary and of the sentence alone.
pub trait Engine: Sync {
    ghost use Rattle.std.specs.Prelude.{◌≤◌, ◌^◌, IfSome, IfOk};
    ghost use Rattle.std.specs.Thread.{IsSync};
    ghost use Rattle.lg_dict.specs.Dictionary.{Dictionary};
    ghost use Rattle.lg_script.specs.Bounds.{IsSentence, IsCount};
    ghost use Rattle.lg_session.specs.Engines.{Meaning, Progress, Opens, GoesOn};

    /// What a session holds to go on with a listing.
    type Held: Drop + Send;

    // What the engine answers.
    ghost meaning: { Self → Meaning };

    // What is held stands for a listing by this dictionary that has come so far.
    ghost stands: { Self → Self.Held → Dictionary → Progress → Type 0 };

    /// Opens the listing of a sentence after `first - 1` candidates, or after all where they are fewer, with a page that shows
    /// `want` candidates, or as many as the engine gives. The sentence is UTF-8 with fewer than 2^32 bytes, and both numbers
    /// lie from 1 to 1,000,000. The only error is running out of memory.
    fn begin<R: Threads + Sync>(
        &self,
        rt: &R,
        alloc: Global,
        view: &View,
        text: &Text,
        first: u64,
        want: Option<u64>,
    ) -> Result<Opening<Self::Held>, NoMemory>
        requires sync { IsSync R.row }
        requires text { IsSentence text.now }
        requires first { IsCount first }
        requires want { IfSome want IsCount }
        ensures { IfOk result (λ opening. Opens (meaning self.now) (stands self.now) view.now text.now first want opening) };

    /// The next page of a listing, which shows as many candidates as its first. What is held has come no farther than 2^60. The
    /// only error is running out of memory, and then the listing is gone.
    fn more(&self, alloc: Global, held: Self::Held) -> Result<(Self::Held, Tokens, Page), NoMemory>
        requires { (dict : Dictionary) × (progress : Progress) × stands self.now held dict progress × (progress.position ≤ 2 ^ 60) }
        ensures { (dict : Dictionary) (progress : Progress) → stands self.now held dict progress → IfOk result (λ r. GoesOn (meaning self.now) (stands self.now) dict progress r.0 r.1 r.2) };
}
