//! How many tokens a sentence has.
ghost use Rattle.std.specs.Prelude.{◌≡◌, ◌+◌, ◌*◌, ◌^◌, ◌<◌, ◌≤◌, ℕ, length, true, IfOk};
ghost use Rattle.lg_lex.specs.Runs.{runs_from};
ghost use Rattle.lg_lex.specs.declared.run.Separators.TheVariants.{Blanks};
ghost use Rattle.lg_token.specs.Steps.{Counts};
ghost use Rattle.lg_token.specs.Tokens.{AreOfChunks, IsWall, HasTokens};

use crate::cuts::count_pieces;
use crate::tokenizing::{LEFT_WALL, RIGHT_WALL};
use lg_base::NoMemory;
use lg_dict::View;
use lg_lex::{Separators, next_run, runs_are_one_list};
use std::alloc::Global;

/// How many tokens a sentence has, walls among them. None of them is made, and no list of words: the memory is that of one
/// chunk.
///
/// The text has fewer than 2^32 bytes.
pub fn count_tokens(alloc: Global, view: &View, text: &str) -> Result<u64, NoMemory>
    requires { length text.now < 2 ^ 32 }
    ensures { IfOk result (HasTokens view.now text.now) }
{
    runs_are_one_list();
    let chunks = count_in_chunks(alloc, view, text.as_bytes())?;
    Ok(count_wall(view, LEFT_WALL) + chunks + count_wall(view, RIGHT_WALL))
}

// How many tokens a wall is: one, where the dictionary has its word.
fn count_wall(view: &View, name: &[u8]) -> u64
    ensures wall { (at : ℕ) → Counts (IsWall view.now name.now at) result }
    ensures few { result ≤ 1 }
{
    if view.has(name) { 1 } else { 0 }
}

fn count_in_chunks(alloc: Global, view: &View, text: &[u8]) -> Result<u64, NoMemory>
    requires { length text.now < 2 ^ 32 }
    ensures chunks { IfOk result (Counts (AreOfChunks view.now true (runs_from Blanks text.now 0))) }
    ensures few { IfOk result (λ count. count ≤ 2 * length text.now) }
{
    let mut count = 0;
    let mut from = 0;
    let mut initial = true;
    while let Some(run) = next_run(Separators::Blanks, text, from) {
        count += count_pieces(alloc, view, initial, run.bytes)?;
        initial = false;
        from = run.end;
    }
    Ok(count)
}
