//! Chains by word and then by start.
ghost use Rattle.std.specs.Prelude.{◌≡◌, ◌↔◌, IfOk};
ghost use Rattle.std.specs.List.{Contains};
ghost use Rattle.std.specs.List.Sorted.{IsStrictlySortedBy};
ghost use Rattle.lg_idiom.specs.Idioms.{Chain as Seen, word_cmp};
ghost use Rattle.lg_idiom.specs.Takings.{AreToldApart};

use crate::chain::Chain;
use lg_base::NoMemory;
use std::cmp::Ordering;

/// These chains by word and then by start, each once.
pub(crate) fn by_word(mut chains: Vec<Chain>) -> Result<Vec<Chain>, NoMemory>
    requires { AreToldApart chains.items }
    ensures rise { IfOk result (λ list. IsStrictlySortedBy word_cmp list.items) }
    ensures same { IfOk result (λ list. (c : Seen) → Contains list.items c ↔ Contains chains.items c) }
{
    chains.sort_by(|a, b| compare(a, b))?;
    chains.dedup_by(|next, kept| compare(next, kept) == Ordering::Equal);
    Ok(chains)
}

// By word and then by start.
fn compare(a: &Chain, b: &Chain) -> Ordering
    ensures { result ≡ word_cmp a.now b.now }
{
    a.word().cmp(b.word()).then(a.start().cmp(&b.start()))
}
