//! Ranks of leaves: numbers that compare as their connectors do.
ghost use Rattle.std.specs.Prelude.{◌≡◌, map, get_or, IfOk};
ghost use Rattle.std.specs.List.Sorted.{IsSorted, IsPermutation};
ghost use Rattle.lg_gram.specs.Connectors.{connector_cmp};
ghost use Rattle.lg_disj.specs.Ranks.{AreRanks, IsRankIn};

use lg_base::NoMemory;
use lg_gram::Connector;
use std::alloc::Global;
use std::cmp::Ordering;

/// The rank of each leaf: how many of them come before it.
pub(crate) fn ranks_of(alloc: Global, leaves: &[Connector]) -> Result<Vec<usize>, NoMemory>
    ensures { IfOk result (λ ranks. AreRanks leaves.now ranks.items) }
{
    let sorted = in_order(alloc, leaves)?;
    let mut ranks = Vec::with_capacity(alloc, leaves.len())?;
    for leaf in leaves {
        ranks.push(rank_in(&sorted, leaf))?;
    }
    Ok(ranks)
}

fn in_order(alloc: Global, leaves: &[Connector]) -> Result<Vec<Connector>, NoMemory>
    ensures order { IfOk result (λ sorted. IsSorted connector_cmp sorted.items) }
    ensures moved { IfOk result (λ sorted. IsPermutation leaves.now sorted.items) }
{
    let mut sorted = Vec::with_capacity(alloc, leaves.len())?;
    sorted.extend_from_slice(leaves)?;
    sorted.sort_by(|a, b| a.compare(b))?;
    Ok(sorted)
}

fn rank_in(sorted: &[Connector], leaf: &Connector) -> usize
    requires { IsSorted connector_cmp sorted.now }
    ensures { IsRankIn sorted.now leaf.now result }
{
    sorted.partition_point(|other| other.compare(leaf) == Ordering::Less)
}

/// The ranks of the leaves at these places.
pub(crate) fn ranks_at(
    alloc: Global,
    ranks: &[usize],
    places: &[usize],
) -> Result<Vec<usize>, NoMemory>
    ensures { IfOk result (λ ranked. ranked.items ≡ map (λ n. get_or ranks.now n 0) places.now) }
{
    let mut ranked = Vec::with_capacity(alloc, places.len())?;
    for place in places {
        ranked.push(rank_at(ranks, *place))?;
    }
    Ok(ranked)
}

/// The rank at a place.
pub(crate) fn rank_at(ranks: &[usize], place: usize) -> usize
    ensures { result ≡ get_or ranks.now place 0 }
{
    ranks.get(place).copied().unwrap_or(0)
}
