//! What is always true of a memo, and the steps of a seat.
ghost use Rattle.std.specs.Prelude.{IsSomeAnd};
ghost use Rattle.lg_memo.specs.Rule.{IsStored, IsKept, OddIsTaken, NoShardTwice, EachInOneView};
ghost use Rattle.lg_memo.specs.Steps.{Takes, Gives};
ghost use Rattle.lg_memo.specs.Views.{first_view, without_first, first_alone, joined, spent_view};

use crate::fact::Fact;
use crate::shard::Shard;
use crate::view::{About, View};
use atomic_table::{Join, Play, Split, TableRule};
use std::marker::PhantomData;

/// The rule that each step keeps. The table is told which memo it is.
pub struct MemoRule<T> {
    fact: PhantomData<T>,
}

impl<T: Fact> TableRule<Option<Shard<T>>, View<T::Name>, About<T::Name>> for MemoRule<T> {
    ghost holds = { λ about state. IsKept (λ memo shard entries slot. IsSomeAnd slot (λ s. IsStored T.right memo.name.value shard entries s.number s.entries.items)) about state };

    ghost first = { λ about. first_view about };
}

/// What holds of every memo at every time: the word of a shard is odd, so that `take` answers `None`, exactly where some seat has the
/// shard, no shard is had by two seats, and each number of a seat stands in exactly one view.
pub fn memo_laws<T: Fact>()
    ensures taken { OddIsTaken ⟦<MemoRule<T> as TableRule<Option<Shard<T>>, View<T::Name>, About<T::Name>>>⟧.holds }
    ensures apart { NoShardTwice ⟦<MemoRule<T> as TableRule<Option<Shard<T>>, View<T::Name>, About<T::Name>>>⟧.holds }
    ensures seats { EachInOneView ⟦<MemoRule<T> as TableRule<Option<Shard<T>>, View<T::Name>, About<T::Name>>>⟧.holds }
{}

/// An or of 1 with the word of a shard.
pub struct Take<T> {
    fact: PhantomData<T>,
}

impl<T: Fact> Play<Option<Shard<T>>, View<T::Name>> for Take<T> {
    ghost then = { λ step me found after. Takes (λ memo shard entries slot. IsSomeAnd slot (λ s. IsStored T.right memo.name.value shard entries s.number s.entries.items)) step me found after };
}

/// A store of twice the count of the entries.
pub struct Give<T> {
    fact: PhantomData<T>,
}

impl<T: Fact> Play<Option<Shard<T>>, View<T::Name>> for Give<T> {
    ghost then = { λ step me found after. Gives step me found after };
}

/// The first number goes to a new seat.
pub struct GiveFirst;

impl<N> Split<View<N>> for GiveFirst {
    ghost left = { λ v. without_first v };

    ghost right = { λ v. first_alone v };
}

/// One seat takes over what the other knows.
pub struct TakeOver;

impl<N> Join<View<N>> for TakeOver {
    ghost both = { λ v w. joined v w };

    ghost spent = { spent_view };
}
