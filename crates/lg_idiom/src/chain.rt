//! The chain of a compound that fits: its formulas, and the joints that hold them together.
ghost use Rattle.std.specs.Prelude.{◌≡◌, ◌+◌, ◌-◌, ◌<◌, ◌≤◌, [], true, false, ◌&&◌, nat_le, nat_lt, IfOk};
ghost use Rattle.lg_gram.specs.Limits.{POSITIONS};
ghost use Rattle.lg_gram.specs.Names.{joint_text, joint_fits};
ghost use Rattle.lg_gram.specs.Measures.{choice_count};
ghost use Rattle.lg_gram.specs.Trees.{leaf, tree_of};
ghost use Rattle.lg_idiom.specs.Idioms.{pair, formula_at};
ghost use Rattle.lg_idiom.specs.Steps.{IsChainIf, IsLastIf};

use lg_base::{NoMemory, Text};
use lg_gram::{Connector, Expr, Exprs, Formula};
use std::alloc::Global;
use std::marker::Model;

// The greatest rank in a joint's name.
const RANK: usize = 999_999;

/// The chain of a compound that fits, within the limits of joints and formulas.
///
/// Contracts see `{ start, rank, count, word, formula }`, the last being the compound's own formula.
#[derive(Drop)]
pub(crate) struct Chain {
    start: usize,
    rank: usize,
    count: usize,
    word: Text,
    /// The formula of the last position, whose second member is the compound's own.
    last: Formula,
}

impl Model for Chain {
    ghost use Rattle.lg_idiom.specs.Idioms.{Chain as Seen};
    ghost use Rattle.lg_idiom.specs.Kept.{coded_chain, seen_chain, IsKept};

    ghost Value = { Seen };

    ghost coded = { coded_chain };

    ghost view = { seen_chain };

    ghost invariant = { IsKept };
}

impl Chain {
    /// The chain of a compound of so many parts that fits at a position with this rank. None if the rank is above 999,999,
    /// or the chain's last formula passes a limit.
    pub(crate) fn of(
        alloc: Global,
        start: usize,
        rank: usize,
        count: usize,
        word: &[u8],
        formula: &Formula,
    ) -> Result<Option<Chain>, NoMemory>
        requires several { 2 ≤ count }
        requires within { start + count ≤ POSITIONS }
        ensures { IfOk result (IsChainIf (record { start = start; rank = rank; count = count; word = word.now; formula = tree_of formula.now })) }
    {
        if rank > RANK {
            return Ok(None);
        }
        let before = joint(rank, start, count - 2, false);
        let Some(last) = last_formula(alloc, before, formula)? else {
            return Ok(None);
        };
        let word = Text::of(alloc, word)?;
        Ok(Some(Chain {
            start,
            rank,
            count,
            word,
            last,
        }))
    }

    /// The compound.
    pub(crate) fn word(&self) -> &[u8]
        ensures { result.now ≡ self.now.word }
    {
        self.word.bytes()
    }

    /// The position at which it starts.
    pub(crate) fn start(&self) -> usize
        ensures { result ≡ self.now.start }
    {
        self.start
    }

    /// The position after its last one.
    pub(crate) fn end(&self) -> usize
        ensures { result ≡ self.now.start + self.now.count }
    {
        self.start + self.count
    }

    /// The formula that it adds to the position of this number among its own.
    pub(crate) fn formula_at(&self, alloc: Global, number: usize) -> Result<Formula, NoMemory>
        requires { number < self.now.count }
        ensures { IfOk result (λ formula. tree_of formula ≡ formula_at self.now number) }
    {
        if number == self.count - 1 {
            return self.last.copied(alloc);
        }
        let after = Expr::Conn(joint(self.rank, self.start, number, true));
        if number == 0 {
            return Ok(Formula::of_small(after));
        }
        let before = joint(self.rank, self.start, number - 1, false);
        Ok(Formula::of_small(pair(alloc, before, after)?))
    }
}

// What the last position of a chain has: the joint to the one before, and the compound's own formula. None if it passes a
// limit. Its copies share one expression.
fn last_formula(alloc: Global, joint: Connector, own: &Formula) -> Result<Option<Formula>, NoMemory>
    ensures { IfOk result (IsLastIf (pair (leaf joint) (tree_of own.now))) }
{
    let own = own.expr().copied(alloc)?;
    match Formula::of(pair(alloc, joint, own)?) {
        Some(last) => Ok(Some(last.shared(alloc)?)),
        None => Ok(None),
    }
}

// A joint of a chain.
fn joint(rank: usize, start: usize, number: usize, right: bool) -> Connector
    requires { joint_fits rank start number ≡ true }
    ensures { result ≡ record { caps = joint_text rank start number; subs = []; multi = false; right = right } }
{
    Connector::chain(rank as u32, start as u32, number as u32, right).unwrap()
}

// A joint, and an expression after it.
fn pair(alloc: Global, joint: Connector, other: Expr) -> Result<Expr, NoMemory>
    ensures { IfOk result (λ e. tree_of e ≡ pair (leaf joint) (tree_of other)) }
{
    let mut members = Vec::with_capacity(alloc, 2)?;
    members.push(Expr::Conn(joint))?;
    members.push(other)?;
    Ok(Expr::And(Exprs::of(members)))
}
