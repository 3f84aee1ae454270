//! Choices side by side in memory.
ghost use Rattle.std.specs.Prelude.{◌≡◌, ◌<◌, ◌≤◌, ◌+ℤ◌, ◌++◌, ◌∷◌, [], length, map, take, drop, get_or, OnOk};
ghost use Rattle.std.specs.List.{All};
ghost use Rattle.lg_base.specs.Costs.{IsWithinCosts};
ghost use Rattle.lg_gram.specs.Problems.{IsDisjunctCost};
ghost use Rattle.lg_disj.specs.Places.{no_places, side_of, listed, raised, raised_row, IsArena, IsCheap};

use lg_base::{Cost, NoMemory};
use std::alloc::Global;

/// Where the lists of a choice lie: the left list from `from` to `middle`, the right list from there to `end`.
#[derive(Clone, Copy, Debug)]
pub(crate) struct Row {
    pub(crate) from: usize,
    pub(crate) middle: usize,
    pub(crate) end: usize,
    pub(crate) cost: Cost,
}

/// Ways to use an expression: the places of connectors in a list of leaves, all in one vector, and a row for each choice.
#[derive(Debug, Drop)]
pub(crate) struct Choices {
    pub(crate) places: Vec<usize>,
    pub(crate) rows: Vec<Row>,
}

impl Choices {
    /// No choices.
    pub(crate) fn new(alloc: Global) -> Choices
        ensures exact { listed result ≡ [] }
        ensures within { IsArena result }
    {
        Choices {
            places: Vec::new(alloc),
            rows: Vec::new(alloc),
        }
    }

    /// How many choices there are.
    pub(crate) fn len(&self) -> usize
        ensures { result ≡ length (listed self.now) }
    {
        self.rows.len()
    }

    /// The places to the left, from near to far.
    pub(crate) fn left(&self, number: usize) -> &[usize]
        requires arena { IsArena self.now }
        requires within { number < length (listed self.now) }
        ensures { result.now ≡ (get_or (listed self.now) number no_places).left }
    {
        let row = self.rows[number];
        &self.places[row.from..row.middle]
    }

    /// The places to the right, from near to far.
    pub(crate) fn right(&self, number: usize) -> &[usize]
        requires arena { IsArena self.now }
        requires within { number < length (listed self.now) }
        ensures { result.now ≡ (get_or (listed self.now) number no_places).right }
    {
        let row = self.rows[number];
        &self.places[row.middle..row.end]
    }

    /// The places on a side, `true` the right, from near to far.
    pub(crate) fn side(&self, right: bool, number: usize) -> &[usize]
        requires arena { IsArena self.now }
        requires within { number < length (listed self.now) }
        ensures { result.now ≡ side_of right (get_or (listed self.now) number no_places) }
    {
        if right {
            self.right(number)
        } else {
            self.left(number)
        }
    }

    /// What a choice costs.
    pub(crate) fn cost(&self, number: usize) -> Cost
        requires within { number < length (listed self.now) }
        ensures { result ≡ (get_or (listed self.now) number no_places).cost }
    {
        self.rows[number].cost
    }

    /// Makes room for each of some choices joined with each of others.
    pub(crate) fn reserve_products(
        &mut self,
        firsts: &Choices,
        seconds: &Choices,
    ) -> Result<(), NoMemory>
        requires { IsArena self.old }
        ensures exact { listed self.new ≡ listed self.old }
        ensures within { IsArena self.new }
    {
        let (first, second) = (firsts.rows.len(), seconds.rows.len());
        let before = firsts.places.len().saturating_mul(second);
        let behind = seconds.places.len().saturating_mul(first);
        self.rows.reserve(first.saturating_mul(second))?;
        self.places.reserve(before.saturating_add(behind))?;
        Ok(())
    }

    /// Adds a choice, each of its lists in two parts.
    pub(crate) fn push(
        &mut self,
        left: &[usize],
        next_left: &[usize],
        right: &[usize],
        next_right: &[usize],
        cost: Cost,
    ) -> Result<(), NoMemory>
        requires { IsArena self.old }
        ensures exact { OnOk result (listed self.new ≡ listed self.old ++ record { left = left.now ++ next_left.now; right = right.now ++ next_right.now; cost = cost } ∷ []) }
        ensures within { OnOk result (IsArena self.new) }
    {
        let from = self.places.len();
        add(&mut self.places, left)?;
        add(&mut self.places, next_left)?;
        let middle = self.places.len();
        add(&mut self.places, right)?;
        add(&mut self.places, next_right)?;
        let end = self.places.len();
        let row = Row {
            from,
            middle,
            end,
            cost,
        };
        self.rows.push(row)?;
        Ok(())
    }

    /// Adds the choices of another list behind these.
    pub(crate) fn append(&mut self, others: &Choices) -> Result<(), NoMemory>
        requires arena { IsArena self.old }
        requires others { IsArena others.now }
        ensures exact { OnOk result (listed self.new ≡ listed self.old ++ listed others.now) }
        ensures within { OnOk result (IsArena self.new) }
    {
        let start = self.places.len();
        self.places.extend_from_slice(&others.places)?;
        for row in others.rows.iter() {
            self.rows.push(Row {
                from: start + row.from,
                middle: start + row.middle,
                end: start + row.end,
                cost: row.cost,
            })?;
        }
        Ok(())
    }

    /// Adds the cost of a bracket to the choices from this one on.
    pub(crate) fn add_price(&mut self, first: usize, price: Cost)
        requires within { first ≤ length (listed self.old) }
        requires costs { All IsCheap (drop first (listed self.old)) }
        requires price { IsDisjunctCost price }
        ensures exact { listed self.new ≡ take first (listed self.old) ++ map (raised price) (drop first (listed self.old)) }
        ensures within { IsArena self.old → IsArena self.new }
    {
        raise(&mut self.rows[first..], price);
    }
}

fn raise(rows: &mut [Row], price: Cost)
    requires { All (λ row. IsWithinCosts (row.cost +ℤ price)) rows.old }
    ensures { rows.new ≡ map (raised_row price) rows.old }
{
    for row in rows.iter_mut() {
        row.cost = row.cost.plus(price);
    }
}

// Most lists are empty, and then nothing is called.
fn add(places: &mut Vec<usize>, more: &[usize]) -> Result<(), NoMemory>
    ensures { OnOk result (places.new.items ≡ places.old.items ++ more.now) }
{
    if more.is_empty() {
        return Ok(());
    }
    places.extend_from_slice(more)?;
    Ok(())
}
