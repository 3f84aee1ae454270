//! A table of nodes that make their parts on demand, in order.
ghost use Rattle.std.specs.Prelude.{◌≡◌, ℕ, List, ◌+◌, ◌<◌, ◌≤◌, suc, [], length, slice_get, IfOk, OnOk, Some};
ghost use Rattle.lg_rank.specs.Fronts.{IsListOf};
ghost use Rattle.lg_rank.specs.Values.{Value, value_of, value_cmp};
ghost use Rattle.lg_rank.specs.Nodes.{Has, IsForest, ways_of};
ghost use Rattle.lg_rank.specs.Tables.{forest_of, parts, made_at, IsTable, Grown, end_of, IsNth, IsBegun, IsPart, GoesOn, IsFirstOf, Advances, Begin, IsIdle, RowsOf};

use crate::node::{
    Node, Row, add, choose, is_begun, least_of_rows, made_count, part_count, queue_of, ready_count,
    show_least, start_node, take_part, way_count, way_of,
};
use crate::part::{Part, Way};
use crate::queue::alone;
use lg_base::NoMemory;
use std::alloc::Global;

/// The nodes, parts before wholes.
#[derive(Debug, Drop)]
pub struct Table {
    pub nodes: Vec<Node>,
}

// The place behind that of a value that can be read.
fn next_place(nothing: &Part, nodes: &[Node], part: Option<usize>, i: usize) -> usize
    requires { i < length (parts (value_of nothing.now) nodes.now part) }
    ensures { result ≡ suc i }
{
    let count = part_count(nothing, nodes, part);
    let within = i < count;
    prove!(within);
    i + 1
}

impl Table {
    /// Whether node `k` has a part at `i`, which can be read then. Only the parts before it are made for that.
    #[cycle(merge)]
    pub fn nth(
        &mut self,
        alloc: Global,
        nothing: &Part,
        k: usize,
        i: usize,
    ) -> Result<bool, NoMemory>
        requires within { k < length self.old.nodes.items }
        requires forest { IsForest (value_of nothing.now) (forest_of self.old.nodes.items) }
        requires table { IsTable (value_of nothing.now) self.old.nodes.items }
        ensures table { IsTable (value_of nothing.now) self.new.nodes.items }
        ensures grown { Grown (suc k) self.old.nodes.items self.new.nodes.items }
        ensures value { IfOk result (λ r. IsNth (value_of nothing.now) self.new.nodes.items (Some k) i r) }
    {
        if !is_begun(self.nodes.as_slice(), k) {
            if i == 0 {
                return self.peek(alloc, nothing, k);
            }
            self.begin(alloc, nothing, k)?;
        }
        'making: while made_count(self.nodes.as_slice(), k) < i {
            if !self.advance(alloc, nothing, k)? {
                return Ok(false);
            }
        }
        Ok(i < ready_count(self.nodes.as_slice(), k))
    }

    #[cycle(merge)]
    fn part(
        &mut self,
        alloc: Global,
        nothing: &Part,
        part: Option<usize>,
        i: usize,
    ) -> Result<bool, NoMemory>
        requires within { IsPart self.old.nodes.items part }
        requires forest { IsForest (value_of nothing.now) (forest_of self.old.nodes.items) }
        requires table { IsTable (value_of nothing.now) self.old.nodes.items }
        ensures table { IsTable (value_of nothing.now) self.new.nodes.items }
        ensures grown { Grown (end_of part) self.old.nodes.items self.new.nodes.items }
        ensures value { IfOk result (λ r. IsNth (value_of nothing.now) self.new.nodes.items part i r) }
    {
        match part {
            None => Ok(i == 0),
            Some(j) => self.nth(alloc, nothing, j, i),
        }
    }

    // The first row of the right part's value at `at`, of way `p` of node `k`.
    #[cycle(merge)]
    fn first_row(
        &mut self,
        alloc: Global,
        nothing: &Part,
        k: usize,
        p: usize,
        way: Way,
        at: usize,
    ) -> Result<Option<Row>, NoMemory>
        requires within { k < length self.old.nodes.items }
        requires left_below { end_of way.left ≤ k }
        requires right_below { end_of way.right ≤ k }
        requires forest { IsForest (value_of nothing.now) (forest_of self.old.nodes.items) }
        requires table { IsTable (value_of nothing.now) self.old.nodes.items }
        ensures table { IsTable (value_of nothing.now) self.new.nodes.items }
        ensures grown { Grown k self.old.nodes.items self.new.nodes.items }
        ensures value { IfOk result (λ r. IsFirstOf (value_of nothing.now) self.new.nodes.items p way at r) }
    {
        if !self.part(alloc, nothing, way.left, 0)? {
            return Ok(None);
        }
        if !self.part(alloc, nothing, way.right, at)? {
            return Ok(None);
        }
        Ok(Some(Row {
            way: p,
            at,
            next: 0,
            live: true,
        }))
    }

    // How a row of node `k` goes on when its value is taken.
    #[cycle(merge)]
    fn following(
        &mut self,
        alloc: Global,
        nothing: &Part,
        k: usize,
        way: Way,
        row: Row,
    ) -> Result<Row, NoMemory>
        requires within { k < length self.old.nodes.items }
        requires left_below { end_of way.left ≤ k }
        requires made { row.next < length (parts (value_of nothing.now) self.old.nodes.items way.left) }
        requires forest { IsForest (value_of nothing.now) (forest_of self.old.nodes.items) }
        requires table { IsTable (value_of nothing.now) self.old.nodes.items }
        ensures table { IsTable (value_of nothing.now) self.new.nodes.items }
        ensures grown { Grown k self.old.nodes.items self.new.nodes.items }
        ensures value { IfOk result (λ r. GoesOn (value_of nothing.now) self.new.nodes.items way row r) }
    {
        let next = next_place(nothing, self.nodes.as_slice(), way.left, row.next);
        let live = self.part(alloc, nothing, way.left, next)?;
        Ok(Row {
            way: row.way,
            at: row.at,
            next,
            live,
        })
    }
}

impl Table {
    // The rows with which node `k` begins: the first one of each way.
    #[cycle(merge)]
    fn first_rows(&mut self, alloc: Global, nothing: &Part, k: usize) -> Result<Vec<Row>, NoMemory>
        requires within { k < length self.old.nodes.items }
        requires forest { IsForest (value_of nothing.now) (forest_of self.old.nodes.items) }
        requires table { IsTable (value_of nothing.now) self.old.nodes.items }
        ensures table { IsTable (value_of nothing.now) self.new.nodes.items }
        ensures grown { Grown k self.old.nodes.items self.new.nodes.items }
        ensures rows { IfOk result (λ rows. RowsOf (value_of nothing.now) (forest_of self.new.nodes.items) (parts (value_of nothing.now) self.new.nodes.items) k (length (ways_of (forest_of self.new.nodes.items) k)) [] rows.items) }
    {
        let mut rows = Vec::new(alloc);
        let count = way_count(self.nodes.as_slice(), k);
        for p in 0..count {
            let way = way_of(nothing, self.nodes.as_slice(), k, p);
            let first = self.first_row(alloc, nothing, k, p, way, 0)?;
            add(&mut rows, first)?;
        }
        Ok(rows)
    }

    // Whether node `k`, which is not begun, has a part. Of its parts the least is found alone.
    #[cycle(merge)]
    fn peek(&mut self, alloc: Global, nothing: &Part, k: usize) -> Result<bool, NoMemory>
        requires within { k < length self.old.nodes.items }
        requires forest { IsForest (value_of nothing.now) (forest_of self.old.nodes.items) }
        requires table { IsTable (value_of nothing.now) self.old.nodes.items }
        requires idle { IsIdle self.old.nodes.items k }
        ensures table { IsTable (value_of nothing.now) self.new.nodes.items }
        ensures grown { Grown (suc k) self.old.nodes.items self.new.nodes.items }
        ensures value { IfOk result (λ r. IsNth (value_of nothing.now) self.new.nodes.items (Some k) 0 r) }
    {
        if ready_count(self.nodes.as_slice(), k) > 0 {
            return Ok(true);
        }
        let rows = self.first_rows(alloc, nothing, k)?;
        let least = least_of_rows(alloc, nothing, self.nodes.as_slice(), k, rows.as_slice())?;
        let queue = alone(alloc, least)?;
        show_least(nothing, &mut self.nodes, k, queue);
        Ok(ready_count(self.nodes.as_slice(), k) > 0)
    }

    // Node `k` begins: all its rows wait.
    #[cycle(merge)]
    fn begin(&mut self, alloc: Global, nothing: &Part, k: usize) -> Result<(), NoMemory>
        requires within { k < length self.old.nodes.items }
        requires forest { IsForest (value_of nothing.now) (forest_of self.old.nodes.items) }
        requires table { IsTable (value_of nothing.now) self.old.nodes.items }
        requires idle { IsIdle self.old.nodes.items k }
        ensures table { IsTable (value_of nothing.now) self.new.nodes.items }
        ensures grown { Grown (suc k) self.old.nodes.items self.new.nodes.items }
        ensures begun { OnOk result (IsBegun self.new.nodes.items k) }
    {
        let rows = self.first_rows(alloc, nothing, k)?;
        let queue = queue_of(alloc, nothing, self.nodes.as_slice(), k, rows.as_slice())?;
        start_node(nothing, &mut self.nodes, k, rows, queue);
        Ok(())
    }

    // Makes one more value of node `k`.
    #[cycle(merge)]
    fn advance(&mut self, alloc: Global, nothing: &Part, k: usize) -> Result<bool, NoMemory>
        requires within { k < length self.old.nodes.items }
        requires forest { IsForest (value_of nothing.now) (forest_of self.old.nodes.items) }
        requires table { IsTable (value_of nothing.now) self.old.nodes.items }
        requires begun { IsBegun self.old.nodes.items k }
        ensures table { IsTable (value_of nothing.now) self.new.nodes.items }
        ensures grown { Grown (suc k) self.old.nodes.items self.new.nodes.items }
        ensures begun { IsBegun self.new.nodes.items k }
        ensures more { IfOk result (λ r. Advances (value_of nothing.now) self.old.nodes.items self.new.nodes.items k r) }
    {
        let Some(choice) = choose(nothing, self.nodes.as_slice(), k) else {
            return Ok(false);
        };
        let after = self.following(alloc, nothing, k, choice.way, choice.row)?;
        let first = self.beginning(alloc, nothing, k, choice.way, choice.row)?;
        take_part(alloc, nothing, &mut self.nodes, k, choice, after, first)?;
        Ok(true)
    }

    // The row that begins when a row of node `k` is taken, if one does.
    #[cycle(merge)]
    fn beginning(
        &mut self,
        alloc: Global,
        nothing: &Part,
        k: usize,
        way: Way,
        row: Row,
    ) -> Result<Option<Row>, NoMemory>
        requires within { k < length self.old.nodes.items }
        requires left_below { end_of way.left ≤ k }
        requires right_below { end_of way.right ≤ k }
        requires made { row.at < length (parts (value_of nothing.now) self.old.nodes.items way.right) }
        requires forest { IsForest (value_of nothing.now) (forest_of self.old.nodes.items) }
        requires table { IsTable (value_of nothing.now) self.old.nodes.items }
        ensures table { IsTable (value_of nothing.now) self.new.nodes.items }
        ensures grown { Grown k self.old.nodes.items self.new.nodes.items }
        ensures value { IfOk result (λ r. Begin (value_of nothing.now) self.new.nodes.items way row r) }
    {
        if row.next != 0 {
            return Ok(None);
        }
        let at = next_place(nothing, self.nodes.as_slice(), way.right, row.at);
        self.first_row(alloc, nothing, k, row.way, way, at)
    }
}

impl Table {
    /// Whether a part has a value at `i`, counted from 0 in order. It can be read then. After an error what was made is
    /// kept, and the next call goes on.
    pub fn has_part(
        &mut self,
        alloc: Global,
        nothing: &Part,
        part: Option<usize>,
        i: usize,
    ) -> Result<bool, NoMemory>
        requires within { IsPart self.old.nodes.items part }
        requires forest { IsForest (value_of nothing.now) (forest_of self.old.nodes.items) }
        requires table { IsTable (value_of nothing.now) self.old.nodes.items }
        ensures table { IsTable (value_of nothing.now) self.new.nodes.items }
        ensures same { forest_of self.new.nodes.items ≡ forest_of self.old.nodes.items }
        ensures value { IfOk result (λ r. IsNth (value_of nothing.now) self.new.nodes.items part i r) }
        ensures listed { (all : List Value) → IsListOf value_cmp (Has (value_of nothing.now) (forest_of self.old.nodes.items) part) all → IfOk result (λ r. slice_get all i ≡ slice_get (parts (value_of nothing.now) self.new.nodes.items part) i) }
    {
        match self.part(alloc, nothing, part, i) {
            Ok(there) => Ok(there),
            Err(error) => Err(error),
        }
    }
}
