//! The nodes of a table: the ways of a node, the parts that were made, and the rows from which the next comes.
ghost use Rattle.std.specs.Prelude.{◌≡◌, ◌+◌, ◌<◌, ◌++◌, ◌∷◌, [], List, length, slice_get, suc, OnErr, OnOk, IfOk, IsTrue, MatchOption, Some, true, false};
ghost use Rattle.std.specs.BinaryHeap.{heap_items};
ghost use Rattle.std.specs.Vec.{vec_len, vec_capacity};
ghost use Rattle.lg_rank.specs.Fronts.{IsAll};
ghost use Rattle.lg_rank.specs.Merges.{Advanced};
ghost use Rattle.std.specs.declared.cmp.Ordering.TheVariants.{Less};
ghost use Rattle.lg_rank.specs.Values.{value_cmp, value_of};
ghost use Rattle.lg_rank.specs.Nodes.{Has, ways_of, IsForest};
ghost use Rattle.lg_rank.specs.Sources.{value_in};
ghost use Rattle.lg_rank.specs.Queues.{least_part, IsFirstAt, IsLeastOf, IsLesser, IsOpened, IsQueue, IsWaiting};
ghost use Rattle.lg_rank.specs.Tables.{forest_of, parts, made_at, ready_at, IsTable, IsBegun, IsIdle, rows_at, queue_at, held_by, IsWayOf, Holds, value_at, Chosen, GoesOn, Begin, HasRoom, Puts, Grown, IsPeeked, IsSameNode, Shows, Starts, Stepped, RowsOf, row_list};

use crate::candidate::Candidate;
use crate::part::{Part, Way};
use crate::queue::{Waiting, first_place, least_count, least_of, put_in, take_first};
use crate::ready::Ready;
use crate::small::SmallWay;
use crate::source::Source;
use lg_base::NoMemory;
use std::alloc::Global;
use std::cmp::Ordering;
use std::collections::BinaryHeap;

/// The parts that one way makes with one right part, one after another: those with the left parts from `next` on are not taken
/// yet. The row is live where there is a left part at `next`.
#[derive(Clone, Copy, Debug)]
pub struct Row {
    pub way: usize,
    pub at: usize,
    pub next: usize,
    pub live: bool,
}

/// A node, with the parts that were made. A live row waits in the queue with the part that it makes next. The first of the queue
/// is the part behind those that were made: it can be read there, so that no part is made before the one behind it is asked for.
///
/// Of most nodes the least part alone is asked for. Such a node is not begun: it has no rows, and its least part waits alone.
#[derive(Debug, Drop)]
pub struct Node {
    pub ways: Vec<SmallWay>,
    pub made: Vec<Part>,
    pub rows: Vec<Row>,
    pub queue: BinaryHeap<Waiting>,
    pub begun: bool,
}

impl Node {
    /// A node with these ways, of which nothing was made.
    pub fn idle(alloc: Global, ways: Vec<SmallWay>) -> Node
        ensures ways { result.ways ≡ ways }
        ensures made { result.made.items ≡ [] }
        ensures waiting { heap_items result.queue ≡ [] }
        ensures idle { result.begun ≡ false }
    {
        Node {
            ways,
            made: Vec::new(alloc),
            rows: Vec::new(alloc),
            queue: BinaryHeap::new(alloc),
            begun: false,
        }
    }
}

/// A live row, with its place and its way.
#[derive(Clone, Copy)]
pub struct Choice {
    pub place: usize,
    pub row: Row,
    pub way: Way,
}

/// Whether the node is begun.
pub fn is_begun(nodes: &[Node], k: usize) -> bool
    requires { k < length nodes.now }
    ensures yes { result ≡ true → IsBegun nodes.now k }
    ensures no { result ≡ false → IsIdle nodes.now k }
{
    nodes[k].begun
}

/// How many parts of the node were made.
pub fn made_count(nodes: &[Node], k: usize) -> usize
    requires { k < length nodes.now }
    ensures { result ≡ length (made_at nodes.now k) }
{
    nodes[k].made.len()
}

/// How many ways the node has.
pub fn way_count(nodes: &[Node], k: usize) -> usize
    requires { k < length nodes.now }
    ensures { result ≡ length (ways_of (forest_of nodes.now) k) }
{
    nodes[k].ways.len()
}

/// Way `p` of the node.
pub fn way_of(nothing: &Part, nodes: &[Node], k: usize, p: usize) -> Way
    requires within { k < length nodes.now }
    requires forest { IsForest (value_of nothing.now) (forest_of nodes.now) }
    requires p_in { p < length (ways_of (forest_of nodes.now) k) }
    ensures { IsWayOf nodes.now k p result }
{
    nodes[k].ways[p].full()
}

/// How many parts of the node can be read: those that were made, and the least that waits.
pub fn ready_count(nodes: &[Node], k: usize) -> usize
    requires { k < length nodes.now }
    ensures { result ≡ length (ready_at nodes.now k) }
{
    let node = &nodes[k];
    node.made.len() + least_count(&node.queue)
}

/// How many values of a part can be read.
pub fn part_count(nothing: &Part, nodes: &[Node], part: Option<usize>) -> usize
    ensures { result ≡ length (parts (value_of nothing.now) nodes.now part) }
{
    match part {
        None => 1,
        Some(k) => {
            if k < nodes.len() {
                ready_count(nodes, k)
            } else {
                0
            }
        }
    }
}

/// The value at `i` of a part.
pub fn part_of<'a>(
    nothing: &'a Part,
    nodes: &'a [Node],
    part: Option<usize>,
    i: usize,
) -> Source<'a>
    requires { i < length (parts (value_of nothing.now) nodes.now part) }
    ensures { slice_get (parts (value_of nothing.now) nodes.now part) i ≡ Some (value_in result) }
{
    match part {
        None => Source::Made(nothing),
        Some(k) => ready_part(nodes, k, i),
    }
}

// Part `i` of those of the node that can be read. Behind those that were made stands the least that waits.
fn ready_part(nodes: &[Node], k: usize, i: usize) -> Source<'_>
    requires { i < length (ready_at nodes.now k) }
    ensures { slice_get (ready_at nodes.now k) i ≡ Some (value_in result) }
{
    let node = &nodes[k];
    if i < node.made.len() {
        Source::Made(&node.made[i])
    } else {
        Source::Waiting(least_of(&node.queue))
    }
}

fn row_count(nodes: &[Node], k: usize) -> usize
    requires { k < length nodes.now }
    ensures { result ≡ length (rows_at nodes.now k) }
{
    nodes[k].rows.len()
}

fn row_of(nodes: &[Node], k: usize, i: usize) -> Row
    requires { i < length (rows_at nodes.now k) }
    ensures { slice_get (rows_at nodes.now k) i ≡ Some result }
{
    nodes[k].rows[i]
}

// The part that a row of the node makes.
fn row_part(
    alloc: Global,
    nothing: &Part,
    nodes: &[Node],
    k: usize,
    row: Row,
) -> Result<Ready, NoMemory>
    requires within { k < length nodes.now }
    requires forest { IsForest (value_of nothing.now) (forest_of nodes.now) }
    requires table { IsTable (value_of nothing.now) nodes.now }
    requires holds { Holds (value_of nothing.now) nodes.now k row }
    ensures { IfOk result (λ part. value_of part ≡ value_at (value_of nothing.now) nodes.now k row) }
{
    let way = way_of(nothing, nodes, k, row.way);
    let left = part_of(nothing, nodes, way.left, row.next);
    let right = part_of(nothing, nodes, way.right, row.at);
    let candidate = Candidate { way, left, right };
    let part = candidate.make(alloc)?;
    Ok(part)
}

// Whether the part that a row of the node makes comes behind another, as its cost or its span tells.
fn row_is_behind(nothing: &Part, nodes: &[Node], k: usize, row: Row, part: &Part) -> bool
    requires within { k < length nodes.now }
    requires forest { IsForest (value_of nothing.now) (forest_of nodes.now) }
    requires table { IsTable (value_of nothing.now) nodes.now }
    requires holds { Holds (value_of nothing.now) nodes.now k row }
    ensures { IsTrue result → value_cmp (value_of part.now) (value_at (value_of nothing.now) nodes.now k row) ≡ Less }
{
    let way = way_of(nothing, nodes, k, row.way);
    let left = part_of(nothing, nodes, way.left, row.next);
    let right = part_of(nothing, nodes, way.right, row.at);
    let candidate = Candidate { way, left, right };
    candidate.is_behind(part)
}

// The place of the live row with the least part, or none where no row is live.
fn first_of(nodes: &[Node], k: usize) -> Option<usize>
    requires { k < length nodes.now }
    ensures { MatchOption result (queue_at nodes.now k ≡ []) (λ m. IsFirstAt (queue_at nodes.now k) m) }
{
    first_place(&nodes[k].queue)
}

/// The row that holds the least value. None where all values of the node were made.
pub fn choose(nothing: &Part, nodes: &[Node], k: usize) -> Option<Choice>
    requires within { k < length nodes.now }
    requires forest { IsForest (value_of nothing.now) (forest_of nodes.now) }
    requires table { IsTable (value_of nothing.now) nodes.now }
    requires begun { IsBegun nodes.now k }
    ensures { MatchOption result (IsAll (Has (value_of nothing.now) (forest_of nodes.now) (Some k)) (made_at nodes.now k)) (λ c. Chosen (value_of nothing.now) nodes.now k c) }
{
    match first_of(nodes, k) {
        None => None,
        Some(place) => {
            let row = row_of(nodes, k, place);
            let way = way_of(nothing, nodes, k, row.way);
            Some(Choice { place, row, way })
        }
    }
}

// The row with the part that it makes, or none where it is spent.
fn with_part(
    alloc: Global,
    nothing: &Part,
    nodes: &[Node],
    k: usize,
    place: usize,
    row: Row,
) -> Result<Option<Waiting>, NoMemory>
    requires within { k < length nodes.now }
    requires forest { IsForest (value_of nothing.now) (forest_of nodes.now) }
    requires table { IsTable (value_of nothing.now) nodes.now }
    requires holds { row.live ≡ true → Holds (value_of nothing.now) nodes.now k row }
    ensures { IfOk result (IsWaiting (held_by (value_of nothing.now) nodes.now k) place row) }
{
    if !row.live {
        return Ok(None);
    }
    let part = row_part(alloc, nothing, nodes, k, row)?;
    Ok(Some(Waiting { place, part }))
}

// The lesser of a part and of what a row makes. What is told by cost or span alone is not spelled.
fn lesser(
    alloc: Global,
    nothing: &Part,
    nodes: &[Node],
    k: usize,
    place: usize,
    row: Row,
    least: Waiting,
) -> Result<Waiting, NoMemory>
    requires within { k < length nodes.now }
    requires forest { IsForest (value_of nothing.now) (forest_of nodes.now) }
    requires table { IsTable (value_of nothing.now) nodes.now }
    requires holds { row.live ≡ true → Holds (value_of nothing.now) nodes.now k row }
    ensures { IfOk result (IsLesser (held_by (value_of nothing.now) nodes.now k) place row least) }
{
    if !row.live {
        return Ok(least);
    }
    if row_is_behind(nothing, nodes, k, row, least.part.part()) {
        return Ok(least);
    }
    let part = row_part(alloc, nothing, nodes, k, row)?;
    if part.compare(&least.part) == Ordering::Less {
        return Ok(Waiting { place, part });
    }
    Ok(least)
}

// The least of some rows and of one more.
fn least_with(
    alloc: Global,
    nothing: &Part,
    nodes: &[Node],
    k: usize,
    place: usize,
    row: Row,
    least: Option<Waiting>,
) -> Result<Option<Waiting>, NoMemory>
    requires within { k < length nodes.now }
    requires forest { IsForest (value_of nothing.now) (forest_of nodes.now) }
    requires table { IsTable (value_of nothing.now) nodes.now }
    requires holds { row.live ≡ true → Holds (value_of nothing.now) nodes.now k row }
    ensures { IfOk result (λ next. (rows : List Row) → place ≡ length rows → IsLeastOf (held_by (value_of nothing.now) nodes.now k) rows least → IsLeastOf (held_by (value_of nothing.now) nodes.now k) (rows ++ row ∷ []) next) }
{
    match least {
        None => with_part(alloc, nothing, nodes, k, place, row),
        Some(first) => {
            let least = lesser(alloc, nothing, nodes, k, place, row, first)?;
            Ok(Some(least))
        }
    }
}

/// The least part that the rows with which the node begins make, or none where there is none.
pub fn least_of_rows(
    alloc: Global,
    nothing: &Part,
    nodes: &[Node],
    k: usize,
    rows: &[Row],
) -> Result<Option<Waiting>, NoMemory>
    requires within { k < length nodes.now }
    requires forest { IsForest (value_of nothing.now) (forest_of nodes.now) }
    requires table { IsTable (value_of nothing.now) nodes.now }
    requires all { RowsOf (value_of nothing.now) (forest_of nodes.now) (parts (value_of nothing.now) nodes.now) k (length (ways_of (forest_of nodes.now) k)) [] rows.now }
    ensures { IfOk result (IsLeastOf (held_by (value_of nothing.now) nodes.now k) rows.now) }
{
    let mut least = None;
    for i in 0..rows.len() {
        least = least_with(alloc, nothing, nodes, k, i, rows[i], least)?;
    }
    Ok(least)
}

// The same of a row that is to come behind the others, if there is one.
fn last_with_part(
    alloc: Global,
    nothing: &Part,
    nodes: &[Node],
    k: usize,
    first: Option<Row>,
) -> Result<Option<Waiting>, NoMemory>
    requires within { k < length nodes.now }
    requires forest { IsForest (value_of nothing.now) (forest_of nodes.now) }
    requires table { IsTable (value_of nothing.now) nodes.now }
    requires holds { (row : Row) → first ≡ Some row → Holds (value_of nothing.now) nodes.now k row }
    ensures { IfOk result (IsOpened (held_by (value_of nothing.now) nodes.now k) (length (rows_at nodes.now k)) first) }
{
    match first {
        None => Ok(None),
        Some(row) => with_part(alloc, nothing, nodes, k, row_count(nodes, k), row),
    }
}

// Room for one more of each.
fn make_room(node: &mut Node) -> Result<(), NoMemory>
    ensures same { IsSameNode node.old node.new }
    ensures room { OnOk result (HasRoom node.new) }
{
    node.made.reserve(1)?;
    node.rows.reserve(1)?;
    node.queue.reserve(1)?;
    Ok(())
}

// The row at `place` goes on, and one more may come behind the others.
fn go_on(rows: &mut Vec<Row>, place: usize, after: Row, first: Option<Row>)
    requires within { place < length rows.old.items }
    requires room { vec_len rows.old < vec_capacity rows.old }
    ensures { Advanced rows.old.items place after first rows.new.items }
{
    rows[place] = after;
    if let Some(row) = first {
        let _ = rows.push(row);
    }
}

// Moves the first part of the queue to those that were made.
fn put(
    node: &mut Node,
    place: usize,
    after: Row,
    first: Option<Row>,
    again: Option<Waiting>,
    opened: Option<Waiting>,
) -> Result<(), NoMemory>
    requires within { place < length node.old.rows.items }
    requires first { IsFirstAt (heap_items node.old.queue) place }
    ensures ok { OnOk result (Puts node.old place after first again opened node.new) }
    ensures err { OnErr result (IsSameNode node.old node.new) }
{
    make_room(node)?;
    let part = take_first(&mut node.queue, again, opened);
    let _ = node.made.push(part);
    go_on(&mut node.rows, place, after, first);
    Ok(())
}

/// Takes the part of the chosen row, which goes on as `after`, and a row that begins may come behind the others. After an error
/// the node is as it was.
pub fn take_part(
    alloc: Global,
    nothing: &Part,
    nodes: &mut Vec<Node>,
    k: usize,
    choice: Choice,
    after: Row,
    first: Option<Row>,
) -> Result<(), NoMemory>
    requires forest { IsForest (value_of nothing.now) (forest_of nodes.old.items) }
    requires table { IsTable (value_of nothing.now) nodes.old.items }
    requires chosen { Chosen (value_of nothing.now) nodes.old.items k choice }
    requires goes_on { GoesOn (value_of nothing.now) nodes.old.items choice.way choice.row after }
    requires begin { Begin (value_of nothing.now) nodes.old.items choice.way choice.row first }
    ensures stepped { Stepped (value_of nothing.now) nodes.old.items nodes.new.items k }
    ensures more { OnOk result (length (made_at nodes.new.items k) ≡ length (made_at nodes.old.items k) + 1) }
{
    let again = with_part(alloc, nothing, nodes.as_slice(), k, choice.place, after)?;
    let opened = last_with_part(alloc, nothing, nodes.as_slice(), k, first)?;
    put(&mut nodes[k], choice.place, after, first, again, opened)
}

/// Adds the row, if there is one.
pub fn add(rows: &mut Vec<Row>, first: Option<Row>) -> Result<(), NoMemory>
    ensures { OnOk result (rows.new.items ≡ rows.old.items ++ row_list first) }
{
    match first {
        None => Ok(()),
        Some(row) => {
            rows.push(row)?;
            Ok(())
        }
    }
}

/// The queue of the rows with which the node begins.
pub fn queue_of(
    alloc: Global,
    nothing: &Part,
    nodes: &[Node],
    k: usize,
    rows: &[Row],
) -> Result<BinaryHeap<Waiting>, NoMemory>
    requires within { k < length nodes.now }
    requires forest { IsForest (value_of nothing.now) (forest_of nodes.now) }
    requires table { IsTable (value_of nothing.now) nodes.now }
    requires all { RowsOf (value_of nothing.now) (forest_of nodes.now) (parts (value_of nothing.now) nodes.now) k (length (ways_of (forest_of nodes.now) k)) [] rows.now }
    ensures { IfOk result (λ queue. IsQueue (held_by (value_of nothing.now) nodes.now k) rows.now (heap_items queue)) }
{
    let mut queue = BinaryHeap::new(alloc);
    for i in 0..rows.len() {
        let more = with_part(alloc, nothing, nodes, k, i, rows[i])?;
        put_in(&mut queue, more)?;
    }
    Ok(queue)
}

fn start(node: &mut Node, rows: Vec<Row>, queue: BinaryHeap<Waiting>)
    ensures { Starts node.old rows.items (heap_items queue) node.new }
{
    node.rows = rows;
    node.queue = queue;
    node.begun = true;
}

/// The node begins with these rows.
pub fn start_node(
    nothing: &Part,
    nodes: &mut Vec<Node>,
    k: usize,
    rows: Vec<Row>,
    queue: BinaryHeap<Waiting>,
)
    requires forest { IsForest (value_of nothing.now) (forest_of nodes.old.items) }
    requires table { IsTable (value_of nothing.now) nodes.old.items }
    requires idle { IsIdle nodes.old.items k }
    requires all { RowsOf (value_of nothing.now) (forest_of nodes.old.items) (parts (value_of nothing.now) nodes.old.items) k (length (ways_of (forest_of nodes.old.items) k)) [] rows.items }
    requires queue { IsQueue (held_by (value_of nothing.now) nodes.old.items k) rows.items (heap_items queue) }
    ensures { Stepped (value_of nothing.now) nodes.old.items nodes.new.items k }
{
    start(&mut nodes[k], rows, queue);
}

fn show(node: &mut Node, queue: BinaryHeap<Waiting>)
    ensures { Shows node.old (heap_items queue) node.new }
{
    node.queue = queue;
}

/// The least part of the node can be read now, and no other one is made for that: it waits alone.
pub fn show_least(nothing: &Part, nodes: &mut Vec<Node>, k: usize, queue: BinaryHeap<Waiting>)
    requires forest { IsForest (value_of nothing.now) (forest_of nodes.old.items) }
    requires table { IsTable (value_of nothing.now) nodes.old.items }
    requires idle { IsIdle nodes.old.items k }
    requires unread { ready_at nodes.old.items k ≡ [] }
    requires least { IsPeeked (value_of nothing.now) nodes.old.items k (heap_items queue) }
    ensures table { IsTable (value_of nothing.now) nodes.new.items }
    ensures grown { Grown (suc k) nodes.old.items nodes.new.items }
    ensures ready { ready_at nodes.new.items k ≡ least_part (heap_items queue) }
    ensures none { heap_items queue ≡ [] → IsAll (Has (value_of nothing.now) (forest_of nodes.new.items) (Some k)) [] }
{
    show(&mut nodes[k], queue);
}
