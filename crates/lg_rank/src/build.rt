//! The nodes of a forest: one for each key under which something is linked, parts before wholes.
ghost use Rattle.std.specs.Prelude.{◌≡◌, ◌↔◌, ◌<◌, ◌⊎◌, ℕ, List, [], length, Some, slice_get, slice_index_or, IsTrue, IfOk, OnOk, IfSome};
ghost use Rattle.lg_gram.specs.Connectors.{Connector};
ghost use Rattle.lg_gram.specs.declared.disjunct.Disjunct.{Disjunct};
ghost use Rattle.lg_region.specs.Keys.{IsDisjunctAt};
ghost use Rattle.lg_region.specs.Laws.{HasKey};
ghost use Rattle.lg_region.specs.Small.{IsSmall};
ghost use Rattle.lg_region.specs.declared.key.Key.{Key as SeenKey};
ghost use Rattle.lg_forest.specs.Forests.{IsForest};
ghost use Rattle.lg_rank.specs.Fronts.{Extends};
ghost use Rattle.lg_rank.specs.Keyed.{AreMade, GetsNode, HasWays, IsAltFor, IsNothing, IsNumberFor, IsRootKey, IsWayOf, PutsNode, near_link, far_link};
ghost use Rattle.lg_rank.specs.Meanings.{joint_link, IsWord, Cutting};
ghost use Rattle.lg_rank.specs.Rankings.{IsListing};
ghost use Rattle.lg_rank.specs.Small.{IsShort, HasShortEnds};
ghost use Rattle.lg_rank.specs.Values.{nothing_of};

use crate::keys::Keys;
use crate::node::Node;
use crate::small::SmallWay;
use crate::table::Table;
use lg_base::NoMemory;
use lg_forest::Forest;
use lg_gram::{Link, Problem};
use lg_region::{
    Alt, Joint, Key, alternatives_are_small, alternatives_decide, cuts_are_valid,
    numbers_tell_lists_apart, regions_are_cut_once,
};
use std::alloc::Global;

// Whether nothing can be linked: both lists of the region are empty.
fn is_nothing(key: &Key) -> bool
    ensures { IsTrue result ↔ IsNothing key.now }
{
    match key {
        Key::Whole { .. } => false,
        Key::Region { llist, rlist, .. } => *llist == 0 && *rlist == 0,
    }
}

/// What was made of a forest: the keys that get nodes, parts before wholes, and the node of each.
#[derive(Drop)]
struct Made {
    keys: Keys,
    nodes: Vec<Node>,
}

// The number of a key. Where it has none yet, its node is made, behind those of all its parts.
#[cycle(walk)]
fn visit(
    alloc: Global,
    problem: &Problem,
    forest: &Forest,
    made: &mut Made,
    key: Key,
) -> Result<usize, NoMemory>
    requires forest { (from : ℕ) × IsForest problem.now from forest.now }
    requires key { GetsNode problem.now forest.now key }
    requires made { AreMade problem.now forest.now made.old.keys made.old.nodes.items }
    ensures made { OnOk result (AreMade problem.now forest.now made.new.keys made.new.nodes.items) }
    ensures grown { OnOk result (Extends made.old.keys made.new.keys) }
    ensures number { IfOk result (λ number. slice_get made.new.keys number ≡ Some key) }
{
    if let Some(number) = made.keys.number(&key) {
        return Ok(number);
    }
    let ways = visit_below(alloc, problem, forest, made, key)?;
    let number = put_node(alloc, made, key, ways)?;
    Ok(number)
}

// Puts a key and its node behind the others, and tells its number. Nothing changes where the key is there.
fn put_node(
    alloc: Global,
    made: &mut Made,
    key: Key,
    ways: Vec<SmallWay>,
) -> Result<usize, NoMemory>
    ensures { IfOk result (λ number. PutsNode made.old.keys made.old.nodes.items key ways made.new.keys made.new.nodes.items number) }
{
    let (number, is_new) = made.keys.add(key)?;
    if is_new {
        made.nodes.push(Node::idle(alloc, ways))?;
    }
    Ok(number)
}

// The ways of the alternatives of a key, for whose parts nodes are made.
#[cycle(walk)]
fn visit_below(
    alloc: Global,
    problem: &Problem,
    forest: &Forest,
    made: &mut Made,
    key: Key,
) -> Result<Vec<SmallWay>, NoMemory>
    requires forest { (from : ℕ) × IsForest problem.now from forest.now }
    requires key { GetsNode problem.now forest.now key }
    requires made { AreMade problem.now forest.now made.old.keys made.old.nodes.items }
    ensures made { OnOk result (AreMade problem.now forest.now made.new.keys made.new.nodes.items) }
    ensures grown { OnOk result (Extends made.old.keys made.new.keys) }
    ensures ways { IfOk result (λ ways. HasWays problem.now forest.now made.new.keys (length made.new.keys) key ways.items) }
{
    alternatives_are_small();
    numbers_tell_lists_apart();
    // the call tells that the positions are those of a problem
    let _positions = problem.positions();
    let Some(alts) = forest.alts(&key) else {
        return Ok(Vec::new(alloc));
    };
    let mut ways = Vec::with_capacity(alloc, alts.len())?;
    for index in 0..alts.len() {
        let way = visit_alt(alloc, problem, forest, made, key, alts.get(index))?;
        ways.push(way)?;
    }
    Ok(ways)
}

// The way of an alternative of a key in which a word is linked.
#[cycle(walk)]
fn visit_alt(
    alloc: Global,
    problem: &Problem,
    forest: &Forest,
    made: &mut Made,
    key: Key,
    alt: Alt,
) -> Result<SmallWay, NoMemory>
    requires forest { (from : ℕ) × IsForest problem.now from forest.now }
    requires parts { (part : SeenKey) → HasKey alt part → (IsNothing part → ⊥) → GetsNode problem.now forest.now part }
    requires made { AreMade problem.now forest.now made.old.keys made.old.nodes.items }
    requires cut { (lists : List (List Connector)) × (c : Cutting) × IsAltFor problem.now lists key c alt }
    requires key { HasShortEnds key }
    requires alt { IsSmall alt }
    ensures made { OnOk result (AreMade problem.now forest.now made.new.keys made.new.nodes.items) }
    ensures grown { OnOk result (Extends made.old.keys made.new.keys) }
    ensures way { IfOk result (IsWayOf problem.now made.new.keys (length made.new.keys) key alt) }
{
    let Alt::Split {
        word,
        disjunct,
        to_left,
        to_right,
        lkey,
        rkey,
    } = alt
    else {
        unreachable!()
    };
    let left = visit_part(alloc, problem, forest, made, lkey)?;
    let right = visit_part(alloc, problem, forest, made, rkey)?;
    let near = near_of(key, word, to_left);
    let far = far_of(key, word, to_right);
    let way = word_way(problem, word, disjunct, near, far, left, right)?;
    Ok(way)
}

// The number of the key of a part; none where there is no key, or nothing can be linked.
#[cycle(walk)]
fn visit_part(
    alloc: Global,
    problem: &Problem,
    forest: &Forest,
    made: &mut Made,
    key: Option<Key>,
) -> Result<Option<usize>, NoMemory>
    requires forest { (from : ℕ) × IsForest problem.now from forest.now }
    requires key { (part : SeenKey) → key ≡ Some part → (IsNothing part → ⊥) → GetsNode problem.now forest.now part }
    requires made { AreMade problem.now forest.now made.old.keys made.old.nodes.items }
    ensures made { OnOk result (AreMade problem.now forest.now made.new.keys made.new.nodes.items) }
    ensures grown { OnOk result (Extends made.old.keys made.new.keys) }
    ensures number { IfOk result (IsNumberFor made.new.keys (length made.new.keys) key) }
{
    match key {
        None => Ok(None),
        Some(key) => {
            if is_nothing(&key) {
                return Ok(None);
            }
            let number = visit(alloc, problem, forest, made, key)?;
            Ok(Some(number))
        }
    }
}

// The number of the key of the whole sentence; none where all positions are unlinked. Makes all nodes.
fn root_of(
    alloc: Global,
    problem: &Problem,
    forest: &Forest,
    made: &mut Made,
) -> Result<Option<usize>, NoMemory>
    requires forest { (from : ℕ) × IsForest problem.now from forest.now }
    requires made { AreMade problem.now forest.now made.old.keys made.old.nodes.items }
    ensures made { OnOk result (AreMade problem.now forest.now made.new.keys made.new.nodes.items) }
    ensures root { IfOk result (IsRootKey problem.now made.new.keys forest.now.unused) }
{
    let nulls = forest.unused();
    let count = problem.positions().len();
    if nulls as usize == count {
        return Ok(None);
    }
    let number = visit(alloc, problem, forest, made, Key::Whole { nulls })?;
    Ok(Some(number))
}

// The link of a joint of two words.
fn joint_of(joint: Option<Joint>, left: u32, right: u32) -> Option<Link>
    ensures { result ≡ joint_link joint left right }
{
    match joint {
        None => None,
        Some(joint) => Some(Link {
            left,
            lplace: joint.near,
            right,
            rplace: joint.far,
        }),
    }
}

// The link that joins the word with the left end.
fn near_of(key: Key, word: u32, joint: Option<Joint>) -> Option<Link>
    ensures { result ≡ near_link key word joint }
{
    match key {
        Key::Whole { .. } => None,
        Key::Region { left, .. } => joint_of(joint, left, word),
    }
}

// The link that joins the word with the right end.
fn far_of(key: Key, word: u32, joint: Option<Joint>) -> Option<Link>
    ensures { result ≡ far_link key word joint }
{
    match key {
        Key::Whole { .. } => None,
        Key::Region { right, .. } => joint_of(joint, word, right),
    }
}

// The way of a word and its disjunct with these links and parts.
fn word_way(
    problem: &Problem,
    word: u32,
    disjunct: u32,
    near: Option<Link>,
    far: Option<Link>,
    left: Option<usize>,
    right: Option<usize>,
) -> Result<SmallWay, NoMemory>
    requires disjunct { disjunct < length (slice_index_or problem.now word []) }
    requires near { IsShort near }
    requires far { IsShort far }
    ensures word { IfOk result (λ w. (d : Disjunct) → IsDisjunctAt problem.now word disjunct d → IsWord problem.now w word d near far) }
    ensures left { IfOk result (λ w. w.left ≡ left) }
    ensures right { IfOk result (λ w. w.right ≡ right) }
{
    let disjuncts = problem.positions()[word as usize].items();
    let cost = disjuncts[disjunct as usize].cost.thousandths();
    let way = SmallWay::of(word, disjunct + 1, cost, near, far, left, right)?;
    Ok(way)
}

/// What a listing goes by: the nodes, and the node of the whole sentence.
#[derive(Drop)]
pub(crate) struct Built {
    pub table: Table,
    pub root: Option<usize>,
}

/// The nodes of a forest of the problem.
pub(crate) fn build(alloc: Global, problem: &Problem, forest: &Forest) -> Result<Built, NoMemory>
    requires { (from : ℕ) × IsForest problem.now from forest.now }
    ensures { IfOk result (λ b. IsListing problem.now (nothing_of (length problem.now)) b.table.nodes.items forest.now.unused b.root) }
{
    alternatives_decide();
    cuts_are_valid();
    numbers_tell_lists_apart();
    regions_are_cut_once();
    // the call tells that the positions are those of a problem
    let _positions = problem.positions();
    let mut made = Made {
        keys: Keys::new(alloc),
        nodes: Vec::new(alloc),
    };
    let root = root_of(alloc, problem, forest, &mut made)?;
    let Made { nodes, .. } = made;
    Ok(Built {
        table: Table { nodes },
        root,
    })
}
