//! What a way makes of two parts.
ghost use Rattle.std.specs.Prelude.{◌≡◌, ◌<◌, IfOk, IsTrue};
ghost use Rattle.std.specs.declared.cmp.Ordering.TheVariants.{Less};
ghost use Rattle.lg_rank.specs.Values.{value_cmp, value_of};
ghost use Rattle.lg_rank.specs.Candidates.{made_by, IsSound};
ghost use Rattle.lg_rank.specs.Sources.{part_in};
ghost use Rattle.lg_rank.specs.Trees.{choices_from, links_of};

use crate::part::{Part, Way};
use crate::ready::Ready;
use crate::small::SmallLink;
use crate::source::Source;
use crate::tree::Tree;
use lg_base::NoMemory;
use std::alloc::Global;
use std::sync::Arc;

/// A way with a part on its left and a part on its right.
#[derive(Clone, Copy)]
pub struct Candidate<'a> {
    pub way: Way,
    pub left: Source<'a>,
    pub right: Source<'a>,
}

impl Candidate<'_> {
    fn cost(&self) -> i64
        requires { IsSound self.now }
        ensures { result ≡ (made_by self.now).cost }
    {
        let parts = self.left.part().cost + self.right.part().cost;
        self.way.cost + parts
    }

    fn span(&self) -> u64
        requires { IsSound self.now }
        ensures { result ≡ (made_by self.now).span }
    {
        self.way.span + (self.left.part().span + self.right.part().span)
    }

    // What is linked: the word with the trees of the two parts.
    fn tree(&self, alloc: Global) -> Result<Arc<Tree>, NoMemory>
        requires { IsSound self.now }
        ensures choices { IfOk result (λ tree. choices_from tree.value 0 (part_in self.now.left).positions ≡ (made_by self.now).choices) }
        ensures links { IfOk result (λ tree. links_of tree.value ≡ (made_by self.now).links) }
    {
        let left = Arc::try_clone(&self.left.part().tree)?;
        let right = Arc::try_clone(&self.right.part().tree)?;
        let word = Tree::Word {
            word: self.way.word,
            choice: self.way.choice,
            near: self.way.near,
            far: self.way.far,
            left,
            right,
        };
        let tree = Arc::new(alloc, word)?;
        Ok(tree)
    }

    // For how many links room is made.
    fn joints(&self) -> u32 {
        let joints = self.way.near.is_some() as u32 + self.way.far.is_some() as u32;
        let left = self.left.part().joints.saturating_add(joints);
        left.saturating_add(self.right.part().joints)
    }

    // The part.
    fn part(&self, alloc: Global) -> Result<Part, NoMemory>
        requires { IsSound self.now }
        ensures { IfOk result (λ part. value_of part ≡ made_by self.now) }
    {
        let tree = self.tree(alloc)?;
        Ok(Part {
            cost: self.cost(),
            span: self.span(),
            positions: self.left.part().positions,
            joints: self.joints(),
            tree,
        })
    }

    // How many positions each of the two parts has.
    fn positions(&self) -> usize
        requires { IsSound self.now }
        ensures left { result ≡ (part_in self.now.left).positions }
        ensures right { result ≡ (part_in self.now.right).positions }
        ensures word { self.now.way.word < result }
    {
        self.left.part().positions as usize
    }

    fn choices(&self, alloc: Global) -> Result<Vec<u32>, NoMemory>
        requires { IsSound self.now }
        ensures { IfOk result (λ choices. choices.items ≡ (made_by self.now).choices) }
    {
        let positions = self.positions();
        let word = usize::from(self.way.word);
        let mut choices = Vec::with_capacity(alloc, positions)?;
        self.left.push_choices(0, word, &mut choices)?;
        choices.push(self.way.choice)?;
        self.right.push_choices(word + 1, positions, &mut choices)?;
        Ok(choices)
    }

    fn links(&self, alloc: Global) -> Result<Vec<SmallLink>, NoMemory>
        ensures { IfOk result (λ links. links.items ≡ (made_by self.now).links) }
    {
        let mut links = Vec::with_capacity(alloc, self.joints() as usize)?;
        self.left.push_links(self.way.near, &mut links)?;
        self.right.push_links(self.way.far, &mut links)?;
        Ok(links)
    }

    /// Whether it costs more than a part, or as much and spans more: then it comes behind, and need not be spelled to tell that.
    pub fn is_behind(&self, part: &Part) -> bool
        requires { IsSound self.now }
        ensures { IsTrue result → value_cmp (value_of part.now) (made_by self.now) ≡ Less }
    {
        let cost = self.cost();
        part.cost < cost || part.cost == cost && part.span < self.span()
    }

    /// The part, spelled.
    pub fn make(&self, alloc: Global) -> Result<Ready, NoMemory>
        requires { IsSound self.now }
        ensures { IfOk result (λ ready. value_of ready ≡ made_by self.now) }
    {
        let part = self.part(alloc)?;
        let choices = self.choices(alloc)?;
        let links = self.links(alloc)?;
        Ok(Ready::of(part, choices, links))
    }
}
