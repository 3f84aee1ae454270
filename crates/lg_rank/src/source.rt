//! Parts that can be read: those that were made, and those that wait.
ghost use Rattle.std.specs.Prelude.{◌≡◌, ◌++◌, ◌-◌, ◌≤◌, length, take, drop, OnOk};
ghost use Rattle.lg_rank.specs.Sources.{part_in};
ghost use Rattle.lg_rank.specs.Trees.{choices_from, links_of, with_link};

use crate::part::Part;
use crate::ready::Ready;
use crate::small::SmallLink;
use crate::tree::{add_link, push_choices, push_links, push_with};
use lg_base::NoMemory;

/// A part that was made, whose choices and links are spelled on demand, or one that waits and has them.
#[derive(Clone, Copy)]
pub enum Source<'a> {
    Made(&'a Part),
    Waiting(&'a Ready),
}

// Appends the choices from a place on and before another.
fn push_between(choices: &[u32], from: usize, to: usize, out: &mut Vec<u32>) -> Result<(), NoMemory>
    requires rising { from ≤ to }
    requires within { to ≤ length choices.now }
    ensures { OnOk result (out.new.items ≡ out.old.items ++ take (to - from) (drop from choices.now)) }
{
    out.extend_from_slice(&choices[from..to])?;
    Ok(())
}

impl<'a> Source<'a> {
    /// The part.
    pub fn part(&self) -> &'a Part
        ensures { result.now ≡ part_in self.now }
    {
        match self {
            Source::Made(part) => *part,
            Source::Waiting(ready) => ready.part(),
        }
    }

    /// Appends the choices of the positions from one on and before another.
    pub fn push_choices(&self, from: usize, to: usize, out: &mut Vec<u32>) -> Result<(), NoMemory>
        requires rising { from ≤ to }
        requires within { to ≤ (part_in self.now).positions }
        ensures { OnOk result (out.new.items ≡ out.old.items ++ choices_from (part_in self.now).tree.value from (to - from)) }
    {
        match self {
            Source::Made(part) => push_choices(&part.tree, from, to - from, out),
            Source::Waiting(ready) => {
                push_between(ready.choices(), from, to, out)?;
                Ok(())
            }
        }
    }

    /// Appends the links in order, with one more among them.
    pub fn push_links(
        &self,
        more: Option<SmallLink>,
        out: &mut Vec<SmallLink>,
    ) -> Result<(), NoMemory>
        ensures { OnOk result (out.new.items ≡ out.old.items ++ with_link more (links_of (part_in self.now).tree.value)) }
    {
        match self {
            Source::Made(part) => {
                let from = out.len();
                push_links(&part.tree, out)?;
                add_link(out, from, more)
            }
            Source::Waiting(ready) => push_with(ready.links(), more, out),
        }
    }
}
