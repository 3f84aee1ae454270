//! Drafts of linkages, which are joined without order.
ghost use Rattle.std.specs.Prelude.{◌≡◌, ◌++◌, map, IfOk, OnOk};
ghost use Rattle.std.specs.List.{flat_map};
ghost use Rattle.lg_forest.specs.Drafts.{joined, empty};

use lg_base::NoMemory;
use lg_gram::Link;
use std::alloc::Global;
use std::marker::Model;

/// A linked word, and the number of its disjunct in its position's list.
#[derive(Clone, Copy)]
pub(crate) struct Use {
    pub word: u32,
    pub disjunct: u32,
}

/// Which disjunct each linked word uses, and the links, in no order.
#[derive(Drop)]
pub(crate) struct Draft {
    uses: Vec<Use>,
    links: Vec<Link>,
}

impl Model for Draft {
    ghost use Rattle.lg_forest.specs.Drafts.{Draft as Seen};

    ghost Value = { Seen };

    ghost view = { λ d. record { uses = d.uses.items; links = d.links.items } };
}

impl Draft {
    /// The draft in which no word is linked.
    pub fn empty(alloc: Global) -> Draft
        ensures { result ≡ empty }
    {
        Draft {
            uses: Vec::new(alloc),
            links: Vec::new(alloc),
        }
    }

    /// The drafts of two parts as one, with the word between them and the links of its joints.
    pub fn join(
        alloc: Global,
        left: &Draft,
        right: &Draft,
        used: Use,
        joints: &[Link],
    ) -> Result<Draft, NoMemory>
        ensures { IfOk result (λ d. d ≡ joined used joints.now left.now right.now) }
    {
        let mut uses = left.uses.as_slice().to_vec(alloc)?;
        uses.extend_from_slice(right.uses.as_slice())?;
        uses.push(used)?;
        let mut links = left.links.as_slice().to_vec(alloc)?;
        links.extend_from_slice(right.links.as_slice())?;
        links.extend_from_slice(joints)?;
        Ok(Draft { uses, links })
    }

    /// Which disjunct each linked word uses.
    pub fn uses(&self) -> &[Use]
        ensures { result.now ≡ self.now.uses }
    {
        self.uses.as_slice()
    }

    /// The links.
    pub fn links(&self) -> &[Link]
        ensures { result.now ≡ self.now.links }
    {
        self.links.as_slice()
    }
}

/// Each draft of the left part, joined with each of the right part.
pub(crate) fn join_all(
    alloc: Global,
    lefts: &[Draft],
    rights: &[Draft],
    used: Use,
    joints: &[Link],
) -> Result<Vec<Draft>, NoMemory>
    ensures { IfOk result (λ all. all.items ≡ flat_map (λ p. map (joined used joints.now p) rights.now) lefts.now) }
{
    let mut all = Vec::new(alloc);
    for left in lefts {
        join_each(alloc, left, rights, used, joints, &mut all)?;
    }
    Ok(all)
}

fn join_each(
    alloc: Global,
    left: &Draft,
    rights: &[Draft],
    used: Use,
    joints: &[Link],
    all: &mut Vec<Draft>,
) -> Result<(), NoMemory>
    ensures { OnOk result (all.new.items ≡ all.old.items ++ map (joined used joints.now left.now) rights.now) }
{
    for right in rights {
        let draft = Draft::join(alloc, left, right, used, joints)?;
        all.push(draft)?;
    }
    Ok(())
}
