//! How the lists of two ends go on behind a joint between them.
ghost use Rattle.std.specs.Prelude.{◌≡◌, ◌≤◌, ◌++◌, ◌↔◌, false, length, map, ℕ, IsTrue, OnOk};
ghost use Rattle.lg_region.specs.Ways.{AddsWays, HasWay, rest_items, rests_of, way_of, joined_ways};
ghost use Rattle.lg_region.specs.declared.ways.Way.{Way as SeenWay};

use crate::key::Joint;
use crate::lists::Lists;
use lg_base::NoMemory;

/// The joint between the last connectors of two lists, or none, and the numbers of the lists behind it.
#[derive(Clone, Copy, Debug)]
pub struct Way {
    pub joint: Option<Joint>,
    pub near: u32,
    pub far: u32,
}

// What is made of a way and a number that goes with it: it is put in where the way is found, and the ways have no list of their own.
pub(crate) trait OnWay: Copy {
    ghost on: { ℕ → SeenWay → Self };

    fn on(number: u32, way: Way) -> Self
        ensures { result ≡ on number way };
}

/// The end of a list but the empty one: its number, its last place, the number of the list without the connector there, and of
/// that connector its kind, its class and whether it is multi.
#[derive(Clone, Copy, Debug)]
pub(crate) struct End {
    pub(crate) id: u32,
    pub(crate) place: u32,
    pub(crate) shorter: u32,
    pub(crate) kind: u32,
    pub(crate) class: u8,
    pub(crate) is_multi: bool,
}

// The numbers of the lists with which a list goes on behind a joint.
#[derive(Clone, Copy)]
enum Rests {
    One([u32; 1]),
    Two([u32; 2]),
}

impl Rests {
    fn items(&self) -> &[u32]
        ensures { result.now ≡ rest_items self.now }
    {
        match self {
            Rests::One(items) => items,
            Rests::Two(items) => items,
        }
    }
}

impl End {
    // Without the last connector; and whole, where that is multi.
    fn rests(&self) -> Rests
        ensures { rest_items result ≡ rests_of self.now }
    {
        if self.is_multi {
            Rests::Two([self.shorter, self.id])
        } else {
            Rests::One([self.shorter])
        }
    }
}

/// Whether two lists have a way on. No memory.
pub(crate) fn has_way(lists: &Lists<'_>, near: u32, far: u32, apart: bool) -> bool
    requires near { near ≤ length lists.now.lists }
    requires far { far ≤ length lists.now.lists }
    ensures { IsTrue result ↔ HasWay lists.entry.now.lists near far apart }
{
    lists.are_numbered();
    if apart {
        return true;
    }
    lists.can_join(near, far)
}

/// Adds what is made of the ways on of two lists, each once: with a joint where their last connectors match, and, where `apart` is
/// true, without one.
pub(crate) fn push_ways<T: OnWay>(
    lists: &Lists<'_>,
    number: u32,
    near: u32,
    far: u32,
    apart: bool,
    out: &mut Vec<T>,
) -> Result<(), NoMemory>
    requires near { near ≤ length lists.now.lists }
    requires far { far ≤ length lists.now.lists }
    ensures { OnOk result (AddsWays lists.entry.now.lists near far apart (T.on number) out.old.items out.new.items) }
{
    lists.are_numbered();
    if apart {
        let way = Way {
            joint: None,
            near,
            far,
        };
        out.push(T::on(number, way))?;
    }
    push_joints(lists, number, near, far, out)?;
    Ok(())
}

// The ways on with a joint.
fn push_joints<T: OnWay>(
    lists: &Lists<'_>,
    number: u32,
    near: u32,
    far: u32,
    out: &mut Vec<T>,
) -> Result<(), NoMemory>
    requires near { near ≤ length lists.now.lists }
    requires far { far ≤ length lists.now.lists }
    ensures { OnOk result (AddsWays lists.entry.now.lists near far false (T.on number) out.old.items out.new.items) }
{
    if !lists.can_join(near, far) {
        return Ok(());
    }
    let Some(first) = lists.end(near) else {
        return Ok(());
    };
    let Some(second) = lists.end(far) else {
        return Ok(());
    };
    push_joined(number, &first, &second, out)
}

fn push_joined<T: OnWay>(
    number: u32,
    near: &End,
    far: &End,
    out: &mut Vec<T>,
) -> Result<(), NoMemory>
    ensures { OnOk result (out.new.items ≡ out.old.items ++ map (T.on number) (joined_ways near.now far.now)) }
{
    let joint = Joint {
        near: near.place,
        far: far.place,
    };
    let rests = far.rests();
    for rest in near.rests().items() {
        push_with(number, joint, *rest, rests.items(), out)?;
    }
    Ok(())
}

fn push_with<T: OnWay>(
    number: u32,
    joint: Joint,
    near: u32,
    rests: &[u32],
    out: &mut Vec<T>,
) -> Result<(), NoMemory>
    ensures { OnOk result (out.new.items ≡ out.old.items ++ map (T.on number) (map (way_of joint near) rests.now)) }
{
    for rest in rests {
        let way = Way {
            joint: Some(joint),
            near,
            far: *rest,
        };
        out.push(T::on(number, way))?;
    }
    Ok(())
}
