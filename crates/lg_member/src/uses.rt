//! Which lists members have, and which members are left when some lists are off.
ghost use Rattle.std.specs.Prelude.{◌≡◌, false, cond, length, slice_index_or, IfOk};
ghost use Rattle.std.specs.List.{All};
ghost use Rattle.lg_member.specs.Members.{AreUsed, IsKnown, Keeps, are_on};

use crate::member::Member;
use crate::side::Side;
use lg_base::NoMemory;
use std::alloc::Global;

/// Which of the lists to the right, or to the left, the members have: a flag for each list. The only error is running out of memory.
pub fn used(
    alloc: Global,
    right: bool,
    lefts: &[Side<'_>],
    rights: &[Side<'_>],
    members: &[Member<'_>],
) -> Result<Vec<bool>, NoMemory>
    requires { All (IsKnown lefts.now rights.now) members.now }
    ensures { IfOk result (λ used. AreUsed right (length (cond right rights.now lefts.now)) members.now used.items) }
{
    let count = count_on(right, lefts, rights);
    let mut used = vec![in alloc; false; count]?;
    for member in members {
        used[member.side(right)] = true;
    }
    Ok(used)
}

fn count_on(right: bool, lefts: &[Side<'_>], rights: &[Side<'_>]) -> usize
    ensures { result ≡ length (cond right rights.now lefts.now) }
{
    if right { rights.len() } else { lefts.len() }
}

/// Keeps the members both of whose lists are on, by their numbers, and takes the others away. A number past the flags is off.
pub fn keep(lefts: &[bool], rights: &[bool], members: &mut Vec<Member<'_>>)
    ensures { Keeps (are_on lefts.now rights.now) members.old.items members.new.items }
{
    members.retain(|m| is_on(lefts, m.left) && is_on(rights, m.right));
}

fn is_on(flags: &[bool], index: usize) -> bool
    ensures { result ≡ slice_index_or flags.now index false }
{
    flags.get(index).copied().unwrap_or(false)
}
