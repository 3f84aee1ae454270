//! Rounds of pruning.
ghost use Rattle.std.specs.Prelude.{OnOk};
ghost use Rattle.std.specs.List.{All};
ghost use Rattle.lg_member.specs.Members.{IsKnown};
ghost use Rattle.lg_pprune.specs.Supports.{KeepsAlive, KeepsSupported};

use crate::table::{served, table_of};
use lg_base::NoMemory;
use lg_member::{Member, Side, keep, members_go_by_rounds, used};
use std::alloc::Global;

/// Takes members away until each connector of each one that is left has a partner among them.
pub(crate) fn settle(
    alloc: Global,
    words: u32,
    lefts: &[Side<'_>],
    rights: &[Side<'_>],
    members: &mut Vec<Member<'_>>,
) -> Result<(), NoMemory>
    requires { All (IsKnown lefts.now rights.now) members.old.items }
    ensures { OnOk result (KeepsAlive words members.old.items members.new.items) }
{
    members_go_by_rounds();
    let mut before = members.len() + 1;
    while members.len() < before {
        before = members.len();
        round(alloc, words, lefts, rights, members)?;
    }
    Ok(())
}

// Takes the members away of which a connector has no partner.
fn round(
    alloc: Global,
    words: u32,
    lefts: &[Side<'_>],
    rights: &[Side<'_>],
    members: &mut Vec<Member<'_>>,
) -> Result<(), NoMemory>
    requires { All (IsKnown lefts.now rights.now) members.old.items }
    ensures { OnOk result (KeepsSupported words members.old.items members.new.items) }
{
    let left_used = used(alloc, false, lefts, rights, members)?;
    let right_used = used(alloc, true, lefts, rights, members)?;
    let left_sites = table_of(alloc, false, words, lefts, &left_used)?;
    let right_sites = table_of(alloc, true, words, rights, &right_used)?;
    let left_good = served(alloc, false, words, lefts, &left_used, &right_sites)?;
    let right_good = served(alloc, true, words, rights, &right_used, &left_sites)?;
    keep(&left_good, &right_good, members);
    Ok(())
}
