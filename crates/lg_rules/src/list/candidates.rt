//! The links that a choice of disjuncts allows.
ghost use Rattle.std.specs.Prelude.{◌≡◌, ◌↔◌, ◌<◌, ◌≤◌, ◌+◌, ◌*◌, ◌^◌, length, IsTrue, IfOk, OnOk};
ghost use Rattle.std.specs.List.{All, Contains};
ghost use Rattle.lg_gram.specs.Limits.{SIDE, LINKAGE_POSITIONS};
ghost use Rattle.lg_gram.specs.Rules.{left_list, right_list};
ghost use Rattle.lg_gram.specs.declared.linkage.Link.{Link};
ghost use Rattle.lg_rules.specs.Partners.{FitsChoice, right_at, left_at, CanLink, AreLinks, HasThoseBefore};

use lg_base::NoMemory;
use lg_gram::{Connector, Disjunct, Link, matches};
use std::alloc::Global;

pub(crate) fn rights<'a>(choice: &'a Option<Disjunct>) -> &'a [Connector]
    ensures { result.now ≡ right_list choice.now }
{
    match choice {
        Some(disjunct) => disjunct.right.items(),
        None => &[],
    }
}

pub(crate) fn lefts<'a>(choice: &'a Option<Disjunct>) -> &'a [Connector]
    ensures { result.now ≡ left_list choice.now }
{
    match choice {
        Some(disjunct) => disjunct.left.items(),
        None => &[],
    }
}

pub(crate) fn right_at<'a>(chosen: &'a [Option<Disjunct>], position: u32) -> &'a [Connector]
    requires { All FitsChoice chosen.now }
    ensures value { result.now ≡ right_at chosen.now position }
    ensures few { length result.now ≤ SIDE }
{
    match chosen.get(position as usize) {
        Some(choice) => rights(choice),
        None => &[],
    }
}

pub(crate) fn left_at<'a>(chosen: &'a [Option<Disjunct>], position: u32) -> &'a [Connector]
    requires { All FitsChoice chosen.now }
    ensures value { result.now ≡ left_at chosen.now position }
    ensures few { length result.now ≤ SIDE }
{
    match chosen.get(position as usize) {
        Some(choice) => lefts(choice),
        None => &[],
    }
}

fn can_link(chosen: &[Option<Disjunct>], link: &Link) -> bool
    requires { All FitsChoice chosen.now }
    ensures { IsTrue result ↔ CanLink chosen.now link.now }
{
    let rights = right_at(chosen, link.left);
    let lefts = left_at(chosen, link.right);
    if let Some(a) = rights.get(link.lplace as usize) {
        if let Some(b) = lefts.get(link.rplace as usize) {
            return link.left < link.right && matches(a, b);
        }
    }
    false
}

fn push_partners(
    chosen: &[Option<Disjunct>],
    left: u32,
    right: u32,
    lplace: u32,
    out: &mut Vec<Link>,
) -> Result<(), NoMemory>
    requires fit { All FitsChoice chosen.now }
    requires before { HasThoseBefore chosen.now out.old.items left right lplace 0 }
    ensures after { OnOk result (HasThoseBefore chosen.now out.new.items left right (lplace + 1) 0) }
    ensures few { OnOk result (length out.new.items ≤ length out.old.items + SIDE) }
{
    for rplace in 0..left_at(chosen, right).len() as u32 {
        let link = Link {
            left,
            lplace,
            right,
            rplace,
        };
        if can_link(chosen, &link) {
            out.push(link)?;
        }
    }
    Ok(())
}

fn push_places(
    chosen: &[Option<Disjunct>],
    left: u32,
    right: u32,
    out: &mut Vec<Link>,
) -> Result<(), NoMemory>
    requires fit { All FitsChoice chosen.now }
    requires before { HasThoseBefore chosen.now out.old.items left right 0 0 }
    ensures after { OnOk result (HasThoseBefore chosen.now out.new.items left (right + 1) 0 0) }
    ensures few { OnOk result (length out.new.items ≤ length out.old.items + SIDE * SIDE) }
{
    for lplace in 0..right_at(chosen, left).len() as u32 {
        push_partners(chosen, left, right, lplace, out)?;
    }
    Ok(())
}

fn push_from(chosen: &[Option<Disjunct>], left: u32, out: &mut Vec<Link>) -> Result<(), NoMemory>
    requires positions { length chosen.now ≤ LINKAGE_POSITIONS }
    requires position { left < length chosen.now }
    requires fit { All FitsChoice chosen.now }
    requires before { HasThoseBefore chosen.now out.old.items left 0 0 0 }
    ensures after { OnOk result (HasThoseBefore chosen.now out.new.items (left + 1) 0 0 0) }
    ensures few { OnOk result (length out.new.items ≤ length out.old.items + LINKAGE_POSITIONS * (SIDE * SIDE)) }
{
    for right in left + 1..chosen.len() as u32 {
        push_places(chosen, left, right, out)?;
    }
    Ok(())
}

/// All links that join two connectors of the chosen disjuncts, in order.
pub(crate) fn candidates(alloc: Global, chosen: &[Option<Disjunct>]) -> Result<Vec<Link>, NoMemory>
    requires positions { length chosen.now ≤ LINKAGE_POSITIONS }
    requires fit { All FitsChoice chosen.now }
    ensures are { IfOk result (λ links. AreLinks chosen.now links.items) }
    ensures every { IfOk result (λ links. (k : Link) → CanLink chosen.now k → Contains links.items k) }
    ensures few { IfOk result (λ links. length links.items < 2 ^ 32) }
{
    let mut out = Vec::new(alloc);
    for left in 0..chosen.len() as u32 {
        push_from(chosen, left, &mut out)?;
    }
    Ok(out)
}
