//! Expressions as a dictionary spells them.
ghost use Rattle.std.specs.Prelude.{◌≡◌, ◌++◌, OnOk, length, true};
ghost use Rattle.lg_gram.specs.Trees.{tree_of, trees_in, expr_items, all_of, one_of};
ghost use Rattle.lg_export.specs.Spelling.{in_or, connector_spelled, spelled, members_spelled};
ghost use Rattle.lg_export.specs.Spots.{spot_of, is_empty, is_optional};

use crate::spot::Spot;
use lg_base::{NoMemory, write_bytes, write_cost};
use lg_gram::{Connector, Expr, Exprs};

/// Appends an expression as it is spelled at a spot.
#[cycle(spell)]
pub(crate) fn write_expr(out: &mut Vec<u8>, spot: Spot, e: &Expr) -> Result<(), NoMemory>
    ensures { OnOk result (out.new.items ≡ out.old.items ++ spelled (spot_of spot) (tree_of e.now)) }
{
    match e {
        Expr::Empty => write_bytes(out, b"()"),
        Expr::Conn(c) => write_connector(out, c),
        Expr::And(members) => write_all(out, spot, members),
        Expr::Or(members) => write_any(out, spot, members),
        Expr::Priced(inner, cost) => {
            write_bytes(out, b"[")?;
            write_expr(out, Spot::Top, inner)?;
            write_bytes(out, b"]")?;
            write_cost(out, *cost)
        }
    }
}

// Members joined by `&`, as a whole.
#[cycle(spell)]
fn write_all(out: &mut Vec<u8>, spot: Spot, members: &Exprs) -> Result<(), NoMemory>
    ensures { OnOk result (out.new.items ≡ out.old.items ++ spelled (spot_of spot) (all_of (trees_in (expr_items members.now)))) }
{
    match spot {
        Spot::Top | Spot::InOr => write_members(out, Spot::InAnd, b" & ", members),
        Spot::InAnd => {
            write_bytes(out, b"(")?;
            write_members(out, Spot::InAnd, b" & ", members)?;
            write_bytes(out, b")")
        }
    }
}

// Members joined by `or`, as a whole.
#[cycle(spell)]
fn write_any(out: &mut Vec<u8>, spot: Spot, members: &Exprs) -> Result<(), NoMemory>
    ensures { OnOk result (out.new.items ≡ out.old.items ++ spelled (spot_of spot) (one_of (trees_in (expr_items members.now)))) }
{
    match spot {
        Spot::Top => write_members(out, Spot::InOr, b" or ", members),
        Spot::InOr | Spot::InAnd => write_any_in_brackets(out, members),
    }
}

// The same, in the brackets that it has as a member.
#[cycle(spell)]
fn write_any_in_brackets(out: &mut Vec<u8>, members: &Exprs) -> Result<(), NoMemory>
    ensures { OnOk result (out.new.items ≡ out.old.items ++ spelled in_or (one_of (trees_in (expr_items members.now)))) }
{
    if is_optional(members) {
        write_bytes(out, b"{")?;
        write_expr(out, Spot::Top, &members.items()[1])?;
        return write_bytes(out, b"}");
    }
    write_bytes(out, b"(")?;
    write_members(out, Spot::InOr, b" or ", members)?;
    write_bytes(out, b")")
}

// The members one after another, with this text between them.
#[cycle(spell)]
fn write_members(
    out: &mut Vec<u8>,
    spot: Spot,
    between: &[u8],
    members: &Exprs,
) -> Result<(), NoMemory>
    ensures { OnOk result (out.new.items ≡ out.old.items ++ members_spelled (spot_of spot) between.now (trees_in (expr_items members.now))) }
{
    let Some((first, rest)) = members.items().split_first() else {
        return Ok(());
    };
    write_expr(out, spot, first)?;
    for member in rest {
        write_bytes(out, between)?;
        write_expr(out, spot, member)?;
    }
    Ok(())
}

/// Whether the members are a `()` and one other.
pub(crate) fn is_optional(members: &Exprs) -> bool
    ensures value { result ≡ is_optional (trees_in (expr_items members.now)) }
    ensures two { result ≡ true → length (expr_items members.now) ≡ 2 }
{
    let items = members.items();
    items.len() == 2 && is_empty(&items[0])
}

fn is_empty(e: &Expr) -> bool
    ensures { result ≡ is_empty (tree_of e.now) }
{
    matches!(e, Expr::Empty)
}

// Appends a connector: `@` where it may take several links, its letters, and its sign.
fn write_connector(out: &mut Vec<u8>, c: &Connector) -> Result<(), NoMemory>
    ensures { OnOk result (out.new.items ≡ out.old.items ++ connector_spelled c.now) }
{
    if c.is_multi() {
        write_bytes(out, b"@")?;
    }
    write_bytes(out, c.caps())?;
    write_bytes(out, c.subs())?;
    write_bytes(out, if c.is_right() { b"+" } else { b"-" })
}
