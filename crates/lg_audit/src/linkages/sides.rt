//! The sides of a disjunct, as they are printed.

ghost use Rattle.std.specs.Prelude.{◌≡◌, ◌∷◌, ◌++◌, eqb, IfOk, OnOk};
ghost use Rattle.std.specs.Cmp.Lexicographic.{pointwise};
ghost use Rattle.std.specs.List.{list_any};
ghost use Rattle.lg_gram.specs.Connectors.{connector_text};
ghost use Rattle.lg_text.specs.Texts.{side_text};
ghost use Rattle.lg_audit.specs.Printed.{ArePieces, is_shown};
ghost use Rattle.lg_audit.specs.Views.{texts};

use crate::piece::cut_at;
use lg_base::{NoMemory, write_bytes};
use lg_gram::Connector;
use std::alloc::Global;

/// The pieces of a text between its commas.
pub(crate) fn pieces<'a>(alloc: Global, text: &'a [u8]) -> Result<Vec<&'a [u8]>, NoMemory>
    ensures { IfOk result (λ pieces. ArePieces text.now (texts pieces.items)) }
{
    let mut pieces = Vec::new(alloc);
    let mut left = text;
    while let Some((piece, rest)) = cut_at(left, b',') {
        pieces.push(piece)?;
        left = rest;
    }
    pieces.push(left)?;
    Ok(pieces)
}

/// Whether the connector's text is one of those of its side.
pub(crate) fn is_shown(
    alloc: Global,
    connector: &Connector,
    lefts: &[&[u8]],
    rights: &[&[u8]],
) -> Result<bool, NoMemory>
    ensures { IfOk result (λ shown. shown ≡ is_shown (texts lefts.now) (texts rights.now) connector.now) }
{
    let mut text = Vec::new(alloc);
    write_connector(&mut text, connector)?;
    if connector.is_right() {
        Ok(is_among(rights, text.as_slice()))
    } else {
        Ok(is_among(lefts, text.as_slice()))
    }
}

/// The connectors of a side, as they are printed.
pub(crate) fn side_text(alloc: Global, connectors: &[Connector]) -> Result<Vec<u8>, NoMemory>
    ensures { IfOk result (λ text. text.items ≡ side_text connectors.now) }
{
    let mut out = Vec::new(alloc);
    match connectors.split_first() {
        None => write_bytes(&mut out, b"-")?,
        Some((first, rest)) => write_connectors(&mut out, first, rest)?,
    }
    Ok(out)
}

fn write_connectors(
    out: &mut Vec<u8>,
    first: &Connector,
    rest: &[Connector],
) -> Result<(), NoMemory>
    ensures { OnOk result (out.new.items ≡ out.old.items ++ side_text (first.now ∷ rest.now)) }
{
    write_connector(out, first)?;
    for connector in rest {
        write_bytes(out, b",")?;
        write_connector(out, connector)?;
    }
    Ok(())
}

fn write_connector(out: &mut Vec<u8>, connector: &Connector) -> Result<(), NoMemory>
    ensures { OnOk result (out.new.items ≡ out.old.items ++ connector_text connector.now) }
{
    if connector.is_multi() {
        write_bytes(out, b"@")?;
    }
    write_bytes(out, connector.caps())?;
    write_bytes(out, connector.subs())?;
    Ok(())
}

fn is_among(others: &[&[u8]], text: &[u8]) -> bool
    ensures { result ≡ list_any (λ other. pointwise eqb other text.now) (texts others.now) }
{
    has_text(others, text)
}

fn has_text(others: &[&[u8]], text: &[u8]) -> bool
    ensures { result ≡ list_any (λ other. pointwise eqb other.now text.now) others.now }
{
    others.iter().any(|other| *other == text)
}
