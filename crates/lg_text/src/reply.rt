//! The text of what a session answers to a command.
ghost use Rattle.std.specs.Prelude.{◌≡◌, [], ◌∷◌, ◌++◌, OnOk, IfOk, All, codes, decimal};
ghost use Rattle.lg_text.specs.Pages.{listing_text};
ghost use Rattle.lg_text.specs.Texts.{IsPrintable, bound_pieces};
ghost use Rattle.lg_text.specs.Pieces.{line_end};
ghost use Rattle.lg_text.specs.Replies.{IsAnswerTo, IsPrintableReply, kind_word, cause_pieces, reply_text};

use crate::look::Look;
use crate::page::{many, write_listing};
use crate::piece::{Piece, write_line_end, write_pieces, write_place};
use lg_base::NoMemory;
use lg_gram::{Bound, CommandKind, EditRefusal, Page, Place, Reply, Stats, Tokens};
use std::alloc::Global;

/// The text of what the command at the place S.C (its session and its number) is answered. KIND is `parse`, `list`,
/// `more`, `set`, `macro`, `del` or `version`, and V the version of the dictionary. There is one space between the parts
/// of a line, and a line feed at its end.
///
/// - A page of a listing: the line `S.C KIND version V`, and the page's text with the numbers of disjuncts (`listing_text`).
/// - A sentence past a bound: `S.C KIND version V too many words N`, or `too many choices N`.
/// - An edit that made a version: `S.C KIND version V`.
/// - An edit that is refused: `S.C KIND refused at V: CAUSE`. CAUSE is `unknown macro NAME`, `too deep N`,
///   `too many nodes N`, `too many choices N`, `too many connectors on a side N` or `no such word`.
/// - The version that the session has come to: `S.C version V`.
/// - No listing that could go on: `S.C more nothing held`.
///
/// The only error is running out of memory.
pub fn reply_text(
    alloc: Global,
    place: Place,
    kind: CommandKind,
    reply: &Reply,
    look: Look,
) -> Result<Vec<u8>, NoMemory>
    requires kind { IsAnswerTo kind reply.now }
    requires printable { IsPrintableReply reply.now }
    ensures { IfOk result (λ bytes. bytes.items ≡ reply_text look place kind reply.now) }
{
    let mut out = Vec::new(alloc);
    write_reply(alloc, &mut out, place, kind, reply, look)?;
    Ok(out)
}

#[tactic(auto, using(crate::proofs::Joined::line_of_start))]
fn write_reply(
    alloc: Global,
    out: &mut Vec<u8>,
    place: Place,
    kind: CommandKind,
    reply: &Reply,
    look: Look,
) -> Result<(), NoMemory>
    requires { IsPrintableReply reply.now }
    ensures { OnOk result (out.new.items ≡ out.old.items ++ reply_text look place kind reply.now) }
{
    write_place(out, place)?;
    write_pieces(out, &[Piece::Word(kind_name(kind))])?;
    match reply {
        Reply::Listed {
            version,
            tokens,
            page,
            stats,
        } => write_listed(alloc, out, *version, tokens, page, *stats, look),
        Reply::Beyond { version, bound } => write_beyond(out, *version, *bound),
        Reply::Published { version } => write_version(out, *version),
        Reply::Refused {
            version,
            cause,
            name,
        } => write_refused(out, *version, *cause, name.bytes()),
        Reply::At { version } => write_line_end(out, &[Piece::Number(*version)]),
        Reply::NoListing => {
            let pieces = [Piece::Word(b"nothing"), Piece::Word(b"held")];
            write_line_end(out, &pieces)
        }
    }
}

fn kind_name(kind: CommandKind) -> &'static [u8]
    ensures { result.now ≡ kind_word kind }
{
    match kind {
        CommandKind::Parse => b"parse",
        CommandKind::List => b"list",
        CommandKind::More => b"more",
        CommandKind::Set => b"set",
        CommandKind::Macro => b"macro",
        CommandKind::Del => b"del",
        CommandKind::Version => b"version",
    }
}

fn write_version(out: &mut Vec<u8>, version: u64) -> Result<(), NoMemory>
    ensures { OnOk result (out.new.items ≡ out.old.items ++ line_end (codes "version" ∷ decimal version ∷ [])) }
{
    write_line_end(out, &[Piece::Word(b"version"), Piece::Number(version)])
}

fn write_listed(
    alloc: Global,
    out: &mut Vec<u8>,
    version: u64,
    tokens: &Tokens,
    page: &Page,
    stats: Option<Stats>,
    look: Look,
) -> Result<(), NoMemory>
    requires { All (λ item. IsPrintable tokens.now item.linkage) page.now.items }
    ensures { OnOk result (out.new.items ≡ out.old.items ++ (line_end (codes "version" ∷ decimal version ∷ []) ++ listing_text look tokens.now page.now stats)) }
{
    write_version(out, version)?;
    write_listing(alloc, out, tokens, page, stats, look)
}

fn write_beyond(out: &mut Vec<u8>, version: u64, bound: Bound) -> Result<(), NoMemory>
    ensures { OnOk result (out.new.items ≡ out.old.items ++ line_end (codes "version" ∷ decimal version ∷ bound_pieces bound)) }
{
    let start = [
        Piece::Word(b"version"),
        Piece::Number(version),
        Piece::Word(b"too"),
    ];
    write_pieces(out, &start)?;
    write_line_end(out, &many(bound))
}

fn write_refused(
    out: &mut Vec<u8>,
    version: u64,
    cause: EditRefusal,
    name: &[u8],
) -> Result<(), NoMemory>
    ensures { OnOk result (out.new.items ≡ out.old.items ++ line_end (codes "refused" ∷ codes "at" ∷ (decimal version ++ codes ":") ∷ cause_pieces cause name.now)) }
{
    let start = [
        Piece::Word(b"refused"),
        Piece::Word(b"at"),
        Piece::NumberColon(version),
    ];
    write_pieces(out, &start)?;
    write_cause(out, cause, name)?;
    Ok(())
}

fn write_cause(out: &mut Vec<u8>, cause: EditRefusal, name: &[u8]) -> Result<(), NoMemory>
    ensures { OnOk result (out.new.items ≡ out.old.items ++ line_end (cause_pieces cause name.now)) }
{
    match cause {
        EditRefusal::UnknownMacro(_) => {
            let pieces = [
                Piece::Word(b"unknown"),
                Piece::Word(b"macro"),
                Piece::Word(name),
            ];
            write_line_end(out, &pieces)
        }
        EditRefusal::TooDeep(level) => {
            let pieces = [
                Piece::Word(b"too"),
                Piece::Word(b"deep"),
                Piece::Number(u64::from(level)),
            ];
            write_line_end(out, &pieces)
        }
        EditRefusal::TooManyNodes(count) => write_too_many(out, b"nodes", count),
        EditRefusal::TooManyChoices(count) => write_too_many(out, b"choices", count),
        EditRefusal::SideTooLong(count) => write_side_too_long(out, u64::from(count)),
        EditRefusal::NoSuchWord => {
            let pieces = [
                Piece::Word(b"no"),
                Piece::Word(b"such"),
                Piece::Word(b"word"),
            ];
            write_line_end(out, &pieces)
        }
    }
}

fn write_too_many(out: &mut Vec<u8>, what: &[u8], count: u64) -> Result<(), NoMemory>
    ensures { OnOk result (out.new.items ≡ out.old.items ++ line_end (codes "too" ∷ codes "many" ∷ what.now ∷ decimal count ∷ [])) }
{
    let pieces = [
        Piece::Word(b"too"),
        Piece::Word(b"many"),
        Piece::Word(what),
        Piece::Number(count),
    ];
    write_line_end(out, &pieces)
}

fn write_side_too_long(out: &mut Vec<u8>, count: u64) -> Result<(), NoMemory>
    ensures { OnOk result (out.new.items ≡ out.old.items ++ line_end (codes "too" ∷ codes "many" ∷ codes "connectors" ∷ codes "on" ∷ codes "a" ∷ codes "side" ∷ decimal count ∷ [])) }
{
    let pieces = [
        Piece::Word(b"too"),
        Piece::Word(b"many"),
        Piece::Word(b"connectors"),
        Piece::Word(b"on"),
        Piece::Word(b"a"),
        Piece::Word(b"side"),
        Piece::Number(count),
    ];
    write_line_end(out, &pieces)
}
