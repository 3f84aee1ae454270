//! Answers, read back.

ghost use Rattle.std.specs.Prelude.{IfOk, MatchOption};
ghost use Rattle.lg_gram.specs.declared.reply.CommandKind.TheVariants as kinds;
ghost use Rattle.lg_text.specs.Shown.{IsOneLine};
ghost use Rattle.lg_audit.specs.Documents.{IsReplyInForm, unread_of};
ghost use Rattle.lg_audit.specs.Fronts.{HasNone, IsRead, Anything};
ghost use Rattle.lg_audit.specs.Views.{text_of};
ghost use Rattle.lg_audit.specs.Answers.{reply_of, answer_lines, HasNoAnswer, IsAnswer, MayBeStats, HasNoStats};

use crate::head::{bound, refusal, told, version};
use crate::lines::first_line;
use crate::numeral::number_of;
use crate::page::read_page;
use crate::shown::ShownReply;
use lg_base::NoMemory;
use lg_gram::CommandKind;
use std::alloc::Global;

/// The answer at the front of a text to the command of that number of a session, and what stands behind its lines.
pub(crate) fn read_reply<'a>(
    alloc: Global,
    session: u64,
    command: u64,
    kind: CommandKind,
    text: &'a [u8],
) -> Result<Option<(ShownReply<'a>, &'a [u8])>, NoMemory>
    ensures { IfOk result (λ r. MatchOption r
        (HasNone (IsReplyInForm kind) (answer_lines session command kind) text.now)
        (λ f. IsRead (IsReplyInForm kind) (answer_lines session command kind) Anything text.now (reply_of f.0) f.1.now)) }
{
    let Some((line, rest)) = first_line(text) else {
        return Ok(None);
    };
    let Some(told) = told(line, session, command, kind) else {
        return Ok(None);
    };
    answer(alloc, kind, told, rest)
}

// The answer to a command of that kind, by what its first line tells, and what stands behind its lines.
fn answer<'a>(
    alloc: Global,
    kind: CommandKind,
    told: &'a [u8],
    text: &'a [u8],
) -> Result<Option<(ShownReply<'a>, &'a [u8])>, NoMemory>
    requires { IsOneLine told.now }
    ensures { IfOk result (λ r. MatchOption r
        (HasNoAnswer kind told.now text.now)
        (λ f. IsAnswer kind told.now text.now (reply_of f.0) f.1.now)) }
{
    match kind {
        CommandKind::Parse | CommandKind::List => listed(alloc, told, text),
        CommandKind::More => gone_on(alloc, told, text),
        CommandKind::Set | CommandKind::Macro | CommandKind::Del => Ok(edited(told, text)),
        CommandKind::Version => Ok(at(told, text)),
    }
}

// The line of numbers of disjuncts at the front of a text, if there is one, and what stands behind it.
fn stats_of(text: &[u8]) -> (Option<&[u8]>, &[u8])
    ensures { IsRead MayBeStats unread_of HasNoStats text.now (text_of result.0) result.1.now }
{
    let Some((line, rest)) = first_line(text) else {
        return (None, text);
    };
    if !line.starts_with(b"stats ") {
        return (None, text);
    }
    (Some(line), rest)
}

// The answer to a sentence, by what its first line tells.
fn listed<'a>(
    alloc: Global,
    told: &'a [u8],
    text: &'a [u8],
) -> Result<Option<(ShownReply<'a>, &'a [u8])>, NoMemory>
    ensures { IfOk result (λ r. MatchOption r
        (HasNoAnswer kinds.Parse told.now text.now)
        (λ f. IsAnswer kinds.Parse told.now text.now (reply_of f.0) f.1.now)) }
{
    if let Some((version, bound)) = bound(told) {
        return Ok(Some((ShownReply::Beyond { version, bound }, text)));
    }
    let Some(version) = version(told) else {
        return Ok(None);
    };
    let (stats, after) = stats_of(text);
    let Some((page, rest)) = read_page(alloc, after)? else {
        return Ok(None);
    };
    let reply = ShownReply::Listed {
        version,
        stats,
        page,
    };
    Ok(Some((reply, rest)))
}

// The answer to `more`.
fn gone_on<'a>(
    alloc: Global,
    told: &'a [u8],
    text: &'a [u8],
) -> Result<Option<(ShownReply<'a>, &'a [u8])>, NoMemory>
    ensures { IfOk result (λ r. MatchOption r
        (HasNoAnswer kinds.More told.now text.now)
        (λ f. IsAnswer kinds.More told.now text.now (reply_of f.0) f.1.now)) }
{
    if told == b"nothing held".as_slice() {
        return Ok(Some((ShownReply::NothingHeld, text)));
    }
    let Some(version) = version(told) else {
        return Ok(None);
    };
    let Some((page, rest)) = read_page(alloc, text)? else {
        return Ok(None);
    };
    let reply = ShownReply::Listed {
        version,
        stats: None,
        page,
    };
    Ok(Some((reply, rest)))
}

// The answer to an edit.
fn edited<'a>(told: &'a [u8], text: &'a [u8]) -> Option<(ShownReply<'a>, &'a [u8])>
    requires { IsOneLine told.now }
    ensures { MatchOption result
        (HasNoAnswer kinds.Set told.now text.now)
        (λ f. IsAnswer kinds.Set told.now text.now (reply_of f.0) f.1.now) }
{
    if let Some(version) = version(told) {
        return Some((ShownReply::Published { version }, text));
    }
    let Some((version, cause)) = refusal(told) else {
        return None;
    };
    Some((ShownReply::Refused { version, cause }, text))
}

// The answer to `version`.
fn at<'a>(told: &'a [u8], text: &'a [u8]) -> Option<(ShownReply<'a>, &'a [u8])>
    ensures { MatchOption result
        (HasNoAnswer kinds.Version told.now text.now)
        (λ f. IsAnswer kinds.Version told.now text.now (reply_of f.0) f.1.now) }
{
    let Some(version) = number_of(told) else {
        return None;
    };
    Some((ShownReply::At { version }, text))
}
