//! Whether the journal is that of the edits that were published.

ghost use Rattle.std.specs.Prelude.{◌≡◌, ◌↔◌, ◌<◌, ◌^◌, ◌==◌, length, map, filter, false, All, IfOk, IsTrue};
ghost use Rattle.std.specs.List.{list_all};
ghost use Rattle.std.specs.Option.{option_map_or};
ghost use Rattle.lg_script.specs.Commands.{is_edit, script_views};
ghost use Rattle.lg_script.specs.Histories.{command_at, is_published, published_by, HasPublished};
ghost use Rattle.lg_audit.specs.Answers.{reply_of, replies_of};
ghost use Rattle.lg_audit.specs.Replies.{outline};
ghost use Rattle.lg_audit.specs.Shares.{NamesEdits, IsShare, HasShares};

use crate::dated::command_of;
use crate::shown::ShownReply;
use lg_base::NoMemory;
use lg_gram::Place;
use lg_script::Scripts;
use std::alloc::Global;

/// Whether each place of the journal names a command that edits, and the journal has the edits that were published, in order, each once.
pub(crate) fn journal_holds(
    alloc: Global,
    scripts: &Scripts,
    journal: &[Place],
    replies: &[Vec<ShownReply>],
) -> Result<bool, NoMemory>
    requires sessions { length replies.now ≡ length scripts.now }
    requires few { length replies.now < 2 ^ 32 }
    requires short { All (λ rs. length rs < 2 ^ 32) (replies_of replies.now) }
    ensures { IfOk result (λ holds. IsTrue holds ↔ (NamesEdits (script_views scripts.now) journal.now × HasPublished journal.now (map (map outline) (replies_of replies.now)))) }
{
    if !names_edits(scripts, journal) {
        return Ok(false);
    }
    has_shares(alloc, journal, replies)
}

// Whether each place names a command that edits.
fn names_edits(scripts: &Scripts, journal: &[Place]) -> bool
    ensures { result ≡ list_all (λ p. option_map_or is_edit (command_at (script_views scripts.now) p) false) journal.now }
{
    journal.iter().all(|place| is_edit_at(scripts, *place))
}

// Whether the command at a place edits.
fn is_edit_at(scripts: &Scripts, place: Place) -> bool
    ensures { result ≡ option_map_or is_edit (command_at (script_views scripts.now) place) false }
{
    match command_of(scripts, place) {
        Some(command) => command.is_edit(),
        None => false,
    }
}

// Whether the journal has just the edits of each session that were published, in their order.
fn has_shares(
    alloc: Global,
    journal: &[Place],
    replies: &[Vec<ShownReply>],
) -> Result<bool, NoMemory>
    requires few { length replies.now < 2 ^ 32 }
    requires short { All (λ rs. length rs < 2 ^ 32) (replies_of replies.now) }
    ensures { IfOk result (λ holds. IsTrue holds ↔ HasShares journal.now (map (map outline) (replies_of replies.now)) (length replies.now)) }
{
    for (index, answers) in replies.iter().enumerate() {
        let session = index as u32 + 1;
        let holds = has_share(alloc, session, journal, answers.as_slice())?;
        if !holds {
            return Ok(false);
        }
    }
    Ok(true)
}

// Whether the journal has just the edits of this session that were published, in their order.
fn has_share(
    alloc: Global,
    session: u32,
    journal: &[Place],
    replies: &[ShownReply],
) -> Result<bool, NoMemory>
    requires { length replies.now < 2 ^ 32 }
    ensures { IfOk result (λ holds. IsTrue holds ↔ IsShare journal.now session (map outline (map reply_of replies.now))) }
{
    let told = published(alloc, session, replies)?;
    let kept = of_session(alloc, session, journal)?;
    Ok(kept.as_slice() == told.as_slice())
}

// The places of a session's edits that were published.
fn published(alloc: Global, session: u32, replies: &[ShownReply]) -> Result<Vec<Place>, NoMemory>
    requires { length replies.now < 2 ^ 32 }
    ensures { IfOk result (λ places. places.items ≡ published_by session (map outline (map reply_of replies.now))) }
{
    let mut places = Vec::new(alloc);
    for (index, reply) in replies.iter().enumerate() {
        let command = index as u32 + 1;
        if made_version(reply) {
            places.push(Place { session, command })?;
        }
    }
    Ok(places)
}

// Whether the answer says that an edit made a version.
fn made_version(reply: &ShownReply) -> bool
    ensures { result ≡ is_published (outline (reply_of reply.now)) }
{
    match reply {
        ShownReply::Published { .. } => true,
        _ => false,
    }
}

// The places of the journal that are of this session.
fn of_session(alloc: Global, session: u32, journal: &[Place]) -> Result<Vec<Place>, NoMemory>
    ensures { IfOk result (λ places. places.items ≡ filter (λ p. p.session == session) journal.now) }
{
    let mut places = Vec::new(alloc);
    for place in journal {
        if place.session == session {
            places.push(*place)?;
        }
    }
    Ok(places)
}
