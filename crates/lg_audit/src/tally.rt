//! How many linkages are shown.

ghost use Rattle.std.specs.Prelude.{◌≡◌, ◌<◌, ◌≤◌, ◌^◌, length, map};
ghost use Rattle.std.specs.List.{flat_map, sum_by};
ghost use Rattle.lg_audit.specs.Answers.{reply_of, replies_of};
ghost use Rattle.lg_audit.specs.Audits.{shown_by};
ghost use Rattle.lg_audit.specs.Replies.{linkages_of};
ghost use Rattle.lg_audit.specs.Views.{item_of};

use crate::shown::{ShownItem, ShownReply};

/// How many linkages the answers of all sessions show, fewer than 2^64.
pub(crate) fn shown_in_all(replies: &[Vec<ShownReply>]) -> u64
    requires { sum_by (sum_by shown_by) (replies_of replies.now) < 2 ^ 64 }
    ensures { result ≡ sum_by (sum_by shown_by) (replies_of replies.now) }
{
    let mut count = 0;
    for answers in replies {
        count += shown_in(answers.as_slice());
    }
    count
}

// How many linkages the answers of a session show.
fn shown_in(replies: &[ShownReply]) -> u64
    requires { sum_by shown_by (map reply_of replies.now) < 2 ^ 64 }
    ensures { result ≡ sum_by shown_by (map reply_of replies.now) }
{
    let mut count = 0;
    for reply in replies {
        count += shown_in_reply(reply);
    }
    count
}

// How many linkages an answer shows.
fn shown_in_reply(reply: &ShownReply) -> u64
    ensures { result ≡ shown_by (reply_of reply.now) }
{
    match reply {
        ShownReply::Listed { page, .. } => shown_among(page.items.as_slice()),
        _ => 0,
    }
}

// How many linkages candidates are shown as.
fn shown_among(items: &[ShownItem]) -> u64
    ensures { result ≡ length (flat_map linkages_of (map item_of items.now)) }
{
    let mut count = 0;
    for item in items {
        count += shown_as(item);
    }
    count
}

// How many linkages a candidate is shown as: one if it passes.
fn shown_as(item: &ShownItem) -> u64
    ensures count { result ≡ length (linkages_of (item_of item.now)) }
    ensures most { result ≤ 1 }
{
    match item {
        ShownItem::Passes { .. } => 1,
        ShownItem::Fails { .. } => 0,
    }
}
