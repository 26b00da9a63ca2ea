//! What is printed of a line.

ghost use Rattle.std.specs.Prelude.{◌≡◌, ◌++◌, IfOk, codes, length};
ghost use Rattle.std.specs.Fmt.{decimal};
ghost use Rattle.std.specs.Str.{chars};
ghost use Rattle.std.specs.String.{string_bytes};
ghost use Rattle.tp_call.specs.Calls.{reply_of as own_reply_of};
ghost use Rattle.tp_peer.specs.Taking.{report_of};
ghost use Rattle.tp_event.specs.Views.{event_reply_of};
ghost use Rattle.tp_simulate.specs.Telling.{counts, is_mark as is_mark_of, line_of_reply as marked_of, reported_answer as reported_answer_of, reported_text as reported_text_of};
ghost use Rattle.tp_list.specs.Bytes.{line as line_of};

use crate::asked::Asked;
use crate::names::{peer_name, world_name};
use std::alloc::{AllocError, Global};
use tp_document::Applied;
use tp_world::{Answer, PeerReply, Reply};

// A line.
fn line(alloc: Global, text: &str) -> Result<String, AllocError>
    ensures { IfOk result (λ l. string_bytes l ≡ line_of text.now) }
{
    format!(in alloc; "{text}\n")
}

// The line of a text that was read, and of no mark.
fn line_of_text(alloc: Global, text: &str) -> Result<String, AllocError>
    ensures { IfOk result (λ l. string_bytes l ≡ line_of (codes "text " ++ text.now)) }
{
    format!(in alloc; "text {text}\n")
}

// How many changes of a merge entered.
fn line_of_merge(alloc: Global, report: &Applied) -> Result<String, AllocError>
    ensures { IfOk result (λ l. string_bytes l
        ≡ line_of (codes "applied " ++ decimal (length report.now.applied.items))) }
{
    let applied = report.applied.len();
    format!(in alloc; "applied {applied}\n")
}

// The line of a refusal.
fn line_of_refusal(alloc: Global, name: &str) -> Result<String, AllocError>
    ensures { IfOk result (λ l. string_bytes l ≡ line_of (codes "refused " ++ name.now)) }
{
    format!(in alloc; "refused {name}\n")
}

// How many changes of a message entered, are held and were refused.
fn line_of_counts(alloc: Global, report: &Applied) -> Result<String, AllocError>
    ensures { IfOk result (λ l. string_bytes l ≡ counts (report_of report.now)) }
{
    let applied = report.applied.len();
    let held = report.held.len();
    let refused = report.refused.len();
    format!(in alloc; "applied {applied} held {held} refused {refused}\n")
}

fn is_mark(asked: &Asked) -> bool
    ensures { result ≡ is_mark_of asked.now }
{
    match asked {
        Asked::Mark { .. } => true,
        _ => false,
    }
}

// The line of a text that was read.
fn reported_text(alloc: Global, asked: &Asked, text: &str) -> Result<String, AllocError>
    ensures { IfOk result (λ l. string_bytes l ≡ reported_text_of asked.now (chars text.now)) }
{
    if is_mark(asked) {
        return line(alloc, "marked");
    }
    line_of_text(alloc, text)
}

// What is printed of what a peer answered.
fn reported_own(alloc: Global, asked: &Asked, reply: &PeerReply) -> Result<String, AllocError>
    ensures { IfOk result (λ l. string_bytes l
        ≡ reported_answer_of asked.now (own_reply_of reply.now)) }
{
    match reply {
        PeerReply::Made(Some(_)) => line(alloc, "made"),
        PeerReply::Made(None) => line(alloc, "nothing"),
        PeerReply::Received(received) => line_of_counts(alloc, &received.applied),
        PeerReply::Generated(_) => line(alloc, "quiet"),
        PeerReply::Forgotten => line(alloc, "quiet"),
        PeerReply::Text(text) => reported_text(alloc, asked, text.as_str()),
        PeerReply::Refused(error) => line_of_refusal(alloc, peer_name(*error)),
    }
}

/// What is printed of a line that was replied to, with a newline.
pub(crate) fn line_of_reply(
    alloc: Global,
    asked: &Asked,
    reply: &Reply,
) -> Result<String, AllocError>
    ensures { IfOk result (λ l. string_bytes l ≡ marked_of asked.now (event_reply_of reply.now)) }
{
    match reply {
        Reply::Peer(n) => {
            let n = *n;
            format!(in alloc; "peer {n}\n")
        }
        Reply::Wire(n) => {
            let n = *n;
            format!(in alloc; "wire {n}\n")
        }
        Reply::Reopened => line(alloc, "reopened"),
        Reply::Armed => line(alloc, "armed"),
        Reply::Answered(Answer::Alone(reply)) => reported_own(alloc, asked, reply),
        Reply::Answered(Answer::Merged(report)) => line_of_merge(alloc, report),
        Reply::Refused(why) => line_of_refusal(alloc, world_name(*why)),
    }
}
