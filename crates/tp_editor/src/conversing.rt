//! What the bytes of the other side come to, and the bytes of the answers.

ghost use Rattle.std.specs.Prelude.{◌≡◌, ◌<◌, [], ◌++◌, List, ℕ, length, false, IfOk, IfErr, OnOk, OnErr};
ghost use Rattle.tp_session.specs.Conversation.{RefusesFeed, Goes};
ghost use Rattle.tp_session.specs.declared.error.NetError.TheVariants as net;
ghost use Rattle.tp_session.specs.Laws.{is_over};
ghost use Rattle.tp_editor.specs.Meeting.{AnswersAll, AnswersUntilBreak, IsAnswered, WithRefusal};

use std::alloc::Global;
use tp_frame::write_frame;
use tp_session::{Conversation, Host, NetError, Next, Output};

// Puts the bytes after the answer, which has them alone where it was empty. The only refusal is `OutOfMemory`, which
// leaves it.
fn put(answer: &mut Vec<u8>, bytes: Vec<u8>) -> Result<(), NetError>
    ensures ok { OnOk result (answer.new.items ≡ answer.old.items ++ bytes.items) }
    ensures err { IfErr result (λ e. (e ≡ net.OutOfMemory) × (0 < length bytes.items)) }
    ensures same { OnErr result (answer.new.items ≡ answer.old.items) }
{
    if answer.is_empty() {
        *answer = bytes;
        return Ok(());
    }
    if bytes.is_empty() {
        return Ok(());
    }
    match answer.extend_from_slice(bytes.as_slice()) {
        Ok(()) => Ok(()),
        Err(_) => Err(NetError::OutOfMemory),
    }
}

/// Puts the refusal after the answer that is due for the error, if one is and memory isn't refused.
pub(crate) fn put_refusal(alloc: Global, answer: &mut Vec<u8>, error: NetError)
    ensures { WithRefusal answer.old.items error answer.new.items }
{
    if let Some(frame) = error.refusal() {
        if let Ok(bytes) = write_frame(alloc, &frame) {
            let _ = put(answer, bytes);
        }
    }
}

// Feeds the bytes, and puts the answer to the next frame after the others. How it goes on.
fn answer_next<H: Host>(
    conversation: &mut Conversation,
    bytes: &[u8],
    host: &mut H,
    answer: &mut Vec<u8>,
) -> Result<Next, NetError>
    requires { is_over conversation.old.session.phase ≡ false }
    ensures ok { IfOk result (λ next. (sent : List ℕ)
        × Goes H.steps (conversation.old.session, H.seen host.old)
        (conversation.old.bytes ++ bytes.now) next sent
        (conversation.new.session, H.seen host.new) conversation.new.bytes
        × (answer.new.items ≡ answer.old.items ++ sent)) }
    ensures err { IfErr result (λ e. RefusesFeed H.steps
        (conversation.old.session, H.seen host.old) (conversation.old.bytes ++ bytes.now) e
        (H.seen host.new)) }
    ensures same { OnErr result (answer.new.items ≡ answer.old.items) }
{
    let Output { send, next } = conversation.feed(bytes, host)?;
    put(answer, send)?;
    Ok(next)
}

/// Feeds the bytes, and answers the whole frames in turn, until the session has ended or none is left. Whether it has
/// ended; the answers are put in an empty answer, in order.
pub(crate) fn answer_all<H: Host>(
    conversation: &mut Conversation,
    bytes: &[u8],
    host: &mut H,
    answer: &mut Vec<u8>,
) -> Result<bool, NetError>
    requires empty { answer.old.items ≡ [] }
    requires going { is_over conversation.old.session.phase ≡ false }
    ensures ok { IfOk result (λ ended.
        AnswersAll H.steps (conversation.old.session, H.seen host.old)
        (conversation.old.bytes ++ bytes.now) answer.new.items
        (conversation.new.session, H.seen host.new) conversation.new.bytes
        × IsAnswered ended conversation.new.session conversation.new.bytes) }
    ensures err { IfErr result (λ e.
        AnswersUntilBreak H.steps (conversation.old.session, H.seen host.old)
        (conversation.old.bytes ++ bytes.now) answer.new.items e (H.seen host.new)) }
{
    let mut next = answer_next(conversation, bytes, host, answer)?;
    for _ in 0..u64::MAX {
        match next {
            Next::Waits => return Ok(false),
            Next::GoesOn => next = answer_next(conversation, &[], host, answer)?,
            Next::Ended => return Ok(true),
        }
    }
    Err(NetError::OutOfMemory)
}
