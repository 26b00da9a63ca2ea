//! One session over a reader and a writer.

ghost use Rattle.std.specs.Prelude.{◌≡◌, ◌⊎◌, ℕ, List, ◌++◌, false, Err, IfOk, IfErr, MatchResult};
ghost use Rattle.std.specs.List.{flat_map};
ghost use Rattle.std.specs.Io.KnownBytes.{Appends, Consumes, Keeps};
ghost use Rattle.tp_frame.specs.Frame.{frame_spelling};
ghost use Rattle.tp_session.specs.Conversation.{Goes};
ghost use Rattle.tp_session.specs.declared.error.NetError.TheVariants.{Io};
ghost use Rattle.tp_session.specs.Laws.{is_over};
ghost use Rattle.tp_session.specs.SessionState.{new_session};
ghost use Rattle.tp_session.specs.Transcript.{Traffic};
ghost use Rattle.tp_net.specs.RunSession.{EndsWell, StopsAtTurn, StopsFor, IsWholeSession};

use crate::reading::read_more;
use crate::writing::{put, send_refusal};
use std::alloc::Global;
use std::io::{Read, Write};
use tp_opid::DocId;
use tp_session::{Conversation, Host, NetError, Next, Output, Role};

/// The most bytes that are read at once.
const CHUNK: usize = 8192;

// Reads more bytes where the session waits for them, feeds these, and sends what comes of that. How it goes on.
fn take_turn<R: Read, W: Write, H: Host>(
    reader: &mut R,
    writer: &mut W,
    conversation: &mut Conversation,
    before: Next,
    host: &mut H,
) -> Result<Next, NetError>
    ensures ok { IfOk result (λ next. (more : List ℕ) × (sent : List ℕ)
        × Consumes (R.remaining reader.old) (R.remaining reader.new) more
        × Appends (W.contents writer.old) (W.contents writer.new) sent
        × Goes H.steps (conversation.old.session, H.seen host.old)
        (conversation.old.bytes ++ more) next sent
        (conversation.new.session, H.seen host.new) conversation.new.bytes) }
    ensures err { is_over conversation.old.session.phase ≡ false → IfErr result
        (λ e. (more : List ℕ) × Consumes (R.remaining reader.old) (R.remaining reader.new) more
        × StopsAtTurn H.steps (conversation.old.session, H.seen host.old)
        (conversation.old.bytes ++ more) e (H.seen host.new)) }
    ensures kept { IfErr result
        (λ e. (e ≡ Io) ⊎ Keeps (W.contents writer.old) (W.contents writer.new)) }
    ensures host { H.goes_on host.old host.new }
{
    let mut chunk = [0u8; CHUNK];
    let len = read_more(reader, &mut chunk, before)?;
    let Output { send, next } = conversation.feed(&chunk[..len], host)?;
    put(writer, send.as_slice())?;
    Ok(next)
}

// The session to its end, with no refusal where it stops for an error.
fn converse<R: Read, W: Write, H: Host>(
    alloc: Global,
    reader: &mut R,
    writer: &mut W,
    role: Role,
    id: DocId,
    host: &mut H,
) -> Result<u64, NetError>
    ensures session { (w : Traffic)
        × Consumes (R.remaining reader.old) (R.remaining reader.new) w.read
        × ((result ≡ Err Io)
        ⊎ Appends (W.contents writer.old) (W.contents writer.new) (flat_map frame_spelling w.sent))
        × MatchResult result
        (λ n. EndsWell H.steps (new_session role id, H.seen host.old) w n (H.seen host.new))
        (λ e. StopsFor H.steps (new_session role id, H.seen host.old) w e (H.seen host.new)) }
    ensures host { H.goes_on host.old host.new }
{
    let mut conversation = Conversation::new(alloc, role, id);
    let first = conversation.first()?;
    put(writer, first.as_slice())?;
    let mut next = Next::Waits;
    for _ in 0..u64::MAX {
        if let Next::Ended = next {
            return Ok(conversation.applied_count());
        }
        next = take_turn(reader, writer, &mut conversation, next, host)?;
    }
    Err(NetError::Io)
}

/// Holds one session over a stream, as the side with the role, about the document with the identifier, and answers how
/// many changes were applied here.
///
/// The host forgets its link before the first frame and at the end. A client sends its hello; then each frame that the
/// reader gives is answered as [`Session::on_part`] says, until both sides have said done. The writer is flushed after
/// each frame.
///
/// Where the host refuses to forget the link at the begin the answer is `Peer`, and nothing is read or sent; such a
/// refusal at the end changes nothing. `Io` where the reader fails, or ends before the session has, and where the
/// writer fails. `Frame` where the bytes that come are no frame, or a message of the host is too long for one.
/// `OutOfMemory` where a growth was refused for a frame, and else what `on_part` answers. Before each error but `Io`
/// and `RefusedByOther` the refusal that is due is sent, which takes no memory; where the writer fails then, the
/// answer is `Io`.
///
/// It waits for bytes as long as the reader does, so the other side can hold it for ever. At most 8,192 bytes are read at
/// once and fed to a [`Conversation`]: of a message those of one change at most are held, and what was decoded. Bytes
/// after the last frame may have been read. All else is the cost of the host's calls.
pub fn run_session<R: Read, W: Write, H: Host>(
    alloc: Global,
    reader: &mut R,
    writer: &mut W,
    role: Role,
    id: DocId,
    host: &mut H,
) -> Result<u64, NetError>
    // What was read begins with the frames that came, each was one step of the session, and their answers were sent. So it
    // was up to an error, and the refusal that is due was sent, unless the stream failed.
    ensures session { (w : Traffic)
        × Consumes (R.remaining reader.old) (R.remaining reader.new) w.read
        × ((result ≡ Err Io)
        ⊎ Appends (W.contents writer.old) (W.contents writer.new) (flat_map frame_spelling w.sent))
        × IsWholeSession H.steps (new_session role id) (H.seen host.old) w result (H.seen host.new) }
    ensures host { H.goes_on host.old host.new }
{
    host.forget()?;
    let result = match converse(alloc, reader, writer, role, id, host) {
        Ok(applied) => Ok(applied),
        Err(error) => Err(send_refusal(writer, error)),
    };
    let _ = host.forget();
    result
}
