//! Making the next message to another peer.

ghost use Rattle.std.specs.Prelude.{◌≡◌, ◌↔◌, ◌<◌, ◌≤◌, ◌⊎◌, length, map, Err, IfOk, IfErr, IfSome, IsOkUnless, IsTrue, MatchOption};
ghost use Rattle.tp_sync.specs.Common.{option_map};
ghost use Rattle.tp_history.specs.Heads as head;
ghost use Rattle.tp_sync.specs.NextMessage.{NextMessage, AnswerBytes, HasNothingToSend, SendsMessage};
ghost use Rattle.tp_sync.specs.Due.{is_truncated};
ghost use Rattle.tp_sync.specs.Saying.{IsToSay};
ghost use Rattle.tp_message.specs.declared.error.SyncError.TheVariants.{OutOfMemory, TooManyHeads};

use crate::due::{Load, are, is_even, load_for};
use crate::known::collect_known;
use crate::state::SyncState;
use crate::wanting::wants;
use std::alloc::Global;
use tp_change::Change;
use tp_document::Document;
use tp_message::{MAX_HASHES, Message, SyncError, encode_parts};
use tp_opid::Hash;
use tp_rga::Sequence;

// Whether nothing is to be said.
fn is_quiet<S: Sequence>(document: &Document<S>, state: &SyncState) -> bool
    ensures { IsTrue result ↔ HasNothingToSend document.now.applied state.now }
{
    are(&state.declared, document.heads()) && is_even(document.graph(), state)
}

// What a message to another peer says.
#[derive(Drop)]
struct Saying<'a> {
    // The heads that it declares.
    heads: Vec<Hash>,
    // The hashes that it wants.
    wants: Vec<Hash>,
    // The hashes of a few changes that are there.
    known: Vec<Hash>,
    // The changes that it carries.
    load: Load<'a>,
}

// What the next message says, or `None` where nothing is to be said. No change is copied.
fn to_say<'a, S: Sequence>(
    alloc: Global,
    document: &'a Document<S>,
    state: &SyncState,
) -> Result<Option<Saying<'a>>, SyncError>
    ensures says { IfOk result (λ o. MatchOption o (HasNothingToSend document.now.applied state.now)
        (IsToSay document.now.applied document.now.waiting state.now)) }
    ensures many { (result ≡ Err TooManyHeads)
        ↔ (MAX_HASHES < length (head.heads document.now.applied)) }
    ensures err { IfErr result (λ e. (e ≡ TooManyHeads) ⊎ (e ≡ OutOfMemory)) }
{
    let heads = document.heads();
    if heads.len() > MAX_HASHES {
        return Err(SyncError::TooManyHeads);
    }
    if is_quiet(document, state) {
        return Ok(None);
    }
    let load = load_for(alloc, document.graph(), state)?;
    let wants = wants(document.graph(), state)?;
    let known = collect_known(alloc, document)?;
    let heads = Vec::from_slice(alloc, heads)?;
    Ok(Some(Saying {
        heads,
        wants,
        known,
        load,
    }))
}

// Copies of the changes.
fn copies_of(alloc: Global, changes: &[&Change]) -> Result<Vec<Change>, SyncError>
    ensures copied { IfOk result (λ v. v.items ≡ map (λ c. c.now) changes.now) }
    ensures err { IsOkUnless result OutOfMemory }
{
    let mut copies = Vec::with_capacity(alloc, changes.len())?;
    for change in changes {
        match change.copy() {
            Ok(copied) => copies.push(copied)?,
            Err(_) => return Err(SyncError::OutOfMemory),
        }
    }
    Ok(copies)
}

// The message that says it, with copies of the changes that it carries. The state takes note of it.
fn make_message<S: Sequence>(
    alloc: Global,
    document: &Document<S>,
    state: &mut SyncState,
    saying: Saying<'_>,
) -> Result<Message, SyncError>
    requires { IsToSay document.now.applied document.now.waiting state.old saying }
    ensures says { IfOk result
        (λ m. SendsMessage document.now.applied document.now.waiting state.old m state.new) }
    ensures err { IfErr result (λ e. (e ≡ OutOfMemory) × (state.new ≡ state.old)) }
{
    let _changes = document.changes();
    let Saying {
        heads,
        wants,
        known,
        load,
    } = saying;
    let changes = copies_of(alloc, &load.changes)?;
    let declared = Vec::from_slice(alloc, &heads)?;
    let message = Message::new(heads, wants, known, changes);
    state.tell(declared, load.next, load.again);
    Ok(message)
}

/// A message for another peer.
#[derive(Drop)]
pub(crate) struct Sent {
    /// The message.
    pub(crate) message: Message,
    /// Whether it leaves out changes that are due.
    pub(crate) cut: bool,
}

/// The next message, as [`generate`] makes it, with whether it leaves out changes that are due.
pub(crate) fn send<S: Sequence>(
    alloc: Global,
    document: &Document<S>,
    state: &mut SyncState,
) -> Result<Option<Sent>, SyncError>
    ensures answer { IfOk result (λ sent. NextMessage document.now.applied document.now.waiting
        state.old (option_map (λ s. s.message) sent) state.new) }
    ensures cut { IfOk result (λ sent. IfSome sent
        (λ s. s.cut ≡ is_truncated document.now.applied state.old)) }
    ensures many { (result ≡ Err TooManyHeads)
        ↔ (MAX_HASHES < length (head.heads document.now.applied)) }
    ensures err { IfErr result
        (λ e. ((e ≡ TooManyHeads) ⊎ (e ≡ OutOfMemory)) × (state.new ≡ state.old)) }
{
    match to_say(alloc, document, state)? {
        Some(saying) => {
            let cut = saying.load.is_cut(document.graph());
            let message = make_message(alloc, document, state, saying)?;
            Ok(Some(Sent { message, cut }))
        }
        None => Ok(None),
    }
}

/// The next message to another peer, as Automerge's call `generate_sync_message`: the document's heads; the hashes that
/// it wants, which are those of the other's heads and of the dependencies of waiting changes that are neither applied
/// nor waiting, the least 65,535 of them; those of the applied changes that are 1, 2, 4, 8 and so on places before the
/// end of the list; and changes that are due. It is of version 2. `None` where the heads were declared to the other, it
/// declared the same, and nothing is due; the state stays then.
///
/// Nothing is due before the other declared heads. Then those of the applied changes are that the other wants, or that
/// aren't in the past of those of its heads and of the changes that it knew that are applied here. Whether they were
/// sent before makes no difference: nothing that was sent counts as received, so a lost message is made up for. The
/// message takes them in applied order, from the place on up to which the one before took them, or from the first where
/// nothing is due from there on, until it has 1,024 of them or 1,048,576 bytes of them.
///
/// `TooManyHeads` exactly where the document has more than 65,535 heads; the only other refusal is `OutOfMemory`. A
/// refusal leaves the state as it was.
///
/// Cost: where the other's heads are the document's, a comparison of them and a look-up for each hash that it wants.
/// Else the pasts of what it declared are joined, with a look-up for each of those hashes. Then each applied change
/// after the prefix of that past is asked for at most once, with at most a comparison for each author of changes there:
/// those from the place on up to which the message before took them, until this one is full, and those before that
/// place only where nothing is due from it on. Where the other wants an applied change, or that past has changes of
/// more than 4,096 authors after its prefix, one pass over all changes is made first, with a byte for each. Only the
/// changes that are sent are copied.
pub fn generate<S: Sequence>(
    alloc: Global,
    document: &Document<S>,
    state: &mut SyncState,
) -> Result<Option<Message>, SyncError>
    ensures answer { IfOk result (λ message. NextMessage document.now.applied document.now.waiting
        state.old message state.new) }
    ensures many { (result ≡ Err TooManyHeads)
        ↔ (MAX_HASHES < length (head.heads document.now.applied)) }
    ensures err { IfErr result
        (λ e. ((e ≡ TooManyHeads) ⊎ (e ≡ OutOfMemory)) × (state.new ≡ state.old)) }
{
    match to_say(alloc, document, state)? {
        Some(saying) => Ok(Some(make_message(alloc, document, state, saying)?)),
        None => Ok(None),
    }
}

/// The bytes of the next message to another peer: those that [`encode`](Message::encode) gives of the message that
/// [`generate`] makes, with what that tells the state and with its refusals. They are written once, into memory that is
/// reserved once.
///
/// The cost is that of `generate` and of the bytes, but that no change is copied.
pub fn generate_bytes<S: Sequence>(
    alloc: Global,
    document: &Document<S>,
    state: &mut SyncState,
) -> Result<Option<Vec<u8>>, SyncError>
    ensures answer { IfOk result (λ bytes. AnswerBytes document.now.applied document.now.waiting
        state.old (option_map (λ b. b.items) bytes) state.new) }
    ensures many { (result ≡ Err TooManyHeads)
        ↔ (MAX_HASHES < length (head.heads document.now.applied)) }
    ensures err { IfErr result
        (λ e. ((e ≡ TooManyHeads) ⊎ (e ≡ OutOfMemory)) × (state.new ≡ state.old)) }
{
    let _changes = document.changes();
    match to_say(alloc, document, state)? {
        Some(
            Saying {
                heads,
                wants,
                known,
                load,
            },
        ) => {
            let bytes = encode_parts(alloc, &heads, &wants, &known, &load.changes, load.bytes)?;
            state.tell(heads, load.next, load.again);
            Ok(Some(bytes))
        }
        None => Ok(None),
    }
}
