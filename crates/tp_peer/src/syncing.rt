//! Messages from and to other peers, each on a link.

ghost use Rattle.std.specs.Prelude.{◌≡◌, false, IfOk, IfErr, OnOk};
ghost use Rattle.tp_opid.specs.declared.actor.Actor.{Actor as ActorOf};
ghost use Rattle.tp_peer.specs.Appending.{IsDurable, JournalState};
ghost use Rattle.tp_peer.specs.PeerState.{peer_state};
ghost use Rattle.tp_peer.specs.PeerError.{is_failed};
ghost use Rattle.tp_peer.specs.PeerStep.{PeerStep, Receive, Received as Reported, Generate, Generated, Forget, Forgotten, ReceivesMessage, RefusesDecoding, RefusesReceive, Speaks, RefusesGenerate, reply_of_result};
ghost use Rattle.tp_peer.specs.Sent.{sent_of};
ghost use Rattle.tp_peer.specs.Taking.{journal_of, report_of};
ghost use Rattle.tp_message.specs.Spelling.{message_spelling};

use crate::appender::Appender;
use crate::error::{PeerError, stops};
use crate::exchanged::{Outgoing, Received};
use crate::links::{Link, Links};
use crate::peer::Peer;
use crate::sequence::PeerSequence;
use std::alloc::Global;
use tp_document::Document;
use tp_journal::Journal;
use tp_sync::{Message, generate_bytes, receive_with};

// The message that the bytes are.
fn message_of(alloc: Global, bytes: &[u8]) -> Result<Message, PeerError>
    ensures ok { IfOk result (λ m. bytes.now ≡ message_spelling m) }
    ensures err { IfErr result (λ e. RefusesDecoding bytes.now e) }
{
    match Message::decode(alloc, bytes) {
        Ok(message) => Ok(message),
        Err(error) => Err(PeerError::from(error)),
    }
}

// Receives the message of a link. All that can fail comes before its changes, and nothing after them.
fn receive_message_on<J: Journal>(
    alloc: Global,
    document: &mut Document<PeerSequence>,
    links: &mut Links,
    appender: &mut Appender<J>,
    link: Link,
    message: Message,
) -> Result<Received, PeerError>
    ensures ok { (actor : ActorOf) → IfOk result
        (λ r. ReceivesMessage (peer_state actor document.old links.old.known appender.old false) link.0
        (message_spelling message) (report_of r.applied) r.same_heads
        (peer_state actor document.new links.new.known appender.new false)) }
    ensures err { (actor : ActorOf) → IfErr result
        (λ e. RefusesReceive (peer_state actor document.old links.old.known appender.old false) link.0
        (message_spelling message) e
        (peer_state actor document.new links.new.known appender.new (is_failed e))) }
{
    if links.is_full_for(link) {
        return Err(PeerError::TooManyLinks);
    }
    let mut state = links.state_on(alloc, link)?;
    links.reserve()?;
    let same_heads = state.is_declared(message.heads());
    match receive_with(document, &mut state, message, appender) {
        Ok(applied) => {
            links.set(link, state);
            Ok(Received {
                applied,
                same_heads,
            })
        }
        Err(error) => Err(PeerError::from(error)),
    }
}

// Receives the message that the bytes are. A link that has no place is refused before they are read.
fn receive_on<J: Journal>(
    alloc: Global,
    document: &mut Document<PeerSequence>,
    links: &mut Links,
    appender: &mut Appender<J>,
    link: Link,
    bytes: &[u8],
) -> Result<Received, PeerError>
    ensures ok { (actor : ActorOf) → IfOk result
        (λ r. ReceivesMessage (peer_state actor document.old links.old.known appender.old false) link.0
        bytes.now (report_of r.applied) r.same_heads
        (peer_state actor document.new links.new.known appender.new false)) }
    ensures err { (actor : ActorOf) → IfErr result
        (λ e. RefusesReceive (peer_state actor document.old links.old.known appender.old false) link.0
        bytes.now e
        (peer_state actor document.new links.new.known appender.new (is_failed e))) }
{
    if links.is_full_for(link) {
        return Err(PeerError::TooManyLinks);
    }
    let message = message_of(alloc, bytes)?;
    receive_message_on(alloc, document, links, appender, link, message)
}

// Makes the next message of a link. What is known there changes only once the bytes are written.
fn message_on(
    alloc: Global,
    document: &Document<PeerSequence>,
    links: &mut Links,
    link: Link,
) -> Result<Option<Outgoing>, PeerError>
    ensures ok { (actor : ActorOf) (k : JournalState) → IfOk result
        (λ sent. Speaks (peer_state actor document.now links.old.known k false) link.0 (sent_of sent)
        (peer_state actor document.now links.new.known k false)) }
    ensures err { (actor : ActorOf) (k : JournalState) → IfErr result
        (λ e. RefusesGenerate (peer_state actor document.now links.old.known k false) link.0 e
        (peer_state actor document.now links.new.known k false)) }
{
    if links.is_full_for(link) {
        return Err(PeerError::TooManyLinks);
    }
    let mut state = links.state_on(alloc, link)?;
    links.reserve()?;
    match generate_bytes(alloc, document, &mut state) {
        Ok(Some(bytes)) => {
            let again = state.again();
            links.set(link, state);
            Ok(Some(Outgoing { bytes, again }))
        }
        Ok(None) => Ok(None),
        Err(error) => Err(PeerError::from(error)),
    }
}

// Settles the journal, and makes the next message of a link: it declares what is kept.
fn generate_on<J: Journal>(
    alloc: Global,
    document: &Document<PeerSequence>,
    links: &mut Links,
    appender: &mut Appender<J>,
    link: Link,
) -> Result<Option<Outgoing>, PeerError>
    ensures settled { OnOk result (IsDurable J.content J.device J.is_settled appender.new) }
    ensures ok { (actor : ActorOf) → IfOk result
        (λ sent. Speaks (peer_state actor document.now links.old.known appender.old false) link.0
        (sent_of sent) (peer_state actor document.now links.new.known appender.new false)) }
    ensures err { (actor : ActorOf) → IfErr result
        (λ e. RefusesGenerate (peer_state actor document.now links.old.known appender.old false) link.0 e
        (peer_state actor document.now links.new.known appender.new (is_failed e))) }
{
    match appender.settle() {
        Ok(()) => message_on(alloc, document, links, link),
        Err(error) => Err(error),
    }
}

impl<J: Journal> Peer<J> {
    /// Receives a message that came on a link, as Automerge's call `receive_sync_message`: its changes, as a merge
    /// receives them, and then the heads that it declares and the hashes that it wants, which are known on the link from
    /// then on. A link that isn't there is made.
    ///
    /// A message may come twice or late: what it carries is then refused as `Known`, and reported.
    ///
    /// It is refused as `Stopped`; then as `TooManyLinks` where the link would be a new one and there are 1,024; then as
    /// `BadMessage` or `BadChange` of the exchange where the bytes are no message; then as `PendingFull` of it where more
    /// than 1,024 changes would wait. `JournalFailed` where the device failed while a record was appended: what entered
    /// before stays, and the peer has stopped. `OutOfMemory`, the only other refusal, leaves what had entered as well,
    /// and of what waited nothing is lost. Each refusal leaves the links as they were.
    ///
    /// One pass over the bytes, one look-up for each change, and one append for each that enters.
    pub fn receive_bytes(&mut self, link: Link, bytes: &[u8]) -> Result<Received, PeerError>
        ensures { PeerStep self.old (Receive link.0 bytes.now)
            (reply_of_result (λ r. Reported (report_of r.applied) r.same_heads) result) self.new }
    {
        if self.stopped {
            return Err(PeerError::Stopped);
        }
        let received = receive_on(
            self.alloc,
            &mut self.document,
            &mut self.links,
            &mut self.appender,
            link,
            bytes,
        );
        self.stopped = stops(&received);
        received
    }

    /// Receives a message that was decoded, as [`receive_bytes`](Peer::receive_bytes) receives its bytes. They aren't
    /// made, and no change is copied.
    pub fn receive_message(&mut self, link: Link, message: Message) -> Result<Received, PeerError>
        ensures { PeerStep self.old (Receive link.0 (message_spelling message))
            (reply_of_result (λ r. Reported (report_of r.applied) r.same_heads) result) self.new }
    {
        if self.stopped {
            return Err(PeerError::Stopped);
        }
        let heard = receive_message_on(
            self.alloc,
            &mut self.document,
            &mut self.links,
            &mut self.appender,
            link,
            message,
        );
        self.stopped = stops(&heard);
        heard
    }

    /// The next message on a link, as Automerge's call `generate_sync_message`, or `None` where there is nothing to say:
    /// see [`generate`](tp_sync::generate). A link that isn't there is made. The journal is settled first, so that what a
    /// message declares is kept.
    ///
    /// It is refused as `Stopped`; then as `JournalFailed` where the device failed as the journal was settled: the peer has
    /// stopped; then as `TooManyLinks` where the link would be a new one and there are 1,024; then as `TooManyHeads` of the
    /// exchange where the document has more than 65,535 heads. The only other refusal is `OutOfMemory`. Each but
    /// `JournalFailed` leaves the peer as it was.
    ///
    /// The cost is that of [`generate_bytes`](tp_sync::generate_bytes), and of settling the journal.
    pub fn generate_bytes(&mut self, link: Link) -> Result<Option<Outgoing>, PeerError>
        ensures settled { OnOk result
            (IsDurable J.content J.device J.is_settled (journal_of self.new)) }
        ensures step { PeerStep self.old (Generate link.0)
            (reply_of_result (λ sent. Generated (sent_of sent)) result) self.new }
    {
        if self.stopped {
            return Err(PeerError::Stopped);
        }
        let sent = generate_on(
            self.alloc,
            &self.document,
            &mut self.links,
            &mut self.appender,
            link,
        );
        self.stopped = stops(&sent);
        sent
    }

    /// Forgets all that is known on a link, which may be absent. The only refusal is `Stopped`. No memory.
    pub fn forget_link(&mut self, link: Link) -> Result<(), PeerError>
        ensures { PeerStep self.old (Forget link.0) (reply_of_result (λ _. Forgotten) result) self.new }
    {
        if self.stopped {
            return Err(PeerError::Stopped);
        }
        self.links.forget(link);
        Ok(())
    }
}
