//! Links to other peers, and messages on them.

ghost use Rattle.std.specs.Prelude.{◌≡◌, ◌↔◌, ◌+◌, ◌≤◌, Err, IfOk, OnErr, IsOkUnless};
ghost use Rattle.tp_peer.specs.declared.error.PeerError.TheVariants.{TooManyLinks};
ghost use Rattle.tp_editor.specs.EditorState.{KeepsAnswer, KeepsRest};
ghost use Rattle.tp_editor.specs.Exchanging.{Generates, ReceivesOnLink};

use crate::editor::Editor;
use crate::error::EditorError;
use crate::hosting::MOST_LINKS;
use tp_document::Applied;
use tp_journal::Journal;
use tp_peer::{Link, PeerError};

impl<J: Journal> Editor<J> {
    /// Opens a link to another peer, of which nothing is known yet. Answers its number, from 0 in the order in which
    /// links were opened. The only refusal is `TooManyLinks`, exactly where 1,022 were. No memory.
    pub fn open_link(&mut self) -> Result<usize, PeerError>
        ensures opened { IfOk result (λ i. (i ≡ self.old.links)
            × (self.new ≡ record self.old { links = self.old.links + 1 })) }
        ensures full { (result ≡ Err TooManyLinks) ↔ (MOST_LINKS ≤ self.old.links) }
        ensures err { IsOkUnless result TooManyLinks }
        ensures same { OnErr result (self.new ≡ self.old) }
    {
        if self.links >= MOST_LINKS {
            return Err(PeerError::TooManyLinks);
        }
        let link = self.links;
        self.links = link + 1;
        Ok(link)
    }

    /// Makes the next message to the other of the link, as [`Peer::generate_bytes`](tp_peer::Peer::generate_bytes) does
    /// and with its refusals, and keeps its bytes as the answer. Answers whether there is one. Where nothing is to be
    /// said the answer stays.
    ///
    /// `NoLink` where there is no such link. A refusal leaves the answer.
    pub fn generate(&mut self, link: usize) -> Result<bool, EditorError>
        ensures made { Generates self.old link result self.new }
        ensures rest { KeepsRest self.old self.new }
    {
        if link >= self.links {
            return Err(EditorError::NoLink);
        }
        match self.host.peer.generate_bytes(Link(link as u64)) {
            Ok(Some(sent)) => {
                self.answer = sent.bytes;
                Ok(true)
            }
            Ok(None) => Ok(false),
            Err(error) => Err(EditorError::Peer(error)),
        }
    }

    /// Receives the bytes of a message of the other of the link, as [`Peer::receive_bytes`](tp_peer::Peer::receive_bytes)
    /// does and with its refusals. `NoLink` where there is no such link.
    pub fn receive(&mut self, link: usize, bytes: &[u8]) -> Result<Applied, EditorError>
        ensures received { ReceivesOnLink self.old link bytes.now result self.new }
        ensures rest { KeepsAnswer self.old self.new }
    {
        if link >= self.links {
            return Err(EditorError::NoLink);
        }
        match self.host.peer.receive_bytes(Link(link as u64), bytes) {
            Ok(received) => Ok(received.applied),
            Err(error) => Err(EditorError::Peer(error)),
        }
    }
}
