//! Edits.

ghost use Rattle.std.specs.Prelude.{◌≡◌, ◌+◌, ◌≤◌, ◌++◌, [], IfOk, OnErr};
ghost use Rattle.std.specs.Vec.{vec_len, vec_capacity};
ghost use Rattle.tp_peer.specs.Common.{chars};
ghost use Rattle.tp_document.specs.Editing.{DoesSplices};
ghost use Rattle.tp_peer.specs.PeerStep.{PeerStep, Edit, Made, reply_of_result};
ghost use Rattle.tp_editor.specs.EditorState.{KeepsRest, made_bytes, under};

use crate::editor::Editor;
use tp_edit::Splice;
use tp_journal::Journal;
use tp_list::array_len;
use tp_opid::{Actor, Hash};
use tp_peer::PeerError;

// How many bytes a hash has.
const HASH_LEN: usize = 32;

// Puts the bytes of the hash, if there is one, after an answer that has room for them.
fn put_made(answer: &mut Vec<u8>, made: &Option<Hash>)
    requires { vec_len answer.old + HASH_LEN ≤ vec_capacity answer.old }
    ensures { answer.new.items ≡ answer.old.items ++ made_bytes made.now }
{
    if let Some(hash) = made {
        let _len = array_len(hash.0);
        match answer.extend_from_slice(&hash.0) {
            Ok(()) => {}
            Err(_) => unreachable!(),
        }
    }
}

impl<J: Journal> Editor<J> {
    /// Edits the text, as [`Peer::edit`](tp_peer::Peer::edit) does and with its refusals: the change is in the journal,
    /// which was settled, before it enters. Where an actor is given it is the editor's from then on, also where the
    /// edit is refused; no two editors may edit under one at a time. The answer is the hash of the change, or empty
    /// where nothing was asked. A refusal leaves the text as it was, and the answer empty.
    pub fn edit(
        &mut self,
        actor: Option<Actor>,
        splices: &[Splice],
        time: u64,
        message: &str,
    ) -> Result<Option<Hash>, PeerError>
        ensures step { PeerStep (under actor self.old.peer)
            (Edit splices.now time (chars message.now)) (reply_of_result Made result) self.new.peer }
        ensures text { IfOk result
            (λ _. DoesSplices self.old.peer.applied self.new.peer.applied splices.now) }
        ensures stays { OnErr result (self.new.peer.applied ≡ self.old.peer.applied) }
        ensures rest { KeepsRest self.old self.new }
        ensures answer { IfOk result (λ made. self.new.answer ≡ made_bytes made) }
        ensures refused { OnErr result (self.new.answer ≡ []) }
    {
        self.answer.clear();
        if let Some(actor) = actor {
            self.host.peer.set_actor(actor);
        }
        self.edit_now(splices, time, message)
    }

    // Edits under the editor's actor, where the answer is empty.
    fn edit_now(
        &mut self,
        splices: &[Splice],
        time: u64,
        message: &str,
    ) -> Result<Option<Hash>, PeerError>
        requires { self.old.answer ≡ [] }
        ensures step { PeerStep self.old.peer (Edit splices.now time (chars message.now))
            (reply_of_result Made result) self.new.peer }
        ensures text { IfOk result
            (λ _. DoesSplices self.old.peer.applied self.new.peer.applied splices.now) }
        ensures stays { OnErr result (self.new.peer.applied ≡ self.old.peer.applied) }
        ensures rest { KeepsRest self.old self.new }
        ensures answer { IfOk result (λ made. self.new.answer ≡ made_bytes made) }
        ensures refused { OnErr result (self.new.answer ≡ []) }
    {
        if self.host.peer.is_stopped() {
            return Err(PeerError::Stopped);
        }
        if self.answer.reserve(HASH_LEN).is_err() {
            return Err(PeerError::OutOfMemory);
        }
        match self.host.peer.edit(splices, time, message) {
            Ok(made) => {
                put_made(&mut self.answer, &made);
                Ok(made)
            }
            Err(error) => Err(error),
        }
    }
}
