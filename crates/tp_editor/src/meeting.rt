//! Sessions of an editor.

ghost use Rattle.std.specs.Prelude.{◌≡◌, [], None, IfErr, OnOk, OnErr};
ghost use Rattle.tp_editor.specs.Meeting.{BeginsSession, Feeds, FeedsHeld, RefusesBegin};

use crate::conversing::{answer_all, put_refusal};
use crate::editor::{Editor, Held};
use tp_journal::Journal;
use tp_session::{Conversation, Host, NetError, Role};

impl<J: Journal> Editor<J> {
    /// Begins a session as the side with the role, and ends one that goes on: nothing more of it is sent. What the
    /// messages of the last one said is forgotten. The answer is the frame that is to be sent at once: a client's
    /// hello, and nothing of a server.
    ///
    /// It is refused as a peer's `Stopped`; the only other refusal is `OutOfMemory`. No session goes on then, and the
    /// answer is empty.
    pub fn begin(&mut self, role: Role) -> Result<(), NetError>
        ensures ok { OnOk result (BeginsSession self.old role self.new) }
        ensures err { IfErr result (λ e. RefusesBegin self.old e self.new) }
        ensures none { OnErr result (self.new.held ≡ None) }
        ensures refused { OnErr result (self.new.answer ≡ []) }
        ensures entered { self.new.entered ≡ 0 }
        ensures links { self.new.links ≡ self.old.links }
    {
        self.answer.clear();
        self.held = None;
        self.entered = 0;
        let id = self.document().id();
        match self.host.forget() {
            Ok(()) => {}
            Err(error) => return Err(NetError::Peer(error)),
        }
        let conversation = Conversation::new(self.alloc, role, id);
        match conversation.first() {
            Ok(bytes) => self.answer = bytes,
            Err(_) => return Err(NetError::OutOfMemory),
        }
        self.held = Some(Held { conversation });
        Ok(())
    }

    /// Takes the next bytes of the other side, in whatever pieces they come, and answers the frames that are whole
    /// then, as [`Conversation::feed`] does, until the session has ended or no whole frame is left. Whether it has
    /// ended well: both sides have said done, and what came after is dropped. The answer is what is to be sent, which
    /// may be nothing.
    ///
    /// Each error ends the session, and the answer ends with the refusal that the other side is due, unless memory is
    /// refused for it: `Frame` where what came is no frame, `OutOfMemory`, and else what `Conversation::feed` answers.
    /// What was received before stays. Where no session goes on it is refused as `Unexpected`, and the answer is empty.
    ///
    /// Of a message that isn't whole yet the bytes of one hash or change at most are held, which are 4,194,304 at most,
    /// and what was decoded.
    pub fn feed(&mut self, bytes: &[u8]) -> Result<bool, NetError>
        ensures feeds { Feeds self.old bytes.now result self.new }
        ensures links { self.new.links ≡ self.old.links }
    {
        self.answer.clear();
        match self.held.take() {
            Some(held) => self.feed_held(held, bytes),
            None => Err(NetError::Unexpected),
        }
    }

    // Takes the bytes for a session that was taken out, and puts it back where it goes on.
    fn feed_held(&mut self, held: Held, bytes: &[u8]) -> Result<bool, NetError>
        requires empty { self.old.answer ≡ [] }
        requires none { self.old.held ≡ None }
        ensures feeds { FeedsHeld self.old.peer held bytes.now result self.new }
        ensures links { self.new.links ≡ self.old.links }
    {
        let Held { mut conversation } = held;
        let fed = answer_all(&mut conversation, bytes, &mut self.host, &mut self.answer);
        self.entered = conversation.applied_count();
        match fed {
            Ok(false) => {
                self.held = Some(Held { conversation });
                Ok(false)
            }
            Ok(true) => Ok(true),
            Err(error) => {
                put_refusal(self.alloc, &mut self.answer, error);
                Err(error)
            }
        }
    }

    /// Ends the session that goes on, if one does, as where its stream has ended. Nothing is to be sent for it. What it
    /// received stays.
    pub fn end(&mut self)
        ensures { self.new ≡ record self.old { held = None } }
    {
        self.held = None;
    }
}
