//! Requests as they come, and answers as they go: JSON.

ghost use Rattle.std.specs.Prelude.{◌≡◌, IfErr, IfOk, None, OnOk, false};
ghost use Rattle.tp_window.specs.Outcomes.{AnswersRequest, ComesTo, IsTypedEdit, ShowsOutcome};
ghost use Rattle.tp_window.specs.Refusing.{RefusesRequest};
ghost use Rattle.tp_window.specs.Requests.{DoesRequest, MayDo, MayEditAs, RefusesEditAs};
ghost use Rattle.tp_window.specs.Windows.{MayEdit};

use crate::answer::Answer;
use crate::error::WindowError;
use crate::outcome::{Outcome, effect_in, heads_shown, made_by, news_since};
use crate::reading::{heads_meant, request_of, splices_of};
use crate::request::{Request, TypedEdit};
use crate::window::{Edited, Window};
use crate::writing::{json_of, shown_changes, shown_of, text_if_any, texts_of};
use std::alloc::{AllocError, Global};
use tp_document::Document;
use tp_journal::Journal;
use tp_opid::Hash;
use tp_peer::{EditAtError, Peer, PeerError, PeerSequence};

/// What is said to a page.
#[derive(Drop)]
pub struct Said {
    /// The answer.
    pub text: String,
    /// The heads to which the answer's number belongs, where it has one.
    pub heads: Option<Vec<Hash>>,
    /// Why the request is refused, where it is: the answer says so, and the window is to be closed.
    pub refusal: Option<WindowError>,
}

impl Window {
    // Makes the edit that was typed, on the heads that it means.
    fn edit_typed<J: Journal>(
        &self,
        alloc: Global,
        peer: &mut Peer<J>,
        edit: &TypedEdit,
        time: u64,
    ) -> Result<Edited, WindowError>
        ensures edits { MayEditAs self.now edit.now time peer.old peer.new }
        ensures edit { IfOk result (IsTypedEdit self.now edit.now time peer.old peer.new) }
        ensures refusal { IfErr result
            (λ e. RefusesEditAs self.now edit.now time peer.old e peer.new) }
    {
        let heads = heads_meant(alloc, self.memory(), &edit.heads, edit.on)?;
        let splices = splices_of(alloc, &edit.splices)?;
        match self.edit(alloc, peer, &heads, &splices, time) {
            Ok(edited) => Ok(edited),
            Err(error) => Err(WindowError::Edit(error)),
        }
    }

    // Does what is asked.
    fn does<J: Journal>(
        &self,
        alloc: Global,
        peer: &mut Peer<J>,
        time: u64,
        request: &Request,
    ) -> Result<Outcome, WindowError>
        ensures does { DoesRequest self.now request.now time peer.old peer.new }
        ensures outcome { IfOk result (ComesTo self.now request.now time peer.old peer.new) }
        ensures refusal { IfErr result
            (λ e. RefusesRequest self.now request.now time peer.old e peer.new) }
    {
        match request {
            Request::Open {} => Ok(Outcome::Text(peer.document().text()?)),
            Request::Resume {
                actor,
                heads,
                count,
            } => Ok(Outcome::Made(made_by(alloc, peer.document(), actor, heads, *count)?)),
            Request::Edit(edit) => Ok(Outcome::Edit(self.edit_typed(alloc, peer, edit, time)?)),
            Request::Look { heads, on } => Ok(Outcome::News(news_since(
                alloc,
                self.memory(),
                peer.document(),
                heads,
                *on,
            )?)),
            Request::Changes { from, most } => Ok(Outcome::Changes {
                from: *from,
                most: *most,
            }),
            Request::Change { hash } => Ok(Outcome::Effect(effect_in(peer.document(), hash)?)),
        }
    }

    // The answer that opens the page: the text, and the heads at which it is.
    fn answer_of_text<'a>(
        &self,
        alloc: Global,
        document: &Document<PeerSequence>,
        text: &'a String,
    ) -> Result<Answer<'a>, WindowError>
        ensures { IfOk result (ShowsOutcome self.now document.now.id document.now.applied
            (Outcome.Text text.now)) }
    {
        Ok(Answer::Opened {
            document: document.id().to_text(alloc)?,
            actor: self.actor().to_text(alloc)?,
            number: self.memory().next_number(),
            count: document.changes().len(),
            heads: texts_of(alloc, document.heads())?,
            text: text.as_str(),
        })
    }

    // The answer that shows it.
    fn answer_of<'a>(
        &self,
        alloc: Global,
        document: &'a Document<PeerSequence>,
        outcome: &'a Outcome,
    ) -> Result<Answer<'a>, WindowError>
        ensures { IfOk result (ShowsOutcome self.now document.now.id document.now.applied
            outcome.now) }
    {
        match outcome {
            Outcome::Text(text) => self.answer_of_text(alloc, document, text),
            Outcome::Made(resumed) => Ok(Answer::Resumed {
                actor: self.actor().to_text(alloc)?,
                number: self.memory().next_number(),
                made: text_if_any(alloc, &resumed.made)?,
            }),
            Outcome::Edit(edited) => Ok(Answer::Edited {
                made: text_if_any(alloc, &edited.made)?,
                number: self.memory().next_number(),
                count: document.changes().len(),
                heads: texts_of(alloc, &edited.news.heads)?,
                splices: shown_of(alloc, &edited.news.differences)?,
            }),
            Outcome::News(news) => Ok(Answer::Looked {
                number: self.memory().next_number(),
                count: document.changes().len(),
                heads: texts_of(alloc, &news.heads)?,
                splices: shown_of(alloc, &news.differences)?,
            }),
            Outcome::Changes { from, most } => {
                let changes = document.changes();
                Ok(Answer::Changes {
                    count: changes.len(),
                    changes: shown_changes(alloc, changes, *from, *most)?,
                })
            }
            Outcome::Effect(effect) => Ok(Answer::Change {
                text: effect.text.as_str(),
                splices: shown_of(alloc, &effect.differences)?,
            }),
        }
    }

    // Reads what is asked, does it, and writes what it comes to. With the text are the heads of its number, if any. A peer that has
    // stopped does nothing.
    fn answer_text<J: Journal>(
        &self,
        alloc: Global,
        peer: &mut Peer<J>,
        time: u64,
        request: &str,
    ) -> Result<(String, Option<Vec<Hash>>), WindowError>
        ensures does { MayDo self.now time peer.old peer.new }
        ensures runs { OnOk result (peer.old.stopped ≡ false) }
        ensures answered { IfOk result (λ said. AnswersRequest self.now time peer.old peer.new said.1) }
    {
        if peer.is_stopped() {
            return Err(WindowError::Edit(EditAtError::Peer(PeerError::Stopped)));
        }
        let request = request_of(alloc, request)?;
        let outcome = self.does(alloc, peer, time, &request)?;
        let text = json_of(alloc, &self.answer_of(alloc, peer.document(), &outcome)?)?;
        let heads = heads_shown(alloc, peer.document(), outcome)?;
        Ok((text, heads))
    }

    /// Answers a request of the page, which is a JSON text; its edits are made at the time, in seconds after 1970 began. A
    /// refusal is an answer too, and the last one: of a peer that has stopped each request gets one. Where the answer has a number, its heads are given to
    /// [`remember`](Window::remember) before it is sent, and are kept under it then. The only error is that there is no memory for an
    /// answer.
    pub fn answer<J: Journal>(
        &self,
        alloc: Global,
        peer: &mut Peer<J>,
        time: u64,
        request: &str,
    ) -> Result<Said, AllocError>
        ensures edits { MayEdit self.now.actor peer.old peer.new }
        ensures does { MayDo self.now time peer.old peer.new }
        ensures runs { IfOk result (λ said. said.refusal ≡ None → peer.old.stopped ≡ false) }
        ensures answered { IfOk result (λ said. said.refusal ≡ None
            → AnswersRequest self.now time peer.old peer.new said.heads) }
    {
        match self.answer_text(alloc, peer, time, request) {
            Ok((text, heads)) => Ok(Said {
                text,
                heads,
                refusal: None,
            }),
            Err(error) => {
                let reason = format!(in alloc; "{error}")?;
                match json_of(alloc, &Answer::Refused { reason }) {
                    Ok(text) => Ok(Said {
                        text,
                        heads: None,
                        refusal: Some(error),
                    }),
                    Err(_) => Err(AllocError),
                }
            }
        }
    }
}
