//! Cursors: positions of a text that stay with their element while the text changes.

ghost use Rattle.std.specs.Prelude.{◌≡◌, Some, None, MatchResult};
ghost use Rattle.tp_snapshot.specs.Showing.{HasElementAt, HasPosition};

use crate::document::Document;
use crate::error::DocError;
use tp_opid::OpId;
use tp_rga::Sequence;

/// A position of a text, as Automerge's cursor: the element that it marks, whatever comes before it later.
#[derive(Clone, Copy, Debug, PartialEq, Eq)]
pub struct Cursor {
    /// The element.
    pub element: OpId,
}

impl<S: Sequence> Document<S> {
    /// A cursor at the visible character at a position, from 0. `OutOfRange` where the text ends before it.
    pub fn cursor(&self, at: usize) -> Result<Cursor, DocError>
        ensures { MatchResult result
            (λ cursor. HasElementAt self.now.applied at (Some cursor.element))
            (λ e. HasElementAt self.now.applied at None × (e ≡ DocError.OutOfRange)) }
    {
        let found = self.sequence.id_at(at);
        match found {
            Some(element) => Ok(Cursor { element }),
            None => Err(DocError::OutOfRange),
        }
    }

    /// How many visible characters are before the cursor's element, which may have been deleted since.
    /// `UnknownElement` where the document hasn't the element.
    pub fn cursor_position(&self, cursor: &Cursor) -> Result<usize, DocError>
        ensures { MatchResult result
            (λ at. HasPosition self.now.applied cursor.now.element (Some at))
            (λ e. HasPosition self.now.applied cursor.now.element None
            × (e ≡ DocError.UnknownElement)) }
    {
        let found = self.sequence.position(&cursor.element);
        match found {
            Some(at) => Ok(at),
            None => Err(DocError::UnknownElement),
        }
    }
}
