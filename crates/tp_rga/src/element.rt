//! An element of a text as a caller sees it.

use tp_opid::{OpId, Place};

/// An element of a text: the insert that made it, and whether a delete names it.
#[derive(Clone, Copy, Debug, PartialEq, Eq)]
pub struct Element {
    /// Its identifier, which no other element of the text has.
    pub id: OpId,
    /// The reference: what it was inserted after.
    pub after: Place,
    /// Its character.
    pub ch: char,
    /// Whether it is a tombstone.
    pub deleted: bool,
}
