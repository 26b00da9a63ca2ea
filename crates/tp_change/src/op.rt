//! The operations of a change.

use tp_opid::{OpId, Place};

/// One operation: the insert of a character, or the delete of one.
#[derive(Clone, Copy, Debug, PartialEq, Eq)]
pub enum Op {
    /// Inserts a character directly after a reference.
    Insert {
        /// The identifier of the operation, and of the element that it makes.
        id: OpId,
        /// The reference: what the character is placed after.
        after: Place,
        /// The character, a Unicode scalar value.
        ch: char,
    },
    /// Deletes an element. Its tombstone stays.
    Delete {
        /// The identifier of the operation.
        id: OpId,
        /// The element that is deleted.
        target: OpId,
    },
}
