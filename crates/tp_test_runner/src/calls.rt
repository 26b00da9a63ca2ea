//! What makes the calls of rows.

use crate::fault::Fault;
use crate::words::Words;

/// What makes the calls of rows, and keeps what they have made.
pub trait Calls: Drop {
    /// A file of rows begins.
    fn begin(&mut self, _file: &str) {}

    /// Makes the call whose first word is the next, and answers it. Where the call is refused memory this is
    /// `Fault::Refused`, and the runner makes it again.
    fn call(&mut self, words: &mut Words) -> Result<String, Fault>;

    /// Forgets all that calls have made, as an example begins.
    fn clear(&mut self);

    /// Whether the call of a row may have been done in part where it was refused memory, so that its answer is another
    /// when it is made again.
    fn is_partial(&self, row: &str) -> bool;
}
