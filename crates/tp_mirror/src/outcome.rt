//! What a round came to.

/// What a round came to.
#[derive(Clone, Copy, Debug, PartialEq, Eq)]
pub enum Outcome {
    /// NOTE has the journal's text.
    InStep,
    /// NOTE was given the journal's text. Another round follows at once: what was moved away is read again.
    Put,
    /// An editor made NOTE while it was away. Another round follows at once.
    Again,
    /// A file isn't quiet, or NOTE has no byte. The next round comes as ever.
    Busy,
    /// NOTE isn't UTF-8. Nothing was done.
    NotText,
    /// NOTE is gone. Nothing was done, and nothing is deleted from the journal.
    Gone,
}
