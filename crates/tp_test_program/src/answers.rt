//! What a run did, as a row wants it.

use crate::lines::put_text;
use tp_test_runner::{Fault, Shelf};

/// How a run ended, and what it printed.
#[derive(Drop)]
pub struct Ran {
    /// The exit status.
    pub status: u8,
    /// What was printed to the standard output.
    pub out: String,
    /// What was printed to the standard error.
    pub err: String,
}

impl Ran {
    /// Whether memory was refused.
    pub fn is_refused(&self) -> bool {
        self.status == 1 && self.err.as_str() == "textpeer: OutOfMemory\n"
    }

    /// Adds the exit status.
    pub fn put_status(&self, answer: &mut String) -> Result<(), Fault> {
        let status = self.status;
        write!(answer, "{status}")?;
        Ok(())
    }

    /// Adds the exit status and both texts, each where there is one.
    pub fn put_texts(&self, names: &Shelf<String>, answer: &mut String) -> Result<(), Fault> {
        self.put_status(answer)?;
        if !self.out.is_empty() {
            answer.push_str(" out ")?;
            put_text(names, answer, self.out.as_str())?;
        }
        if !self.err.is_empty() {
            answer.push_str(" err ")?;
            put_text(names, answer, self.err.as_str())?;
        }
        Ok(())
    }

    /// Adds the exit status and which of the streams have a text.
    pub fn put_streams(&self, answer: &mut String) -> Result<(), Fault> {
        self.put_status(answer)?;
        if !self.out.is_empty() {
            answer.push_str(" out")?;
        }
        if !self.err.is_empty() {
            answer.push_str(" err")?;
        }
        Ok(())
    }
}
