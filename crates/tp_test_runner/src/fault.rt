//! Why a row couldn't be run, and how a refusal is an answer.

use std::alloc::{AllocError, AllocFailed, Global};
use std::fmt;
use std::fmt::Display;

/// Why a row couldn't be run.
#[derive(Clone, Copy, Debug, PartialEq, Eq)]
pub enum Fault {
    /// It can't be read: what is wrong with it.
    Row(&'static str),
    /// The call was answered by `OutOfMemory`.
    Refused,
    /// There was no memory for the row itself, beside the call that it makes.
    Memory,
}

impl fmt::Display for Fault {
    fn fmt<W: fmt::Write>(&self, f: &mut fmt::Formatter<W>) -> fmt::Result {
        match self {
            Fault::Row(text) => write!(f, "{text}"),
            Fault::Refused => write!(f, "OutOfMemory"),
            Fault::Memory => write!(f, "no memory for the row itself"),
        }
    }
}

impl From<AllocError> for Fault {
    fn from(_e: AllocError) -> Fault {
        Fault::Memory
    }
}

impl<T: Drop> From<AllocFailed<T>> for Fault {
    fn from(_e: AllocFailed<T>) -> Fault {
        Fault::Memory
    }
}

/// A refusal as an answer, by its name.
pub fn refusal(alloc: Global, error: impl Display + Drop) -> Result<String, Fault> {
    let name = format!(in alloc; "{error}")?;
    if name.as_str().ends_with("OutOfMemory") {
        Err(Fault::Refused)
    } else {
        Ok(name)
    }
}

/// The answer `ok`.
pub fn answer_ok(alloc: Global) -> Result<String, Fault> {
    Ok(String::from_str(alloc, "ok")?)
}
