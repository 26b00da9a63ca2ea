//! What the program prints of a log that it refuses.

ghost use Rattle.std.specs.Prelude.{◌≡◌, Some};
ghost use Rattle.tp_textpeer.specs.Refusal.{change_name, fault_name, is_outside as is_outside_of, show_refusal_text};

use crate::error::{ShowError, ShowFault};
use std::fmt;
use tp_change::ChangeError;

/// A refusal as the program prints it, without a newline: `show: change N: NAME`, where N counts the changes from 0
/// and NAME is the innermost refusal's name. Where the log isn't at fault it is `textpeer: Io` or
/// `textpeer: OutOfMemory`.
#[derive(Clone, Copy, Debug, PartialEq, Eq)]
pub struct Refusal(pub ShowError);

impl fmt::Display for Refusal {
    ghost output = { λ r. Some (show_refusal_text r.0) };

    fn fmt<W: fmt::Write>(&self, f: &mut fmt::Formatter<W>) -> fmt::Result {
        let change = self.0.change;
        let name = name_of(self.0.fault);
        if is_outside(self.0.fault) {
            write!(f, "textpeer: {name}")
        } else {
            write!(f, "show: change {change}: {name}")
        }
    }
}

// Whether the fault says nothing of the log.
fn is_outside(fault: ShowFault) -> bool
    ensures { result ≡ is_outside_of fault }
{
    matches!(fault, ShowFault::Io | ShowFault::OutOfMemory)
}

// The name of the innermost refusal.
fn name_of(fault: ShowFault) -> &'static str
    ensures { result.now ≡ fault_name fault }
{
    match fault {
        ShowFault::NotChain => "NotChain",
        ShowFault::BadSeq => "BadSeq",
        ShowFault::BadStart => "BadStart",
        ShowFault::BadReference => "BadReference",
        ShowFault::Change(e) => name_of_change(e),
        ShowFault::OutOfMemory => "OutOfMemory",
        ShowFault::Io => "Io",
    }
}

fn name_of_change(e: ChangeError) -> &'static str
    ensures { result.now ≡ change_name e }
{
    match e {
        ChangeError::Version => "Version",
        ChangeError::Short => "Short",
        ChangeError::Trailing => "Trailing",
        ChangeError::ZeroSeqOrStart => "ZeroSeqOrStart",
        ChangeError::BadUtf8 => "BadUtf8",
        ChangeError::DepsOrder => "DepsOrder",
        ChangeError::NoRecords => "NoRecords",
        ChangeError::BadTag => "BadTag",
        ChangeError::EmptyRun => "EmptyRun",
        ChangeError::Limit => "Limit",
        ChangeError::OutOfMemory => "OutOfMemory",
        ChangeError::NoRun => "NoRun",
    }
}
