//! Why a command line gave no job.

ghost use Rattle.std.specs.Prelude.{◌≡◌};
ghost use Rattle.tp_command_line.specs.LineError.{IsPassedAs, code_of_value, refusal_of_hex, value_line};
ghost use Rattle.tp_command_line.specs.declared.error.LineError.TheVariants.{Value};
ghost use Rattle.tp_command_line.specs.declared.error.ValueError.TheVariants.{OutOfMemory};

use clap::error::ErrorKind;
use std::alloc::{AllocError, AllocFailed};
use std::fmt;
use tp_opid::HexError;

/// Why a value wasn't read of words in which the parser finds no fault; or that memory ran out, which says nothing of the
/// words.
#[derive(Clone, Copy, Debug, PartialEq, Eq)]
pub enum ValueError {
    /// A hash or a key isn't 64 hexadecimal digits.
    BadHex,
    /// An address is neither `IP:PORT` nor `HOST:PORT`.
    BadAddress,
    /// The address of a page isn't `IP:PORT` of this machine.
    BadPage,
    /// A growth was refused.
    OutOfMemory,
    /// An edit has no text and no file of one, or both: a fault of the words.
    NotOneText,
    /// `recover` has neither a journal to make nor `--texts`, or both: a fault of the words.
    NotOneOutput,
    /// `--take` has neither `text` nor `journal`: a fault of the words.
    BadTake,
}

impl ValueError {
    /// The number of the refusal among those of the program: 1 `BadHex`, 2 `BadAddress` and `BadPage`, as of what fails outside,
    /// 3 `OutOfMemory`, 13 `NotOneText`, `NotOneOutput` and `BadTake`.
    pub fn code(&self) -> u8
        ensures { result ≡ code_of_value self.now }
    {
        match self {
            ValueError::BadHex => 1,
            ValueError::BadAddress | ValueError::BadPage => 2,
            ValueError::OutOfMemory => 3,
            ValueError::NotOneText | ValueError::NotOneOutput | ValueError::BadTake => 13,
        }
    }

    /// The line that is printed of it, with the newline, and where it is to be explained what was expected, below it.
    pub fn line(&self, explains: bool) -> &'static str
        ensures { result.now ≡ value_line explains self.now }
    {
        match (self, explains) {
            (ValueError::BadHex, false) => "textpeer: BadHex\n",
            (ValueError::BadHex, true) => {
                "textpeer: BadHex\n  a hash or a key is 64 hexadecimal digits; textpeer log has whole hashes\n"
            }
            (ValueError::BadAddress, false) => "textpeer: Io\n",
            (ValueError::BadAddress, true) => {
                "textpeer: Io\n  an address is IP:PORT or HOST:PORT, as 127.0.0.1:7000\n"
            }
            (ValueError::BadPage, false) => "textpeer: Io\n",
            (ValueError::BadPage, true) => {
                "textpeer: Io\n  the address of a page is IP:PORT of this machine, as 127.0.0.1:7117, since nobody else is to have it\n"
            }
            (ValueError::OutOfMemory, _) => "textpeer: OutOfMemory\n",
            (ValueError::NotOneText, _) =>
                "error: one of --text <T> and --text-file <F> has to be given\n\nFor more information, try '--help'.\n",
            (ValueError::NotOneOutput, _) =>
                "error: one of <OUT> and --texts has to be given\n\nFor more information, try '--help'.\n",
            (ValueError::BadTake, _) =>
                "error: --take is text or journal\n\nFor more information, try '--help'.\n",
        }
    }
}

/// Why a command line gave no job. Its `Display` is the text for the user, which ends with a newline.
#[derive(Debug, Drop)]
pub enum LineError {
    /// Help or the version was asked for. The text goes to the standard output.
    Request(clap::Error),
    /// The words are at fault.
    Fault(clap::Error),
    /// A value wasn't read.
    Value(ValueError),
}

impl fmt::Display for LineError {
    fn fmt<W: fmt::Write>(&self, f: &mut fmt::Formatter<W>) -> fmt::Result {
        match self {
            LineError::Request(text) => write!(f, "{text}"),
            LineError::Fault(text) => write!(f, "{text}"),
            LineError::Value(error) => f.write_str(error.line(false)),
        }
    }
}

impl std::error::Error for LineError {}

impl From<clap::Error> for LineError {
    ghost from_gives = { IsPassedAs };

    fn from(fault: clap::Error) -> LineError {
        match fault.kind() {
            ErrorKind::OutOfMemory => LineError::Value(ValueError::OutOfMemory),
            ErrorKind::DisplayHelp | ErrorKind::DisplayVersion => LineError::Request(fault),
            _ => LineError::Fault(fault),
        }
    }
}

impl From<ValueError> for LineError {
    ghost from_gives = { λ error e. e ≡ Value error };

    fn from(error: ValueError) -> LineError {
        LineError::Value(error)
    }
}

impl From<AllocError> for LineError {
    ghost from_gives = { λ _ e. e ≡ Value OutOfMemory };

    fn from(_e: AllocError) -> LineError {
        LineError::Value(ValueError::OutOfMemory)
    }
}

impl From<AllocError> for ValueError {
    ghost from_gives = { λ _ e. e ≡ OutOfMemory };

    fn from(_e: AllocError) -> ValueError {
        ValueError::OutOfMemory
    }
}

impl<T: Drop> From<AllocFailed<T>> for ValueError {
    ghost from_gives = { λ _ e. e ≡ OutOfMemory };

    fn from(_e: AllocFailed<T>) -> ValueError {
        ValueError::OutOfMemory
    }
}

impl From<HexError> for ValueError {
    ghost from_gives = { λ error e. e ≡ refusal_of_hex error };

    fn from(error: HexError) -> ValueError {
        match error {
            HexError::BadHex => ValueError::BadHex,
            HexError::OutOfMemory => ValueError::OutOfMemory,
        }
    }
}
