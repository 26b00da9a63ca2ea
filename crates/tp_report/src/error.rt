//! Why the program refused what was asked of it, and the line that it prints of it.

ghost use Rattle.std.specs.Prelude.{◌≡◌, Some};
ghost use Rattle.tp_report.specs.declared.error.JobError.TheVariants.{Command};
ghost use Rattle.tp_report.specs.Names.{name_of_command, name_of_session, refusal_text};
ghost use Rattle.tp_report.specs.JobError.{code_of, no_memory, refusal_of_log, refusal_of_script, refusal_of_session, refusal_of_update};

use std::alloc::AllocError;
use std::fmt;
use tp_commands::{CommandError, UpdateError};
use tp_net::Unreached;
use tp_opid::{DocId, Hash};
use tp_session::NetError;
use tp_simulate::{SimError, bytes_name, document_name, peer_name};
use tp_textpeer::{Refusal, ShowError, ShowFault};

/// What a job made.
#[derive(Debug, Drop)]
pub enum Made {
    /// A document.
    Document(DocId),
    /// A change.
    Change(Hash),
    /// Changes, in order.
    Changes(Vec<Hash>),
}

/// Why a job was refused. Its `Display` is the line that the program prints of it, without the newline: `textpeer: ` and the
/// innermost refusal's name, or of a log what [`Refusal`] prints, or of a script the number of its line.
#[derive(Debug, Drop)]
pub enum JobError {
    /// A file, the output or memory failed, or what is done to bytes and journals was refused.
    Command(CommandError),
    /// A log was refused. It is never `Io` or `OutOfMemory`.
    Show(Refusal),
    /// The line of a script with this number, from 1, has another shape than docs/FORMATS.md says, or names a mark that
    /// isn't set.
    Line(u64),
    /// A session with another was broken off. It is never `Io`, `OutOfMemory` or `Peer`.
    Session(NetError),
    /// The address can't be connected to, or listened on. It is printed as `Io`.
    Unreached(Unreached),
    /// Whoever read the output has closed it.
    Closed,
    /// The output failed or is closed, and what was to be printed there was made before: it stays made.
    Unsaid(Made),
    /// A text was to become another one by several changes, and some were made before one was refused. Up to the character with
    /// this number, from 0, the text is the new one at least; after that it is the old one.
    HalfWay(CommandError, usize),
}

impl JobError {
    /// The number of the refusal, after those of values: 2 `Io`, also where the output is closed, 3 `OutOfMemory`, then
    /// what a peer, a document or the bytes of a file were refused for, `Busy`, a log, a script, a session, `NotText`,
    /// `NotEmpty`, and 14 to 16 `NotQuiet`, `BothHaveText` and `BadState`, since 13 is a fault of the words.
    pub fn code(&self) -> u8
        ensures { result ≡ code_of self.now }
    {
        match self {
            JobError::Command(error) => 1 + error.code(),
            JobError::Show(_) => 8,
            JobError::Line(_) => 9,
            JobError::Session(_) => 10,
            JobError::Unreached(_) => 2,
            JobError::Closed => 2,
            JobError::Unsaid(_) => 2,
            JobError::HalfWay(error, _) => 1 + error.code(),
        }
    }
}

impl From<AllocError> for JobError {
    ghost from_gives = { λ _ e. e ≡ no_memory };

    fn from(_e: AllocError) -> JobError {
        JobError::Command(CommandError::OutOfMemory)
    }
}

impl From<CommandError> for JobError {
    ghost from_gives = { λ error e. e ≡ Command error };

    fn from(error: CommandError) -> JobError {
        JobError::Command(error)
    }
}

impl From<UpdateError> for JobError {
    ghost from_gives = { λ error e. e ≡ refusal_of_update error };

    fn from(error: UpdateError) -> JobError {
        match error.place {
            Some(place) => JobError::HalfWay(error.error, place),
            None => JobError::Command(error.error),
        }
    }
}

impl From<ShowError> for JobError {
    ghost from_gives = { λ error e. e ≡ refusal_of_log error };

    fn from(error: ShowError) -> JobError {
        match error.fault {
            ShowFault::Io => JobError::Command(CommandError::Io),
            ShowFault::OutOfMemory => JobError::Command(CommandError::OutOfMemory),
            _ => JobError::Show(Refusal(error)),
        }
    }
}

impl From<SimError> for JobError {
    ghost from_gives = { λ error e. e ≡ refusal_of_script error };

    fn from(error: SimError) -> JobError {
        match error {
            SimError::Line(number) => JobError::Line(number),
            SimError::Io => JobError::Command(CommandError::Io),
            SimError::OutOfMemory => JobError::Command(CommandError::OutOfMemory),
        }
    }
}

impl From<NetError> for JobError {
    ghost from_gives = { λ error e. e ≡ refusal_of_session error };

    fn from(error: NetError) -> JobError {
        match error {
            NetError::Io => JobError::Command(CommandError::Io),
            NetError::OutOfMemory => JobError::Command(CommandError::OutOfMemory),
            NetError::Peer(error) => JobError::Command(CommandError::from(error)),
            error => JobError::Session(error),
        }
    }
}

// The name of the innermost refusal of what was done to bytes and journals.
fn command_name(error: CommandError) -> &'static str
    ensures { result.now ≡ name_of_command error }
{
    match error {
        CommandError::Io => "Io",
        CommandError::OutOfMemory => "OutOfMemory",
        CommandError::Peer(error) => peer_name(error),
        CommandError::Doc(error) => document_name(error),
        CommandError::Store(error) => bytes_name(error),
        CommandError::Busy => "Busy",
        CommandError::NotText { .. } => "NotText",
        CommandError::NotEmpty => "NotEmpty",
        CommandError::NotQuiet => "NotQuiet",
        CommandError::BothHaveText => "BothHaveText",
        CommandError::BadState => "BadState",
    }
}

/// The name of the innermost cause for which a session was broken off.
pub(crate) fn session_name(error: NetError) -> &'static str
    ensures { result.now ≡ name_of_session error }
{
    match error {
        NetError::Io => "Io",
        NetError::Frame => "Frame",
        NetError::OtherDocument => "OtherDocument",
        NetError::Version => "Version",
        NetError::Unexpected => "Unexpected",
        NetError::RefusedByOther { .. } => "RefusedByOther",
        NetError::Peer(error) => peer_name(error),
        NetError::OutOfMemory => "OutOfMemory",
    }
}

impl fmt::Display for JobError {
    ghost output = { λ e. Some (refusal_text e) };

    fn fmt<W: fmt::Write>(&self, f: &mut fmt::Formatter<W>) -> fmt::Result {
        let name = match self {
            JobError::Command(error) => command_name(*error),
            JobError::HalfWay(error, _) => command_name(*error),
            JobError::Unreached(_) => "Io",
            JobError::Closed => "Io",
            JobError::Unsaid(_) => "Io",
            JobError::Session(error) => session_name(*error),
            JobError::Show(refusal) => return write!(f, "{refusal}"),
            JobError::Line(number) => return write!(f, "textpeer: line {number}"),
        };
        write!(f, "textpeer: {name}")
    }
}

impl std::error::Error for JobError {}
