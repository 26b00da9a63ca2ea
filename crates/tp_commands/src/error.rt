//! Why a command was refused.

ghost use Rattle.std.specs.Prelude.{◌≡◌};
ghost use Rattle.tp_commands.specs.declared.error.CommandError.TheVariants.{OutOfMemory};
ghost use Rattle.tp_commands.specs.CommandError.{code_of, IsOfSystem, at_once, command_refusal_of_bytes, command_refusal_of_document, command_refusal_of_journal, refusal_of_edit_at, refusal_of_opening, refusal_of_peer};

use std::alloc::{AllocError, AllocFailed};
use std::io;
use std::io::ErrorKind;
use tp_document::DocError;
use tp_graph::GraphError;
use tp_journal::{JournalError, OpenError};
use tp_peer::{EditAtError, PeerError};
use tp_store::StoreError;

/// Why what was asked of bytes or of a journal was refused.
#[derive(Clone, Copy, Debug, PartialEq, Eq)]
pub enum CommandError {
    /// A file could not be opened, read or written, or the output could not be written.
    Io,
    /// A growth was refused.
    OutOfMemory,
    /// A peer refused it. It is never `OutOfMemory`.
    Peer(PeerError),
    /// A document refused it. It is never `OutOfMemory`.
    Doc(DocError),
    /// The bytes of a saved file or a journal were refused. It is never `Io` or `OutOfMemory`.
    Store(StoreError),
    /// Another has the journal open.
    Busy,
    /// A file that is to be a text isn't UTF-8.
    NotText {
        /// How many of its bytes are UTF-8, before the first that aren't.
        at: u64,
    },
    /// A text was to be brought into a document whose text isn't empty.
    NotEmpty,
    /// A text file that is mirrored is being written, or was a moment ago.
    NotQuiet,
    /// At the first use of a mirror both sides have a text, and these differ.
    BothHaveText,
    /// The state file of a mirror isn't whole, or is another document's.
    BadState,
}

/// Why a text wasn't made another one, and how far that came.
#[derive(Clone, Copy, Debug, PartialEq, Eq)]
pub struct UpdateError {
    /// Why it stopped.
    pub error: CommandError,
    /// Of how many characters, from its beginning, the text is the new one at least; the rest is the old one's. `None` where it
    /// stopped at the first change.
    pub place: Option<usize>,
}

impl CommandError {
    /// The number of the refusal: from 1 in the order of the variants up to `Busy`, then 10 to 11 and 13 to 15, since those between
    /// are of what else the program does.
    pub fn code(&self) -> u8
        ensures { result ≡ code_of self.now }
    {
        match self {
            CommandError::Io => 1,
            CommandError::OutOfMemory => 2,
            CommandError::Peer(_) => 3,
            CommandError::Doc(_) => 4,
            CommandError::Store(_) => 5,
            CommandError::Busy => 6,
            CommandError::NotText { .. } => 10,
            CommandError::NotEmpty => 11,
            CommandError::NotQuiet => 13,
            CommandError::BothHaveText => 14,
            CommandError::BadState => 15,
        }
    }
}

impl From<AllocError> for CommandError {
    ghost from_gives = { λ _ e. e ≡ OutOfMemory };

    fn from(_e: AllocError) -> CommandError {
        CommandError::OutOfMemory
    }
}

impl<T: Drop> From<AllocFailed<T>> for CommandError {
    ghost from_gives = { λ _ e. e ≡ OutOfMemory };

    fn from(_e: AllocFailed<T>) -> CommandError {
        CommandError::OutOfMemory
    }
}

impl From<io::Error> for CommandError {
    ghost from_gives = { λ _ e. IsOfSystem e };

    fn from(error: io::Error) -> CommandError {
        match error.kind() {
            ErrorKind::OutOfMemory => CommandError::OutOfMemory,
            _ => CommandError::Io,
        }
    }
}

impl From<PeerError> for CommandError {
    ghost from_gives = { λ error e. e ≡ refusal_of_peer error };

    fn from(error: PeerError) -> CommandError {
        match error {
            PeerError::OutOfMemory => CommandError::OutOfMemory,
            error => CommandError::Peer(error),
        }
    }
}

impl From<EditAtError> for CommandError {
    ghost from_gives = { λ error e. e ≡ refusal_of_edit_at error };

    fn from(error: EditAtError) -> CommandError {
        match error {
            EditAtError::Unfit(GraphError::Full) => CommandError::Doc(DocError::Full),
            EditAtError::Unfit(GraphError::Known) => CommandError::Doc(DocError::HashTaken),
            EditAtError::Unfit(GraphError::OutOfMemory) => CommandError::OutOfMemory,
            EditAtError::Unfit(_) => CommandError::Peer(PeerError::ActorInUse),
            EditAtError::Peer(error) => CommandError::from(error),
        }
    }
}

impl From<DocError> for CommandError {
    ghost from_gives = { λ error e. e ≡ command_refusal_of_document error };

    fn from(error: DocError) -> CommandError {
        match error {
            DocError::OutOfMemory => CommandError::OutOfMemory,
            error => CommandError::Doc(error),
        }
    }
}

impl From<OpenError> for CommandError {
    ghost from_gives = { λ error e. e ≡ refusal_of_opening error };

    fn from(error: OpenError) -> CommandError {
        match error {
            OpenError::Busy => CommandError::Busy,
            OpenError::Io => CommandError::Io,
            OpenError::OutOfMemory => CommandError::OutOfMemory,
        }
    }
}

impl From<JournalError> for CommandError {
    ghost from_gives = { λ error e. e ≡ command_refusal_of_journal error };

    fn from(error: JournalError) -> CommandError {
        match error {
            JournalError::Io => CommandError::Io,
            JournalError::OutOfMemory => CommandError::OutOfMemory,
        }
    }
}

impl From<StoreError> for CommandError {
    ghost from_gives = { λ error e. e ≡ command_refusal_of_bytes error };

    fn from(error: StoreError) -> CommandError {
        match error {
            StoreError::Io => CommandError::Io,
            StoreError::OutOfMemory => CommandError::OutOfMemory,
            error => CommandError::Store(error),
        }
    }
}

impl From<CommandError> for UpdateError {
    ghost from_gives = { λ error e. e ≡ at_once error };

    fn from(error: CommandError) -> UpdateError {
        UpdateError { error, place: None }
    }
}

impl From<AllocError> for UpdateError {
    ghost from_gives = { λ _ e. e ≡ at_once OutOfMemory };

    fn from(_e: AllocError) -> UpdateError {
        UpdateError::from(CommandError::OutOfMemory)
    }
}

impl From<DocError> for UpdateError {
    ghost from_gives = { λ error e. e ≡ at_once (command_refusal_of_document error) };

    fn from(error: DocError) -> UpdateError {
        UpdateError::from(CommandError::from(error))
    }
}
