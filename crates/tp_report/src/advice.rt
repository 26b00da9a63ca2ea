//! What is printed for a person below a refusal: what it means for a file, what was kept, and what to do.

use tp_commands::CommandError;
use tp_disk::Cause;
use tp_document::DocError;
use tp_peer::PeerError;
use tp_store::StoreError;
use tp_sync::SyncError;

// Wherever memory was refused.
const NO_MEMORY: &str = "memory ran out; what was on the disk before is there";

/// What is said of a journal that was moved or removed under whoever had it open.
pub(crate) const GONE: &str =
    "it was moved or removed while it was open. Put it back, or begin with a copy of another journal of the document";

/// What is said of a journal that can be read and written, where something else failed.
pub(crate) const NO_OUTPUT: &str =
    "it can be read; what failed is writing it, or the standard output";

/// What is said of a journal that can be read alone.
pub(crate) const NOT_WRITTEN: &str =
    "it can be read, but may not be written; or the standard output failed";

/// What is said of a session over the standard input and output.
pub(crate) const OTHER_SIDE: &str =
    "the other side ended before the session did, or what leads to it failed";

/// What is said of a saved file that is a journal.
pub(crate) const NO_SAVED_FILE: &str =
    "it is a journal, and no saved file: each command takes it as it is, and cp copies it";

/// What is said of a saved file that is something else.
pub(crate) const NO_FILE_OF_OURS: &str =
    "it doesn't begin as a saved file does: textpeer save writes one";

/// What is said of a damaged journal of which not all whole changes are in the one that was made.
pub(crate) const LEFT_OUT: &str =
    "not all of its whole changes are in the journal that was made; each line `left` says why. --with takes what was cut off, or another copy; --texts prints what they inserted";

/// What is said where files to recover have identifiers that differ.
pub(crate) const OTHER_HEADER: &str =
    "a file of --with is of another document, as its header says; nothing was made. If it is of this one all the same, give what follows its first 8 bytes";

/// What is said where a journal isn't made, and other files are read for it.
pub(crate) const NOT_RESCUED: &str =
    "it can't be made: its folder isn't there or may not be written, or the disk is full; or another file of --with can't be read";

/// Why a file can't be used, as it goes on after its path and a colon.
pub(crate) fn of_cause(cause: Cause) -> &'static str {
    match cause {
        Cause::NotThere => "there is no such file",
        Cause::Folder => "it is a folder, not a file",
        Cause::NoFile => "it is a pipe or the like, not a regular file",
        Cause::NoFolder => "a part of its path isn't a folder",
        Cause::TooLong => "a name in its path is too long",
        Cause::Closed => "its folder may not be entered",
        Cause::NotRead => "it may not be opened",
        Cause::NotWritten => "it can be read, but it may not be written",
        Cause::Unknown => "the system doesn't find it",
    }
}

/// Why a journal can't be used, likewise.
pub(crate) fn of_journal(cause: Cause) -> &'static str {
    match cause {
        Cause::NotThere =>
            "there is no such file. A journal is a copy of another one, or begins by textpeer import or new",
        cause => of_cause(cause),
    }
}

/// A sentence on the refusal, as it goes on after the path of the file that it is about and a colon.
pub(crate) fn advice(error: CommandError) -> &'static str {
    match error {
        CommandError::Io => "it can't be read or written",
        CommandError::OutOfMemory => NO_MEMORY,
        CommandError::Peer(error) => of_peer(error),
        CommandError::Doc(error) => of_document(error),
        CommandError::Store(error) => of_bytes(error),
        CommandError::Busy =>
            "another process has it open; nothing was changed. Try again once it has ended",
        CommandError::NotText { .. } => "and only text is brought in; nothing was changed",
        CommandError::NotEmpty => {
            "it has a text already; textpeer update changes that to the text of a file"
        }
        CommandError::NotQuiet => "it is being written; nothing was lost. Try again",
        CommandError::BothHaveText => {
            "it has another text than the journal: --take text keeps that of the file, and --take journal that of the journal; the other one is kept too"
        }
        CommandError::BadState => {
            "what a mirror remembers of it isn't whole, or is of another journal: remove the file whose name ends with .mirror, and begin anew with --take"
        }
    }
}

fn of_peer(error: PeerError) -> &'static str {
    match error {
        PeerError::ActorInUse => {
            "it has changes under the actor that the key gives: give another --key, or none"
        }
        PeerError::JournalFailed => {
            "it can't be written or brought to the disk, as where that is full, or it isn't what was opened any more, but cut or replaced. Of what was under way nothing, a part or all is in it. Make room, or put it back, and begin again"
        }
        PeerError::Stopped => "its journal failed before, and it takes nothing more",
        PeerError::TooManyLinks => "it has 1,024 links already",
        PeerError::JournalNotEmpty => "a file of that name exists, and is left as it is",
        PeerError::Doc(error) => of_document(error),
        PeerError::Sync(error) => of_message(error),
        PeerError::Store(error) => of_bytes(error),
        PeerError::OutOfMemory => NO_MEMORY,
    }
}

fn of_document(error: DocError) -> &'static str {
    match error {
        DocError::OutOfRange => "its text has fewer characters than that; nothing was changed",
        DocError::CounterLimit => "its counters are used up: no character can be added",
        DocError::TooManyOps => {
            "at most 65,536 characters an edit, inserted and deleted ones together; nothing was changed"
        }
        DocError::TooManyHeads => "it has more than 65,535 heads: a change can't name them all",
        DocError::UnknownHead => "it has no change with that hash: textpeer log lists them",
        DocError::UnknownElement => "that character isn't in it",
        DocError::PendingFull => "more than 1,024 changes would wait for others",
        DocError::HashTaken => "another change in it has that hash",
        DocError::OutOfMemory => NO_MEMORY,
        DocError::OtherDocument => "it is of another document, and only copies of one are merged",
        DocError::TooLong => "a message has at most 65,535 bytes, and a change 4,194,304",
        DocError::Full => "it has 4,294,967,295 changes, and takes no more",
        DocError::NotKept => "the change could not be kept; nothing was changed",
    }
}

fn of_message(error: SyncError) -> &'static str {
    match error {
        SyncError::BadMessage => "what the other side sent is no message",
        SyncError::BadChange => "a change that the other side sent is damaged",
        SyncError::TooManyHeads => "it has more heads than a message can name",
        SyncError::PendingFull => "more than 1,024 changes would wait for others",
        SyncError::OutOfMemory => NO_MEMORY,
        SyncError::OtherDocument => "the other side has another document",
        SyncError::NotKept => "a change could not be kept",
    }
}

fn of_bytes(error: StoreError) -> &'static str {
    match error {
        StoreError::BadMagic => {
            "it isn't a journal: textpeer import makes one of a text file, textpeer load of a saved file"
        }
        StoreError::Truncated => "a saved file that was cut short: its end is missing",
        StoreError::BadDigest => "a saved file that was changed: it hasn't the digest at its end",
        StoreError::Damaged { .. } => "textpeer recover makes a journal of all that can be had",
        StoreError::Refused(_) => {
            "a change in it doesn't fit the ones before: textpeer check says where"
        }
        StoreError::Io => "it can't be read or written",
        StoreError::OutOfMemory => NO_MEMORY,
        StoreError::NoHeader => "it is empty, or ends within its header: textpeer new makes one",
    }
}
