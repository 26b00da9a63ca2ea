//! What is said below the line of a refusal, where that is asked for: which file it is about, and what to do.

ghost use Rattle.std.specs.Prelude.{◌≡◌, IfOk, MatchResult, OnErr, true, IsTrue, if◌then◌else◌};
ghost use Rattle.std.specs.String.{string_bytes};
ghost use Rattle.tp_report.specs.Notes.{IsNote, IsNoteOf, is_of_text as in_text, names_file as is_file_named, no_memory_note, path_at_fault as path_of_fault, fault_place as text_of_fault_place};
ghost use Rattle.tp_list.specs.Bytes.{line};

use crate::advice::{
    GONE, LEFT_OUT, NO_FILE_OF_OURS, NO_OUTPUT, NO_SAVED_FILE, NOT_RESCUED, NOT_WRITTEN,
    OTHER_HEADER, OTHER_SIDE, advice, of_cause, of_journal,
};
use crate::error::JobError;
use std::alloc::{AllocError, Global};
use tp_command_line::{Beside, Hosting, Subject};
use tp_commands::{CommandError, Lock};
use tp_disk::{Cause, Disk, begins_journal};
use tp_document::DocError;
use tp_net::Unreached;
use tp_peer::PeerError;
use tp_session::NetError;
use tp_simulate::shape_of;
use tp_store::StoreError;

// Whether a refusal is of a text file, and not of the journal that it is beside.
fn is_of_text(error: &JobError) -> bool
    ensures { result ≡ in_text error.now }
{
    matches!(
        error,
        JobError::Command(CommandError::NotText { .. })
            | JobError::Command(CommandError::NotQuiet)
            | JobError::Command(CommandError::BothHaveText)
            | JobError::Command(CommandError::BadState)
    )
}

// The path of the one of the two that a refusal is about.
fn path_of_text<'a>(source: &'a str, file: &'a str, error: &JobError) -> &'a str
    ensures { result.now ≡ if in_text error.now then source.entry.now else file.entry.now }
{
    if is_of_text(error) { source } else { file }
}

// The path of the file that a refusal is about.
fn path_at_fault<'a>(subject: &Subject<'a>, error: &JobError) -> &'a str
    ensures { result.now ≡ path_of_fault subject.now error.now }
{
    match (subject.beside, error) {
        (Beside::Read(other), JobError::Command(CommandError::Peer(PeerError::Store(_)))) => other,
        (
            Beside::Read(other),
            JobError::Command(CommandError::Peer(PeerError::Doc(DocError::OtherDocument))),
        ) => other,
        (Beside::Text(source), error) => path_of_text(source, subject.file, error),
        (Beside::Shared(source, _), error) => path_of_text(source, subject.file, error),
        (Beside::Shown(source, _), error) => path_of_text(source, subject.file, error),
        (Beside::Made(out), JobError::Command(CommandError::Peer(PeerError::JournalNotEmpty))) => {
            out
        }
        (
            Beside::Loaded(journal),
            JobError::Command(CommandError::Peer(PeerError::JournalNotEmpty)),
        ) => journal,
        (
            Beside::Rescued(Some(out), _),
            JobError::Command(CommandError::Peer(PeerError::JournalNotEmpty)),
        ) => out,
        _ => subject.file,
    }
}

// What is known of the place in the file.
fn fault_place(alloc: Global, error: &JobError) -> Result<String, AllocError>
    ensures { IfOk result (λ t. string_bytes t ≡ text_of_fault_place error.now) }
{
    match error {
        JobError::Command(CommandError::Store(StoreError::Damaged { at })) => {
            format!(in alloc; "damaged at byte {at}; ")
        }
        JobError::Command(CommandError::Peer(PeerError::Store(StoreError::Damaged { at }))) => {
            format!(in alloc; "damaged at byte {at}; ")
        }
        JobError::Command(CommandError::NotText { at }) => {
            format!(in alloc; "it isn't UTF-8 from byte {at} on, ")
        }
        JobError::Line(number) => format!(in alloc; "line {number} "),
        _ => Ok(String::new(alloc)),
    }
}

// Whether its error tells which file the refusal is about.
fn names_file(error: &JobError) -> bool
    ensures { result ≡ is_file_named error.now }
{
    match error {
        JobError::Command(CommandError::Io) => false,
        JobError::Command(CommandError::OutOfMemory) => false,
        JobError::Command(_) => true,
        JobError::Show(_) => true,
        JobError::Line(_) => true,
        JobError::HalfWay(CommandError::Io, _) => false,
        JobError::HalfWay(CommandError::OutOfMemory, _) => false,
        JobError::HalfWay(_, _) => true,
        _ => false,
    }
}

// What the line of a script with this number, from 1, is to be.
fn script_advice<D: Disk + AllocGlobal>(
    rt: &D,
    script: &str,
    number: u64,
) -> Result<String, AllocError> {
    let Ok(bytes) = rt.read(script) else {
        return String::from_str(rt.alloc(), "can't be read again");
    };
    let Ok(text) = str::from_utf8(bytes.as_slice()) else {
        return String::from_str(rt.alloc(), "or one after it is no UTF-8");
    };
    let line = text
        .split('\n')
        .nth(number.saturating_sub(1) as usize)
        .unwrap_or("");
    let word = line.split(' ').next().unwrap_or("");
    match shape_of(word) {
        Some(shape) => format!(in rt.alloc(); "is to be: {shape}"),
        None => format!(in rt.alloc(); "begins with no event, as start, edit, merge or read"),
    }
}

// A line of the path and what is said of it.
fn of_path(alloc: Global, path: &str, text: &str) -> Result<String, AllocError> {
    format!(in alloc; "{path}: {text}")
}

// What the system says of the files, where one of them can't be opened or something else failed outside.
fn system_advice<D: Disk + AllocGlobal>(
    rt: &D,
    subject: &Subject<'_>,
) -> Result<String, AllocError> {
    let alloc = rt.alloc();
    let file = subject.file;
    match subject.beside {
        Beside::Made(made) if made == file => made_advice(rt, made),
        Beside::Text(source) => text_advice(rt, file, source),
        Beside::Loaded(_) | Beside::NoJournal => match (rt.cause(file), subject.beside) {
            (Some(cause), _) => of_path(alloc, file, of_cause(cause)),
            (None, Beside::Loaded(made)) => made_advice(rt, made),
            (None, _) => of_path(alloc, file, NO_OUTPUT),
        },
        beside => match rt.cause(file) {
            Some(cause) => of_path(alloc, file, of_journal(cause)),
            None => beside_advice(rt, file, beside),
        },
    }
}

// Whether the folder of the file at the path is there.
fn has_folder<D: Disk>(rt: &D, path: &str) -> bool {
    match path.rsplit_once('/') {
        Some(("", _)) | None => true,
        Some((folder, _)) => rt.cause(folder) == Some(Cause::Folder),
    }
}

// What is said of an edit's text, and of the journal that takes it, which `import` may make. The text is read first.
fn text_advice<D: Disk + AllocGlobal>(
    rt: &D,
    file: &str,
    source: &str,
) -> Result<String, AllocError> {
    let alloc = rt.alloc();
    match (rt.cause(source), rt.write_cause(file)) {
        (Some(cause), _) if source != "-" => of_path(alloc, source, of_cause(cause)),
        (_, Some(Cause::NotThere)) if !has_folder(rt, file) => made_advice(rt, file),
        (_, Some(cause)) => of_path(alloc, file, of_journal(cause)),
        _ => of_path(alloc, file, NO_OUTPUT),
    }
}

// What is said where the journal can be read, of what is beside it or of writing.
fn beside_advice<D: Disk + AllocGlobal>(
    rt: &D,
    file: &str,
    beside: Beside<'_>,
) -> Result<String, AllocError> {
    match beside {
        Beside::Made(made) => made_advice(rt, made),
        Beside::Rescued(made, other) => rescued_advice(rt, file, made, other),
        Beside::Nothing => match rt.write_cause(file) {
            Some(_) => of_path(rt.alloc(), file, NOT_WRITTEN),
            None => of_path(rt.alloc(), file, NO_OUTPUT),
        },
        beside => match rt.write_cause(file) {
            Some(cause) => of_path(rt.alloc(), file, of_journal(cause)),
            None => other_advice(rt, file, beside),
        },
    }
}

// What is said where a damaged journal can be read, of another file that is read for it, or of the journal that is made.
fn rescued_advice<D: Disk + AllocGlobal>(
    rt: &D,
    file: &str,
    made: Option<&str>,
    other: Option<&str>,
) -> Result<String, AllocError> {
    let cause = match other {
        Some(other) => rt.cause(other),
        None => None,
    };
    match (cause, other, made) {
        (Some(cause), Some(other), _) => of_path(rt.alloc(), other, of_cause(cause)),
        (_, Some(_), Some(made)) => of_path(rt.alloc(), made, NOT_RESCUED),
        (_, _, Some(made)) => made_advice(rt, made),
        (_, _, None) => of_path(rt.alloc(), file, NO_OUTPUT),
    }
}

// What is said of a refusal, where a damaged journal is recovered and where not.
fn rescue_advice(beside: Beside<'_>, error: CommandError) -> &'static str {
    match (beside, error) {
        (Beside::Rescued(Some(_), _), CommandError::Store(StoreError::Refused(_))) => LEFT_OUT,
        (Beside::Rescued(_, _), CommandError::Doc(DocError::OtherDocument)) => OTHER_HEADER,
        (_, error) => advice(error),
    }
}

// What is said where the journal can be read and written.
fn other_advice<D: Disk + AllocGlobal>(
    rt: &D,
    file: &str,
    beside: Beside<'_>,
) -> Result<String, AllocError> {
    let alloc = rt.alloc();
    match beside {
        Beside::Read(other) => match rt.cause(other) {
            Some(cause) => of_path(alloc, other, of_journal(cause)),
            None => of_path(alloc, file, NO_OUTPUT),
        },
        Beside::Streams => String::from_str(alloc, OTHER_SIDE),
        Beside::Here(addr) => format!(in alloc; "{addr}: it can't be listened on any more"),
        Beside::There(addr) => format!(in alloc; "{addr}: the session was broken off"),
        Beside::Shared(source, addr) => match rt.cause(source) {
            Some(cause) => of_path(alloc, source, of_cause(cause)),
            None => format!(in alloc; "{addr}: the exchange there was broken off"),
        },
        Beside::Shown(source, hosting) => match rt.cause(source) {
            Some(cause) => of_path(alloc, source, of_cause(cause)),
            None => page_advice(alloc, &hosting, "it can't be listened on any more"),
        },
        Beside::Page(hosting) => page_advice(alloc, &hosting, "it can't be listened on any more"),
        _ => of_path(alloc, file, NO_OUTPUT),
    }
}

// What is said of a journal that another process has open.
fn busy_advice<D: Disk + AllocGlobal>(rt: &D, file: &str) -> Result<String, AllocError> {
    match rt.lock(file) {
        Lock::HeldBy(process) => {
            format!(in rt.alloc();
                "process {process} has it open; nothing was changed. Try again once it has ended"
            )
        }
        _ => String::from_str(rt.alloc(), advice(CommandError::Busy)),
    }
}

// What is said of a file that can't be made.
fn made_advice<D: Disk + AllocGlobal>(rt: &D, made: &str) -> Result<String, AllocError> {
    let text = match rt.write_cause(made) {
        Some(Cause::Folder) => of_cause(Cause::Folder),
        Some(Cause::NoFolder) => of_cause(Cause::NoFolder),
        Some(Cause::TooLong) => of_cause(Cause::TooLong),
        Some(Cause::NotWritten) => "it may not be written",
        _ => "it can't be made: its folder isn't there or may not be written, or the disk is full",
    };
    of_path(rt.alloc(), made, text)
}

// What is said of a journal that failed while it was open.
fn failed_advice<D: Disk + AllocGlobal>(rt: &D, file: &str) -> &'static str {
    match rt.cause(file) {
        Some(Cause::NotThere) => GONE,
        _ => advice(CommandError::Peer(PeerError::JournalFailed)),
    }
}

// What is said of a file that doesn't begin as it is to.
fn magic_advice<D: Disk + AllocGlobal>(rt: &D, subject: &Subject<'_>) -> &'static str {
    match (subject.beside, begins_journal(rt, subject.file)) {
        (Beside::Loaded(_), Ok(true)) => NO_SAVED_FILE,
        (Beside::Loaded(_), _) => NO_FILE_OF_OURS,
        _ => advice(CommandError::Store(StoreError::BadMagic)),
    }
}

// The sentence on a refusal.
fn sentence<D: Disk + AllocGlobal>(
    rt: &D,
    subject: &Subject<'_>,
    error: &JobError,
) -> Result<String, AllocError> {
    let text = match error {
        JobError::Command(CommandError::Io) => return system_advice(rt, subject),
        JobError::Command(CommandError::Busy) => return busy_advice(rt, subject.file),
        JobError::Command(CommandError::Store(StoreError::BadMagic)) => magic_advice(rt, subject),
        JobError::Command(CommandError::Peer(PeerError::JournalFailed))
        | JobError::HalfWay(CommandError::Peer(PeerError::JournalFailed), _) => {
            failed_advice(rt, subject.file)
        }
        JobError::Command(error) => rescue_advice(subject.beside, *error),
        JobError::HalfWay(error, _) => advice(*error),
        JobError::Line(number) => return script_advice(rt, subject.file, *number),
        JobError::Show(_) => "each change has to be whole, and to follow the one before it",
        JobError::Session(error) => session_advice(*error),
        JobError::Unreached(cause) => return unreached_advice(rt.alloc(), subject, *cause),
        JobError::Closed => "whoever read the standard output has closed it",
        JobError::Unsaid(_) => "the standard output can't be written; what was made stays",
    };
    String::from_str(rt.alloc(), text)
}

// What is said of a session that was broken off.
fn session_advice(error: NetError) -> &'static str {
    match error {
        NetError::Frame => "the other side sent what is no frame: is it a server of textpeer?",
        NetError::OtherDocument => "the other side has another document",
        NetError::Version => "the other side speaks another version of the protocol",
        NetError::Unexpected => "the other side sent a frame out of turn",
        NetError::RefusedByOther { .. } =>
            "the other side refused the session, as where its journal is of another text",
        _ => "the session was broken off",
    }
}

// What is said of the address of a page, or of the one beside it, that can't be listened on.
fn page_advice(alloc: Global, hosting: &Hosting<'_>, text: &str) -> Result<String, AllocError> {
    let page = hosting.page;
    match hosting.serve {
        Some(serve) => format!(in alloc; "{page} or {serve}: {text}"),
        None => format!(in alloc; "{page}: {text}"),
    }
}

// What is said of an address that can't be connected to, or listened on.
fn unreached_advice(
    alloc: Global,
    subject: &Subject<'_>,
    cause: Unreached,
) -> Result<String, AllocError> {
    let text = match cause {
        Unreached::Refused => "nothing listens there; textpeer serve FILE ADDR starts a server",
        Unreached::TimedOut => "there was no answer in time",
        Unreached::InUse => "another program listens there",
        Unreached::NotHere => "it is no address of this machine",
        Unreached::NotAllowed => "this user may not listen or connect there",
        Unreached::NoSuchName => "the name has no address",
        Unreached::Other => "there is no way there",
    };
    match subject.beside {
        Beside::Here(addr) | Beside::There(addr) | Beside::Shared(_, addr) => {
            format!(in alloc; "{addr}: {text}")
        }
        Beside::Page(hosting) | Beside::Shown(_, hosting) => page_advice(alloc, &hosting, text),
        _ => String::from_str(alloc, text),
    }
}

// The line of what is said of a refusal.
fn note_line<D: Disk + AllocGlobal>(
    rt: &D,
    subject: &Subject<'_>,
    error: &JobError,
) -> Result<String, AllocError>
    ensures { IfOk result (λ n. IsNoteOf (is_file_named error.now) subject.now error.now
        (string_bytes n)) }
{
    let sentence = sentence(rt, subject, error)?;
    if names_file(error) {
        let path = path_at_fault(subject, error);
        let place = fault_place(rt.alloc(), error)?;
        Ok(format!(in rt.alloc(); "  {path}: {place}{sentence}\n")?)
    } else {
        Ok(format!(in rt.alloc(); "  {sentence}\n")?)
    }
}

/// What is said below the line of a refusal of what the job is about: a line of two blanks, the file, the offset of what is
/// damaged in it, or the line of a script, and a sentence. Where a file could not be opened the system is asked anew why.
/// Empty where it isn't to be explained.
pub fn note<D: Disk + AllocGlobal>(
    rt: &D,
    explains: bool,
    subject: &Subject<'_>,
    error: &JobError,
) -> Result<String, AllocError>
    ensures said { IfOk result (λ n. IsNote explains subject.now error.now (string_bytes n)) }
    ensures quiet { OnErr result (IsTrue explains) }
{
    if explains {
        note_line(rt, subject, error)
    } else {
        Ok(String::new(rt.alloc()))
    }
}

/// The note, or the line that says that memory was refused for it.
pub fn note_text(note: &Result<String, AllocError>) -> &str
    ensures { MatchResult note.now (λ n. result.now ≡ string_bytes n)
        (λ _. result.now ≡ no_memory_note) }
{
    match note {
        Ok(note) => note.as_str(),
        Err(_) => "  there is no memory to explain this\n",
    }
}
