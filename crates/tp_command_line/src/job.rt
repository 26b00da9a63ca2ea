//! What a command line can ask for, and which job is asked for by a subcommand.

ghost use Rattle.std.specs.Prelude.{◌≡◌, IfErr, IfOk, codes};
ghost use Rattle.clap.specs.Words.{found_of, rows_of};
ghost use Rattle.tp_command_line.specs.declared.job.Job.TheVariants.{Files};
ghost use Rattle.tp_command_line.specs.Commands.{IsJobOf, served_beside, shown_beside, subject_of};
ghost use Rattle.tp_command_line.specs.LineError.{RefusesValue};
ghost use Rattle.tp_command_line.specs.Uses.{IsUse};

use crate::address::Address;
use crate::error::ValueError;
use crate::values::{
    address_if_given, address_of, flag_of, given_text, hashes_of, inserted_of, key_of, number_in,
    number_of, output_of, page_of, take_of, text_of, texts_given,
};
use clap::ArgMatches;
use std::alloc::Global;
use std::net::SocketAddr;
use tp_mirror::Take;
use tp_opid::Hash;

/// The text that an edit inserts.
#[derive(Drop)]
pub enum Inserted<'a> {
    /// The text itself.
    Given(&'a str),
    /// The path of a file of it; `-` is the standard input.
    InFile(&'a str),
}

/// What is to be done to files. Paths and texts are borrowed from the words of the command line; a key is that of the
/// generator of random numbers, where one is given.
#[derive(Drop)]
pub enum FileJob<'a> {
    /// Begins a journal.
    New {
        /// The path of the journal.
        file: &'a str,
        /// The key.
        key: Option<[u8; 32]>,
    },
    /// Makes one change: deletes and inserts at one position.
    Edit {
        /// The path of the journal.
        file: &'a str,
        /// The position, in characters of the visible text.
        at: u64,
        /// How many characters are deleted from the position on.
        del: u64,
        /// The text that is inserted there.
        text: Inserted<'a>,
        /// The time of the change; 0 where none is given.
        time: u64,
        /// The message of the change; empty where none is given.
        message: &'a str,
        /// The key.
        key: Option<[u8; 32]>,
    },
    /// Makes the text that of a file.
    Update {
        /// The path of the journal.
        file: &'a str,
        /// The path of the file; `-` is the standard input.
        source: &'a str,
        /// The heads of the text that the file was taken from; where there are none it is the text now.
        since: Vec<Hash>,
        /// The time of the changes; 0 where none is given.
        time: u64,
        /// The message of the changes; empty where none is given.
        message: &'a str,
        /// The key.
        key: Option<[u8; 32]>,
    },
    /// Brings the text of a file into a document without text, which is begun where there is none.
    Import {
        /// The path of the journal.
        file: &'a str,
        /// The path of the file; `-` is the standard input.
        source: &'a str,
        /// The time of the changes; 0 where none is given.
        time: u64,
        /// The message of the changes; empty where none is given.
        message: &'a str,
        /// The key.
        key: Option<[u8; 32]>,
    },
    /// Brings a journal and a text file that any editor writes in step.
    Mirror {
        /// The path of the journal.
        file: &'a str,
        /// The path of the text file.
        note: &'a str,
        /// Which text counts at the first use, where the two have different ones; if that is said.
        take: Option<Take>,
        /// The key.
        key: Option<[u8; 32]>,
    },
    /// Prints the text.
    Text {
        /// The path of the journal.
        file: &'a str,
        /// Whether no newline is printed after it.
        is_raw: bool,
        /// The heads at which the text is read; as it is now where there are none.
        heads: Vec<Hash>,
    },
    /// Prints the heads.
    Heads {
        /// The path of the journal.
        file: &'a str,
    },
    /// Prints a line for each change.
    Log {
        /// The path of the journal.
        file: &'a str,
        /// Whether it is printed for people, the newest change first.
        pretty: bool,
        /// How many of the newest changes at most; 2^64 - 1 where none is given.
        most: u64,
    },
    /// Prints the changes as a graph, in the language DOT.
    Graph {
        /// The path of the journal.
        file: &'a str,
    },
    /// Prints which lines of an earlier text become which of a later one.
    Diff {
        /// The path of the journal.
        file: &'a str,
        /// The heads of the earlier text; where there are none it is the empty text of the beginning.
        from: Vec<Hash>,
        /// The heads of the later text; as it is now where there are none.
        to: Vec<Hash>,
        /// How many lines are printed before and after those that differ, where that is given.
        context: Option<u64>,
        /// Whether what goes and what comes is marked within the lines.
        is_worded: bool,
    },
    /// Prints what a journal has, and who has it open.
    Status {
        /// The path of the journal.
        file: &'a str,
    },
    /// Prints where a character of an earlier text is now.
    Cursor {
        /// The path of the journal.
        file: &'a str,
        /// The position of the character in the text at the heads.
        at: u64,
        /// The heads of the earlier text.
        heads: Vec<Hash>,
    },
    /// Says what is in a journal, whatever is damaged in it.
    Check {
        /// The path of the journal.
        file: &'a str,
    },
    /// Merges the changes of another journal.
    Merge {
        /// The path of the journal that receives them.
        file: &'a str,
        /// The path of the journal that has them.
        other: &'a str,
        /// The key.
        key: Option<[u8; 32]>,
    },
    /// Writes a saved file.
    Save {
        /// The path of the journal.
        file: &'a str,
        /// The path of the saved file.
        out: &'a str,
    },
    /// Makes a journal of a saved file.
    Load {
        /// The path of the saved file.
        saved: &'a str,
        /// The path of the journal.
        file: &'a str,
    },
    /// Makes a journal of all that can be had of a damaged one, or prints what its whole records inserted.
    Recover {
        /// The path of the damaged journal.
        file: &'a str,
        /// The path of the journal that is made; where there is none texts are printed.
        out: Option<&'a str>,
        /// The paths of other files in which whole records are looked for.
        others: Vec<&'a str>,
    },
    /// Prints the text that a log of changes makes.
    Show {
        /// The path of the log.
        log: &'a str,
    },
    /// Runs a script of peers that edit and exchange, and prints what each line does.
    Simulate {
        /// The path of the script.
        script: &'a str,
    },
}

/// What the program is to do.
#[derive(Drop)]
pub enum Job<'a> {
    /// What needs no network.
    Files(FileJob<'a>),
    /// Serves a journal to others over a network.
    Serve {
        /// The path of the journal.
        file: &'a str,
        /// The address that is listened on.
        addr: Address<'a>,
        /// How many sessions are held; 2^64 - 1, which is for ever, where none is given.
        sessions: u64,
        /// How many sessions are held at once: 1 to 64, and 2 where none is given.
        workers: u64,
        /// How many seconds a client may say nothing; 0, which is for ever, to 86,400, and 30 where none is given.
        patience: u64,
        /// Whether a line is printed of each session as it ends.
        is_verbose: bool,
        /// The path of the text file that is kept in step with the journal meanwhile, if one is.
        note: Option<&'a str>,
        /// Which text counts at the first use, where the two have different ones; if that is said.
        take: Option<Take>,
        /// The key.
        key: Option<[u8; 32]>,
    },
    /// Holds one session over the standard input and output.
    Session {
        /// The path of the journal.
        file: &'a str,
        /// Whether it is the client's side of the session, and not the server's.
        is_client: bool,
        /// The key.
        key: Option<[u8; 32]>,
    },
    /// Exchanges changes with a server, once.
    Sync {
        /// The path of the journal.
        file: &'a str,
        /// The address of the server.
        addr: Address<'a>,
        /// How many seconds the server may say nothing; 0, which is for ever, to 86,400, and 30 where none is given.
        patience: u64,
        /// The key.
        key: Option<[u8; 32]>,
    },
    /// Exchanges changes with a server, again and again.
    Follow {
        /// The path of the journal.
        file: &'a str,
        /// The address of the server.
        addr: Address<'a>,
        /// How many seconds pass between a session and the next: 1 to 86,400.
        every: u64,
        /// How many sessions are held; 2^64 - 1, which is for ever, where none is given.
        sessions: u64,
        /// How many seconds the server may say nothing; 0, which is for ever, to 86,400, and 30 where none is given.
        patience: u64,
        /// The key.
        key: Option<[u8; 32]>,
    },
    /// Keeps a journal and a text file that any editor writes in step.
    Keep {
        /// The path of the journal.
        file: &'a str,
        /// The path of the text file.
        note: &'a str,
        /// Which text counts at the first use, where the two have different ones; if that is said.
        take: Option<Take>,
        /// How many seconds pass before it looks again: 1 to 86,400.
        every: u64,
        /// The key.
        key: Option<[u8; 32]>,
    },
    /// Keeps a journal and a text file that any editor writes in step, and exchanges changes with a server after each turn.
    Share {
        /// The path of the journal.
        file: &'a str,
        /// The path of the text file.
        note: &'a str,
        /// Which text counts at the first use, where the two have different ones; if that is said.
        take: Option<Take>,
        /// The address of the server.
        addr: Address<'a>,
        /// How many seconds pass between a turn and the next: 1 to 86,400.
        every: u64,
        /// How many sessions are held; 2^64 - 1, which is for ever, where none is given.
        sessions: u64,
        /// How many seconds the server may say nothing; 0, which is for ever, to 86,400, and 30 where none is given.
        patience: u64,
        /// The key.
        key: Option<[u8; 32]>,
    },
    /// Shows a journal as a page of this machine.
    Web {
        /// The path of the journal.
        file: &'a str,
        /// Where, and what goes on beside it.
        hosting: Hosting<'a>,
        /// The path of the text file that is kept in step with the journal meanwhile, if one is.
        note: Option<&'a str>,
        /// Which text counts at the first use, where the two have different ones; if that is said.
        take: Option<Take>,
        /// The key.
        key: Option<[u8; 32]>,
    },
}

/// Where a page is, and with whom its program exchanges changes meanwhile.
#[derive(Clone, Copy)]
pub struct Hosting<'a> {
    /// The address of the page.
    pub page: SocketAddr,
    /// Where sessions are served beside it, if anywhere.
    pub serve: Option<Address<'a>>,
    /// Where the server is that is followed, if one is.
    pub follow: Option<Address<'a>>,
}

/// What is read or made beside the first file of a job, or whom it is about.
#[derive(Clone, Copy)]
pub enum Beside<'a> {
    /// There is none.
    Nothing,
    /// There is none, and the first file is no journal.
    NoJournal,
    /// It is a journal that is read.
    Read(&'a str),
    /// It is a text that is read; `-` is the standard input.
    Text(&'a str),
    /// It is made.
    Made(&'a str),
    /// It is a journal that is made of the first one, a saved file.
    Loaded(&'a str),
    /// It is a journal that is made of what can be had of the first one, if one is made; and the first other file that
    /// is read for that, if any is.
    Rescued(Option<&'a str>, Option<&'a str>),
    /// It is the other side of a session over the standard input and output.
    Streams,
    /// It is the address that is listened on.
    Here(Address<'a>),
    /// It is a server, at the address.
    There(Address<'a>),
    /// It is a text that is read, and a server, at the address.
    Shared(&'a str, Address<'a>),
    /// It is a page, at its address.
    Page(Hosting<'a>),
    /// It is a text that is read, and a page, at its address.
    Shown(&'a str, Hosting<'a>),
}

/// What a job is about.
#[derive(Clone, Copy)]
pub struct Subject<'a> {
    /// The path of the file that is judged first.
    pub file: &'a str,
    /// The file beside it.
    pub beside: Beside<'a>,
}

// What is beside a journal that is served at the address.
fn beside_server<'a>(note: &Option<&'a str>, addr: &Address<'a>) -> Beside<'a>
    ensures { result ≡ served_beside note.now addr.now }
{
    match note {
        Some(note) => Beside::Shared(note, *addr),
        None => Beside::Here(*addr),
    }
}

// What is beside a journal that is shown on the page.
fn beside_page<'a>(note: &Option<&'a str>, hosting: &Hosting<'a>) -> Beside<'a>
    ensures { result ≡ shown_beside note.now hosting.now }
{
    match note {
        Some(note) => Beside::Shown(note, *hosting),
        None => Beside::Page(*hosting),
    }
}

impl<'a> Job<'a> {
    /// What the job is about.
    pub fn subject(&self) -> Subject<'a>
        ensures { result ≡ subject_of self.now }
    {
        let (file, beside) = match self {
            Job::Files(job) => return subject_of_files(job),
            Job::Serve {
                file,
                addr,
                note,
                ..
            } => (file, beside_server(note, addr)),
            Job::Session { file, .. } => (file, Beside::Streams),
            Job::Sync { file, addr, .. } => (file, Beside::There(*addr)),
            Job::Follow { file, addr, .. } => (file, Beside::There(*addr)),
            Job::Keep { file, note, .. } => (file, Beside::Text(note)),
            Job::Share {
                file,
                note,
                addr,
                ..
            } => (file, Beside::Shared(note, *addr)),
            Job::Web {
                file,
                hosting,
                note,
                ..
            } => (file, beside_page(note, hosting)),
        };
        Subject { file, beside }
    }
}

// What a job is about that needs no network.
fn subject_of_files<'a>(job: &FileJob<'a>) -> Subject<'a>
    ensures { result ≡ subject_of (Files job.now) }
{
    let (file, beside) = match job {
        FileJob::New { file, .. } => (file, Beside::Made(file)),
        FileJob::Merge { file, other, .. } => (file, Beside::Read(other)),
        FileJob::Save { file, out } => (file, Beside::Made(out)),
        FileJob::Load { saved, file } => (saved, Beside::Loaded(file)),
        FileJob::Recover { file, out, others } => {
            return Subject {
                file,
                beside: Beside::Rescued(*out, others.first().copied()),
            };
        }
        FileJob::Edit {
            file,
            text: Inserted::InFile(source),
            ..
        } => (file, Beside::Text(source)),
        FileJob::Edit { file, .. } => (file, Beside::Nothing),
        FileJob::Update { file, source, .. } => (file, Beside::Text(source)),
        FileJob::Import { file, source, .. } => (file, Beside::Text(source)),
        FileJob::Mirror { file, note, .. } => (file, Beside::Text(note)),
        FileJob::Text { file, .. } => (file, Beside::Nothing),
        FileJob::Heads { file } => (file, Beside::Nothing),
        FileJob::Log { file, .. } => (file, Beside::Nothing),
        FileJob::Graph { file } => (file, Beside::Nothing),
        FileJob::Diff { file, .. } => (file, Beside::Nothing),
        FileJob::Status { file } => (file, Beside::Nothing),
        FileJob::Cursor { file, .. } => (file, Beside::Nothing),
        FileJob::Check { file } => (file, Beside::Nothing),
        FileJob::Show { log } => (log, Beside::NoJournal),
        FileJob::Simulate { script } => (script, Beside::NoJournal),
    };
    Subject { file, beside }
}

// The change that `edit` asks for.
fn edit_of<'a>(found: &ArgMatches<'a>) -> Result<Job<'a>, ValueError>
    requires { IsUse (codes "edit") (rows_of (found_of found.now)) }
    ensures ok { IfOk result (IsJobOf (codes "edit") (rows_of (found_of found.now))) }
    ensures err { IfErr result (RefusesValue (rows_of (found_of found.now))) }
{
    Ok(Job::Files(FileJob::Edit {
        file: text_of(found, "edit", "FILE"),
        at: number_of(found, "edit", "at"),
        del: number_of(found, "edit", "del"),
        text: inserted_of(found)?,
        time: number_of(found, "edit", "time"),
        message: text_of(found, "edit", "message"),
        key: key_of(found)?,
    }))
}

// The text that `update` asks for.
fn update_of<'a>(alloc: Global, found: &ArgMatches<'a>) -> Result<Job<'a>, ValueError>
    requires { IsUse (codes "update") (rows_of (found_of found.now)) }
    ensures ok { IfOk result (IsJobOf (codes "update") (rows_of (found_of found.now))) }
    ensures err { IfErr result (RefusesValue (rows_of (found_of found.now))) }
{
    Ok(Job::Files(FileJob::Update {
        file: text_of(found, "update", "FILE"),
        source: text_of(found, "update", "TEXT"),
        since: hashes_of(alloc, found, "since")?,
        time: number_of(found, "update", "time"),
        message: text_of(found, "update", "message"),
        key: key_of(found)?,
    }))
}

// The text that `import` asks for.
fn import_of<'a>(found: &ArgMatches<'a>) -> Result<Job<'a>, ValueError>
    requires { IsUse (codes "import") (rows_of (found_of found.now)) }
    ensures ok { IfOk result (IsJobOf (codes "import") (rows_of (found_of found.now))) }
    ensures err { IfErr result (RefusesValue (rows_of (found_of found.now))) }
{
    Ok(Job::Files(FileJob::Import {
        file: text_of(found, "import", "FILE"),
        source: text_of(found, "import", "TEXT"),
        time: number_of(found, "import", "time"),
        message: text_of(found, "import", "message"),
        key: key_of(found)?,
    }))
}

// What `mirror` asks for, once or for good, with a server or without one.
fn mirror_of<'a>(found: &ArgMatches<'a>) -> Result<Job<'a>, ValueError>
    requires { IsUse (codes "mirror") (rows_of (found_of found.now)) }
    ensures ok { IfOk result (IsJobOf (codes "mirror") (rows_of (found_of found.now))) }
    ensures err { IfErr result (RefusesValue (rows_of (found_of found.now))) }
{
    let file = text_of(found, "mirror", "FILE");
    let note = text_of(found, "mirror", "NOTE");
    let take = take_of(found)?;
    let key = key_of(found)?;
    let server = address_if_given(found, "server")?;
    match (server, number_in(found, "mirror", "every")) {
        (Some(addr), every) => Ok(Job::Share {
            file,
            note,
            take,
            addr,
            every: every.unwrap_or(1),
            sessions: u64::MAX,
            patience: 30,
            key,
        }),
        (None, Some(every)) => Ok(Job::Keep {
            file,
            note,
            take,
            every,
            key,
        }),
        (None, None) => Ok(Job::Files(FileJob::Mirror {
            file,
            note,
            take,
            key,
        })),
    }
}

// What `recover` asks for.
fn recover_of<'a>(alloc: Global, found: &ArgMatches<'a>) -> Result<Job<'a>, ValueError>
    requires { IsUse (codes "recover") (rows_of (found_of found.now)) }
    ensures ok { IfOk result (IsJobOf (codes "recover") (rows_of (found_of found.now))) }
    ensures err { IfErr result (RefusesValue (rows_of (found_of found.now))) }
{
    Ok(Job::Files(FileJob::Recover {
        file: text_of(found, "recover", "FILE"),
        out: output_of(found)?,
        others: texts_given(alloc, found, "with")?,
    }))
}

// The comparison that `diff` asks for.
fn diff_of<'a>(alloc: Global, found: &ArgMatches<'a>) -> Result<Job<'a>, ValueError>
    requires { IsUse (codes "diff") (rows_of (found_of found.now)) }
    ensures ok { IfOk result (IsJobOf (codes "diff") (rows_of (found_of found.now))) }
    ensures err { IfErr result (RefusesValue (rows_of (found_of found.now))) }
{
    Ok(Job::Files(FileJob::Diff {
        file: text_of(found, "diff", "FILE"),
        from: hashes_of(alloc, found, "HASH")?,
        to: hashes_of(alloc, found, "to")?,
        context: number_in(found, "diff", "unified"),
        is_worded: flag_of(found, "diff", "words"),
    }))
}

// The serving that `serve` asks for.
fn serve_of<'a>(found: &ArgMatches<'a>) -> Result<Job<'a>, ValueError>
    requires { IsUse (codes "serve") (rows_of (found_of found.now)) }
    ensures ok { IfOk result (IsJobOf (codes "serve") (rows_of (found_of found.now))) }
    ensures err { IfErr result (RefusesValue (rows_of (found_of found.now))) }
{
    let key = key_of(found)?;
    let take = take_of(found)?;
    Ok(Job::Serve {
        file: text_of(found, "serve", "FILE"),
        addr: address_of(found, "serve")?,
        sessions: number_of(found, "serve", "sessions"),
        workers: number_of(found, "serve", "workers"),
        patience: number_of(found, "serve", "patience"),
        is_verbose: flag_of(found, "serve", "verbose"),
        note: given_text(found, "mirror"),
        take,
        key,
    })
}

// The session that `session` asks for.
fn session_of<'a>(found: &ArgMatches<'a>) -> Result<Job<'a>, ValueError>
    requires { IsUse (codes "session") (rows_of (found_of found.now)) }
    ensures ok { IfOk result (IsJobOf (codes "session") (rows_of (found_of found.now))) }
    ensures err { IfErr result (RefusesValue (rows_of (found_of found.now))) }
{
    Ok(Job::Session {
        file: text_of(found, "session", "FILE"),
        is_client: flag_of(found, "session", "client"),
        key: key_of(found)?,
    })
}

// The exchange that `sync` asks for, once or again and again, and beside a text file or without one.
fn sync_of<'a>(found: &ArgMatches<'a>) -> Result<Job<'a>, ValueError>
    requires { IsUse (codes "sync") (rows_of (found_of found.now)) }
    ensures ok { IfOk result (IsJobOf (codes "sync") (rows_of (found_of found.now))) }
    ensures err { IfErr result (RefusesValue (rows_of (found_of found.now))) }
{
    let key = key_of(found)?;
    let addr = address_of(found, "sync")?;
    let file = text_of(found, "sync", "FILE");
    let patience = number_of(found, "sync", "patience");
    let sessions = number_of(found, "sync", "sessions");
    let take = take_of(found)?;
    match (
        given_text(found, "mirror"),
        number_in(found, "sync", "follow"),
    ) {
        (Some(note), every) => Ok(Job::Share {
            file,
            note,
            take,
            addr,
            every: every.unwrap_or(5),
            sessions,
            patience,
            key,
        }),
        (None, Some(every)) => Ok(Job::Follow {
            file,
            addr,
            every,
            sessions,
            patience,
            key,
        }),
        (None, None) => Ok(Job::Sync {
            file,
            addr,
            patience,
            key,
        }),
    }
}

// The page that `web` asks for.
fn web_of<'a>(found: &ArgMatches<'a>) -> Result<Job<'a>, ValueError>
    requires { IsUse (codes "web") (rows_of (found_of found.now)) }
    ensures ok { IfOk result (IsJobOf (codes "web") (rows_of (found_of found.now))) }
    ensures err { IfErr result (RefusesValue (rows_of (found_of found.now))) }
{
    let key = key_of(found)?;
    let take = take_of(found)?;
    Ok(Job::Web {
        file: text_of(found, "web", "FILE"),
        hosting: Hosting {
            page: page_of(found)?,
            serve: address_if_given(found, "serve")?,
            follow: address_if_given(found, "server")?,
        },
        note: given_text(found, "mirror"),
        take,
        key,
    })
}

/// The job of a subcommand that was met, with what was found for it. Hashes and the key are read before an address.
pub(crate) fn job_of<'a>(
    alloc: Global,
    name: &str,
    found: &ArgMatches<'a>,
) -> Result<Job<'a>, ValueError>
    requires { IsUse name.now (rows_of (found_of found.now)) }
    ensures ok { IfOk result (IsJobOf name.now (rows_of (found_of found.now))) }
    ensures err { IfErr result (RefusesValue (rows_of (found_of found.now))) }
{
    match name {
        "new" => Ok(Job::Files(FileJob::New {
            file: text_of(found, name, "FILE"),
            key: key_of(found)?,
        })),
        "edit" => edit_of(found),
        "update" => update_of(alloc, found),
        "import" => import_of(found),
        "mirror" => mirror_of(found),
        "text" => Ok(Job::Files(FileJob::Text {
            file: text_of(found, name, "FILE"),
            is_raw: flag_of(found, name, "raw"),
            heads: hashes_of(alloc, found, "HASH")?,
        })),
        "heads" => Ok(Job::Files(FileJob::Heads {
            file: text_of(found, name, "FILE"),
        })),
        "log" => Ok(Job::Files(FileJob::Log {
            file: text_of(found, name, "FILE"),
            pretty: flag_of(found, name, "pretty"),
            most: number_of(found, name, "most"),
        })),
        "graph" => Ok(Job::Files(FileJob::Graph {
            file: text_of(found, name, "FILE"),
        })),
        "diff" => diff_of(alloc, found),
        "status" => Ok(Job::Files(FileJob::Status {
            file: text_of(found, name, "FILE"),
        })),
        "cursor" => Ok(Job::Files(FileJob::Cursor {
            file: text_of(found, name, "FILE"),
            at: number_of(found, name, "AT"),
            heads: hashes_of(alloc, found, "HASH")?,
        })),
        "check" => Ok(Job::Files(FileJob::Check {
            file: text_of(found, name, "FILE"),
        })),
        "merge" => Ok(Job::Files(FileJob::Merge {
            file: text_of(found, name, "FILE"),
            other: text_of(found, name, "OTHER"),
            key: key_of(found)?,
        })),
        "save" => Ok(Job::Files(FileJob::Save {
            file: text_of(found, name, "FILE"),
            out: text_of(found, name, "OUT"),
        })),
        "load" => Ok(Job::Files(FileJob::Load {
            saved: text_of(found, name, "SAVED"),
            file: text_of(found, name, "FILE"),
        })),
        "recover" => recover_of(alloc, found),
        "show" => Ok(Job::Files(FileJob::Show {
            log: text_of(found, name, "LOG"),
        })),
        "simulate" => Ok(Job::Files(FileJob::Simulate {
            script: text_of(found, name, "SCRIPT"),
        })),
        "serve" => serve_of(found),
        "sync" => sync_of(found),
        "session" => session_of(found),
        "web" => web_of(found),
        _ => unreachable!(),
    }
}
