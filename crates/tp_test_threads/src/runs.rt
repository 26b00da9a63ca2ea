//! Runs of the program.

use crate::patience::Patience;
use crate::strangers::{connect_once_there, is_silent_until};
use std::alloc::Global;
use std::io::{Read, Write};
use std::net::{Ipv4Addr, Net, OpenListener, OpenStream, SocketAddr, TcpListener, TcpStream};
use std::sync::Wait;
use std::sync::atomic::{AtomicBool, Ordering};
use std::test::Fail;
use std::thread::{Threads, join};
use std::time::Clock;
use tp_disk::{Disk, Folders, Found};
use tp_program::run_words_on;

// The key of each journal that is begun.
const DOCUMENT: &str = "0000000000000000000000000000000000000000000000000000000000000000";

/// What a run left.
#[derive(Drop)]
pub struct Ran {
    /// The exit status.
    pub status: u8,
    /// What it printed on the standard output.
    pub out: Vec<u8>,
    /// What it printed on the standard error.
    pub err: Vec<u8>,
}

impl Ran {
    /// Whether it was done, and printed just this.
    pub fn has_printed(&self, text: &str) -> bool {
        self.status == 0 && self.out.as_slice() == text.as_bytes() && self.err.is_empty()
    }

    /// Whether it was done, and said just this on the standard error.
    pub fn has_said(&self, text: &str) -> bool {
        self.status == 0 && self.err.as_slice() == text.as_bytes()
    }

    /// Whether it was refused with just this line, and printed just this before.
    pub fn was_refused(&self, text: &str, line: &str) -> bool {
        self.status == 1
            && self.out.as_slice() == text.as_bytes()
            && self.err.as_slice() == line.as_bytes()
    }
}

/// A run with these words. The first is the program's name.
pub fn run<R: Disk + Net + Threads + Wait + Clock + Eprint + AllocGlobal + Sync>(
    rt: &R,
    words: &[&str],
) -> Ran
where
    R::File: Send,
    R::New: Send,
    R::Listener: Sync,
    R::Stream: Send,
{
    let mut out = Vec::new(rt.alloc());
    let mut err = Vec::new(rt.alloc());
    let status = run_words_on(
        rt,
        words,
        "",
        false,
        &mut b"".as_slice(),
        &mut out,
        &mut err,
    );
    Ran { status, out, err }
}

/// A run with these words, whose standard input and output are the stream. What it wrote there isn't among what it left.
pub fn run_over<
    R: Disk + Net + Threads + Wait + Clock + Eprint + AllocGlobal + Sync,
    S: Read + Write + OpenStream + Drop,
>(rt: &R, words: &[&str], stream: S) -> Option<Ran>
where
    R::File: Send,
    R::New: Send,
    R::Listener: Sync,
    R::Stream: Send,
{
    let mut input = stream;
    let mut output = input.try_clone().ok()?;
    let mut err = Vec::new(rt.alloc());
    let status = run_words_on(rt, words, "", false, &mut input, &mut output, &mut err);
    Some(Ran {
        status,
        out: Vec::new(rt.alloc()),
        err,
    })
}

/// Both ends of a connection within this machine.
pub fn ends<R: Net>(rt: &R) -> Result<(R::Stream, R::Stream), Fail> {
    let listener = TcpListener::bind(rt, SocketAddr::from((Ipv4Addr::LOCALHOST, 0)))?;
    let near = TcpStream::connect(rt, listener.local_addr()?)?;
    let (far, _) = listener.accept()?;
    Ok((near, far))
}

/// Inserts the text at the place in the file's document.
pub fn insert<R: Disk + Net + Threads + Wait + Clock + Eprint + AllocGlobal + Sync>(
    rt: &R,
    file: &str,
    at: &str,
    text: &str,
) -> Ran
where
    R::File: Send,
    R::New: Send,
    R::Listener: Sync,
    R::Stream: Send,
{
    let words = [
        "textpeer", "edit", file, "--at", at, "--del", "0", "--text", text,
    ];
    run(rt, &words)
}

// Makes a copy of a file, where nothing is. Whether that was done.
fn copy<R: Disk>(rt: &R, file: &str, copy: &str) -> bool {
    match (rt.find(file), rt.read(file)) {
        (Ok(Found::File(mode)), Ok(bytes)) => rt.write_new(copy, mode, bytes.as_slice()).is_ok(),
        _ => false,
    }
}

/// Copies a file to paths where nothing is. Whether that was done.
pub fn copy_all<R: Disk>(rt: &R, file: &str, copies: &[&str]) -> bool {
    let mut is_done = true;
    for path in copies {
        is_done = is_done && copy(rt, file, path);
    }
    is_done
}

/// Makes a journal with the text, and copies of it. Whether that was done.
pub fn begin<R: Disk + Net + Threads + Wait + Clock + Eprint + AllocGlobal + Sync>(
    rt: &R,
    file: &str,
    text: &str,
    copies: &[&str],
) -> bool
where
    R::File: Send,
    R::New: Send,
    R::Listener: Sync,
    R::Stream: Send,
{
    let made = run(rt, &["textpeer", "new", file, "--key", DOCUMENT]);
    made.status == 0 && insert(rt, file, "0", text).status == 0 && copy_all(rt, file, copies)
}

/// Whether each of the files has the text.
pub fn all_read<R: Disk + Net + Threads + Wait + Clock + Eprint + AllocGlobal + Sync>(
    rt: &R,
    files: &[&str],
    text: &str,
) -> bool
where
    R::File: Send,
    R::New: Send,
    R::Listener: Sync,
    R::Stream: Send,
{
    let mut is_read = true;
    for file in files {
        is_read = is_read && run(rt, &["textpeer", "text", file]).has_printed(text);
    }
    is_read
}

/// A server of the file's journal at the address, for `sessions` sessions.
pub fn serve<R: Disk + Net + Threads + Wait + Clock + Eprint + AllocGlobal + Sync>(
    rt: &R,
    file: &str,
    addr: &str,
    sessions: &str,
) -> Ran
where
    R::File: Send,
    R::New: Send,
    R::Listener: Sync,
    R::Stream: Send,
{
    run(
        rt,
        &["textpeer", "serve", file, addr, "--sessions", sessions],
    )
}

/// One session with the server at the address, as a client.
pub fn sync_once<R: Disk + Net + Threads + Wait + Clock + Eprint + AllocGlobal + Sync>(
    rt: &R,
    file: &str,
    addr: &str,
) -> Ran
where
    R::File: Send,
    R::New: Send,
    R::Listener: Sync,
    R::Stream: Send,
{
    run(rt, &["textpeer", "sync", file, addr])
}

/// `sessions` sessions with the server at the address, one after another, a second between two.
pub fn follow<R: Disk + Net + Threads + Wait + Clock + Eprint + AllocGlobal + Sync>(
    rt: &R,
    file: &str,
    addr: &str,
    sessions: &str,
) -> Ran
where
    R::File: Send,
    R::New: Send,
    R::Listener: Sync,
    R::Stream: Send,
{
    let words = [
        "textpeer",
        "sync",
        file,
        addr,
        "--follow",
        "1",
        "--sessions",
        sessions,
    ];
    run(rt, &words)
}

/// One session once the server listens: till then a client can't connect, and is refused.
pub fn sync<R: Disk + Net + Threads + Wait + Clock + Eprint + AllocGlobal + Sync>(
    rt: &R,
    file: &str,
    addr: &str,
) -> Ran
where
    R::File: Send,
    R::New: Send,
    R::Listener: Sync,
    R::Stream: Send,
{
    let patience = Patience::new(rt);
    for _ in 0..u64::MAX {
        let ran = sync_once(rt, file, addr);
        if ran.status == 0 || !patience.lasts(rt) {
            return ran;
        }
    }
    sync_once(rt, file, addr)
}

/// A client that says nothing, and one beside it with the file's journal until that is done: whether the first was silent
/// so long, and what the other one answered.
pub fn sync_beside_silence<R: Disk + Net + Threads + Wait + Clock + Eprint + AllocGlobal + Sync>(
    rt: &R,
    file: &str,
    place: &Place,
) -> Option<(bool, Ran)>
where
    R::File: Send,
    R::New: Send,
    R::Listener: Sync,
    R::Stream: Send,
{
    let silent = connect_once_there(rt, place.addr)?;
    let is_done = AtomicBool::new(false);
    Some(join(
        rt,
        || is_silent_until(rt, silent, &is_done),
        || {
            let ran = sync_once(rt, file, place.as_str());
            is_done.store(true, Ordering::SeqCst);
            ran
        },
    ))
}

/// Where a server listens, also as the commands take it.
#[derive(Drop)]
pub struct Place {
    /// The address.
    pub addr: SocketAddr,
    text: String,
}

impl Place {
    /// A port of this machine that is free.
    pub fn free<R: Net + AllocGlobal>(rt: &R) -> Result<Place, Fail> {
        let listener = TcpListener::bind(rt, SocketAddr::from((Ipv4Addr::LOCALHOST, 0)))?;
        let addr = listener.local_addr()?;
        let text = format!(in rt.alloc(); "{addr}")?;
        Ok(Place { addr, text })
    }

    /// As the commands take it.
    pub fn as_str(&self) -> &str {
        self.text.as_str()
    }

    /// What a server prints there, with the line in the end, or with none.
    pub fn output_with(&self, alloc: Global, line: &str) -> Result<String, Fail> {
        let port = self.addr.port();
        Ok(format!(in alloc; "listening {port}\n{line}")?)
    }
}
