//! Clients that keep to no rule.

use crate::patience::Patience;
use std::io::{Read, Write};
use std::net::{Net, OpenStream, Shutdown, SocketAddr, TcpStream};
use std::sync::atomic::{AtomicBool, Ordering};
use std::time::Clock;

/// What a client sends before it ends its side, and all that it is answered.
pub type Answered = (&'static [u8], &'static [u8]);

/// Clients that say no hello, or a part of one, or something else in its place.
pub const UNKNOWN: [Answered; 9] = [
    (b"", b""),
    (b"\x00\x00\x00", b""),
    (b"\x00\x00\x00\x12\x00\x01\x00", b""),
    (b"\xff\xff\xff\xff", b"\x00\x00\x00\x02\x03\x03"),
    (b"\x00\x00\x00\x00", b"\x00\x00\x00\x02\x03\x03"),
    (b"\x00\x00\x00\x01\x04", b"\x00\x00\x00\x02\x03\x03"),
    (b"\x00\x00\x00\x01\x02", b"\x00\x00\x00\x02\x03\x03"),
    (b"\x00\x00\x00\x01\x01", b"\x00\x00\x00\x02\x03\x03"),
    (b"\x00\x00\x00\x02\x03\x05", b""),
];

/// How a client sends its bytes.
#[derive(Clone, Copy)]
pub enum Pace {
    /// One at a time.
    ByteByByte,
    /// All at once.
    AtOnce,
}

/// A connection with the server at the address, once that listens: till then it is refused.
pub fn connect_once_there<R: Net + Clock>(rt: &R, addr: SocketAddr) -> Option<R::Stream> {
    let patience = Patience::new(rt);
    for _ in 0..u64::MAX {
        if let Ok(stream) = TcpStream::connect(rt, addr) {
            return Some(stream);
        }
        if !patience.lasts(rt) {
            break;
        }
    }
    None
}

// Sends the bytes.
fn send<W: Write>(stream: &mut W, bytes: &[u8], pace: Pace) -> Option<()> {
    match pace {
        Pace::ByteByByte => {
            for byte in bytes {
                stream.write_all(&[*byte]).ok()?;
            }
            Some(())
        }
        Pace::AtOnce => stream.write_all(bytes).ok(),
    }
}

// Sends the hello, one byte at a time, then the bytes, and nothing more; all that comes back.
fn exchange<R: AllocGlobal, S: Read + Write + OpenStream + Drop>(
    rt: &R,
    stream: S,
    hello: &[u8],
    bytes: &[u8],
    pace: Pace,
) -> Option<Vec<u8>> {
    let mut stream = stream;
    send(&mut stream, hello, Pace::ByteByByte)?;
    send(&mut stream, bytes, pace)?;
    stream.shutdown(Shutdown::Write).ok()?;
    let mut back = Vec::new(rt.alloc());
    stream.read_to_end(&mut back).ok()?;
    Some(back)
}

// Whether a client that sends the hello and the bytes is answered by the same hello and the answer.
fn is_answered<R: AllocGlobal + Net + Clock>(
    rt: &R,
    addr: SocketAddr,
    hello: &[u8],
    row: Answered,
    pace: Pace,
) -> bool {
    let Some(stream) = connect_once_there(rt, addr) else {
        return false;
    };
    match exchange(rt, stream, hello, row.0, pace) {
        Some(back) => back.strip_prefix(hello) == Some(row.1),
        None => false,
    }
}

/// One client after another. Each says the hello first: what the first one sent that was answered otherwise.
pub fn first_other<R: AllocGlobal + Net + Clock>(
    rt: &R,
    addr: SocketAddr,
    hello: &[u8],
    rows: &[Answered],
    pace: Pace,
) -> Option<&'static [u8]> {
    let mut other = None;
    for row in rows {
        if !is_answered(rt, addr, hello, *row, pace) && other.is_none() {
            other = Some(row.0);
        }
    }
    other
}

// Sends the bytes at once, and closes the connection. Whether they were sent.
fn is_left<S: Write + Drop>(stream: S, bytes: &[u8]) -> bool {
    let mut stream = stream;
    send(&mut stream, bytes, Pace::AtOnce).is_some()
}

/// A client that sends the bytes, and closes its connection with no look at an answer. Whether they were sent.
pub fn leaves<R: Net + Clock>(rt: &R, addr: SocketAddr, bytes: &[u8]) -> bool {
    match connect_once_there(rt, addr) {
        Some(stream) => is_left(stream, bytes),
        None => false,
    }
}

/// Says nothing on the connection until another client is done. Whether it was in time; the connection is closed then.
pub fn is_silent_until<R: Clock, S: Drop>(rt: &R, stream: S, is_done: &AtomicBool) -> bool {
    let patience = Patience::new(rt);
    for _ in 0..u64::MAX {
        if is_done.load(Ordering::SeqCst) {
            drop(stream);
            return true;
        }
        if !patience.lasts(rt) {
            break;
        }
    }
    drop(stream);
    false
}
