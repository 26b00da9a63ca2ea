//! Whether a window still lives.

use crate::timed::Timed;
use bytes::Bytes;
use std::io::{ErrorKind, Read, Write};
use std::net::OpenStream;
use std::time::Clock;
use tungstenite::{Error, Message, NoMask, WebSocket};

/// A window that gave no sign of life for this many seconds is asked for one, and has as long to give it.
pub(crate) const QUIET: u64 = 20;

// Whether nothing came in time.
fn is_late(error: &Error) -> bool {
    match error {
        Error::Io(error) => error.kind() == ErrorKind::WouldBlock,
        _ => false,
    }
}

// Whether the message shows that the window lives: it asks something, or answers a ping. That it pings doesn't.
fn is_sign(message: &Message) -> bool {
    message.is_text() || message.is_pong()
}

// Asks the window for a sign of life, and says whether that went out.
fn ask<S: Read + Write + OpenStream + Drop, R: Clock>(
    socket: &mut WebSocket<Timed<'_, S, R>, NoMask>,
) -> bool {
    if socket.send(Message::Ping(Bytes::from_static(b""))).is_err() {
        return false;
    }
    socket.get_ref().extend(QUIET, true);
    true
}

/// The next message of a window. `None` where it ended or broke the rules, and where it gave no sign of life for 20 seconds and for
/// another 20 after it was pinged.
pub(crate) fn next_message<S: Read + Write + OpenStream + Drop, R: Clock>(
    socket: &mut WebSocket<Timed<'_, S, R>, NoMask>,
) -> Option<Message> {
    for _ in 0..2 {
        match socket.read() {
            Ok(message) => {
                if is_sign(&message) {
                    socket.get_ref().extend(QUIET, false);
                }
                return Some(message);
            }
            Err(error) => {
                if !is_late(&error) || socket.get_ref().is_asked() || !ask(socket) {
                    return None;
                }
            }
        }
    }
    None
}
