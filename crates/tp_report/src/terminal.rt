//! What is written to a terminal.

ghost use Rattle.std.specs.Prelude.{◌≤◌, length};
ghost use Rattle.std.specs.Io.{WritesAtMost};

use std::alloc::Global;
use std::io;
use std::io::Write;

// The first byte of the control characters from 128 on.
const LEAD: u8 = 0xc2;

/// A writer that shows control characters as Rust escapes them, but newline and tab, where it writes to a terminal, so that
/// none moves the cursor or changes how the terminal works. Elsewhere all bytes are written as they are.
#[derive(Drop)]
pub struct Shown<W> {
    alloc: Global,
    writer: W,
    is_terminal: bool,
    // The first byte of what may be a control character has come.
    is_led: bool,
}

impl<W: Write> Shown<W> {
    /// What writes to the writer, which is a terminal or not.
    pub fn new(alloc: Global, writer: W, is_terminal: bool) -> Shown<W> {
        Shown {
            alloc,
            writer,
            is_terminal,
            is_led: false,
        }
    }

    // Writes a control character as Rust escapes it.
    fn write_escape(&mut self, byte: u8) -> io::Result<()> {
        let mut text = String::new(self.alloc);
        text.extend(char::from(byte).escape_default())?;
        self.writer.write_all(text.as_str().as_bytes())
    }

    // Writes what is whole of the bytes, which aren't none: one that begins a control character is kept.
    fn write_shown(&mut self, bytes: &[u8], first: u8) -> io::Result<usize>
        requires { 1 ≤ length bytes.now }
        ensures { WritesAtMost result bytes.now }
    {
        let plain = plain_len(bytes);
        if plain > 0 {
            self.writer.write(&bytes[..plain])
        } else if first == LEAD {
            self.is_led = true;
            Ok(1)
        } else {
            self.write_escape(first)?;
            Ok(1)
        }
    }
}

// Whether the byte is a control character, other than newline and tab, or begins one.
fn is_special(byte: u8) -> bool {
    byte == LEAD || (byte < 0x20 && byte != b'\n' && byte != b'\t') || byte == 0x7f
}

// How many bytes come before a special one.
fn plain_len(bytes: &[u8]) -> usize
    ensures { result ≤ length bytes.now }
{
    let mut len = 0usize;
    while len < bytes.len() && !is_special(bytes[len]) {
        len += 1;
    }
    len
}

impl<W: Write> Write for Shown<W> {
    fn write(&mut self, bytes: &[u8]) -> io::Result<usize> {
        if !self.is_terminal || bytes.is_empty() {
            return self.writer.write(bytes);
        }
        let first = bytes[0];
        if self.is_led && (0x80..=0x9f).contains(&first) {
            self.write_escape(first)?;
            self.is_led = false;
            return Ok(1);
        }
        if self.is_led && (0xa0..=0xbf).contains(&first) {
            self.writer.write_all(&[LEAD, first])?;
            self.is_led = false;
            return Ok(1);
        }
        if self.is_led {
            self.writer.write_all(&[LEAD])?;
            self.is_led = false;
        }
        self.write_shown(bytes, first)
    }

    fn flush(&mut self) -> io::Result<()> {
        self.writer.flush()
    }
}
