//! Writing bytes, and how many of them were taken.

ghost use Rattle.std.specs.Prelude.{OnOk};
ghost use Rattle.std.specs.Io.KnownBytes.{Appends};
ghost use Rattle.tp_textpeer.specs.Output.{AppendsPart};

use std::io;
use std::io::{ErrorKind, Write};

/// Writes the bytes and flushes the writer. Where that fails, the writer has taken a beginning of the bytes.
pub fn write_out<W: Write>(writer: &mut W, bytes: &[u8]) -> io::Result<()>
    ensures whole { OnOk result (Appends (W.contents writer.old) (W.contents writer.new) bytes.now) }
    ensures part { AppendsPart (W.contents writer.old) (W.contents writer.new) bytes.now }
{
    write_bytes(writer, bytes)?;
    writer.flush()
}

// Writes the bytes, in as many calls as the writer asks for. One that was interrupted is made again.
fn write_bytes<W: Write>(writer: &mut W, bytes: &[u8]) -> io::Result<()>
    ensures whole { OnOk result (Appends (W.contents writer.old) (W.contents writer.new) bytes.now) }
    ensures part { AppendsPart (W.contents writer.old) (W.contents writer.new) bytes.now }
{
    let mut rest = bytes;
    for _ in 0..u64::MAX {
        if rest.is_empty() {
            return Ok(());
        }
        match writer.write(rest) {
            Ok(0) => return Err(io::Error::from(ErrorKind::WriteZero)),
            Ok(n) => rest = &rest[n..],
            Err(e) => {
                if e.kind() != ErrorKind::Interrupted {
                    return Err(e);
                }
            }
        }
    }
    Err(io::Error::from(ErrorKind::TimedOut))
}
