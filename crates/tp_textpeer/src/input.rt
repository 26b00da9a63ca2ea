//! Reading a number of bytes, or what is left of them.

ghost use Rattle.std.specs.Prelude.{◌≡◌, ℕ, ◌+◌, ◌<◌, ◌≤◌, List, ◌++◌, OnOk, IfOk, IfErr, vec_len};
ghost use Rattle.std.specs.Io.KnownBytes.{Consumes, IsAtEnd};
ghost use Rattle.tp_textpeer.specs.ShowFault.{IsOutsideFault};

use crate::error::ShowFault;
use std::io::{ErrorKind, Read};

const CHUNK: usize = 8192;

/// Replaces what the buffer holds by the next `len` bytes, or by all that are left where these are fewer. No room
/// is made for bytes that haven't come.
pub(crate) fn read_up_to<R: Read>(
    reader: &mut R,
    buffer: &mut Vec<u8>,
    len: usize,
) -> Result<(), ShowFault>
    ensures bytes { OnOk result
        (Consumes (R.remaining reader.old) (R.remaining reader.new) buffer.new.items) }
    ensures within { OnOk result (vec_len buffer.new ≤ len) }
    ensures end { OnOk result (vec_len buffer.new < len → IsAtEnd (R.remaining reader.new)) }
    ensures outside { IfErr result IsOutsideFault }
{
    buffer.clear();
    for _ in 0..u64::MAX {
        if buffer.len() >= len || read_chunk(reader, buffer, len - buffer.len())? == 0 {
            return Ok(());
        }
    }
    Err(ShowFault::Io)
}

// One read of at most `most` bytes, put at the end of the buffer; how many came. A read that was interrupted counts
// as none, and is made again.
fn read_chunk<R: Read>(
    reader: &mut R,
    buffer: &mut Vec<u8>,
    most: usize,
) -> Result<usize, ShowFault>
    ensures within { IfOk result (λ n. (n ≤ most) × (vec_len buffer.new ≡ vec_len buffer.old + n)) }
    ensures bytes { IfOk result
        (λ n. (prefix : List ℕ) × (buffer.new.items ≡ buffer.old.items ++ prefix)
        × Consumes (R.remaining reader.old) (R.remaining reader.new) prefix) }
    ensures end { IfOk result (λ n. n ≡ 0 → 0 < most → IsAtEnd (R.remaining reader.new)) }
    ensures outside { IfErr result IsOutsideFault }
{
    let mut chunk = [0u8; CHUNK];
    let len = CHUNK.min(most);
    for _ in 0..u64::MAX {
        match reader.read(&mut chunk[..len]) {
            Ok(n) => {
                buffer.extend_from_slice(&chunk[..n])?;
                return Ok(n);
            }
            Err(e) => {
                if e.kind() != ErrorKind::Interrupted {
                    return Err(ShowFault::Io);
                }
            }
        }
    }
    Err(ShowFault::Io)
}
