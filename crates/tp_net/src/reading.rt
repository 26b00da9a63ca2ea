//! Bytes out of a reader.

ghost use Rattle.std.specs.Prelude.{◌≡◌, ◌≤◌, [], length, take, IfOk, IfErr, OnErr};
ghost use Rattle.std.specs.Io.KnownBytes.{Consumes};
ghost use Rattle.tp_session.specs.declared.error.NetError.TheVariants.{Io};

use std::io::{ErrorKind, Read};
use tp_session::{NetError, Next};

/// The bytes to be fed next, at the front of the chunk; how many: the next of the reader where the session waits for more,
/// and else none. A read that was interrupted is made again. `Io` where the reader fails or ends.
pub(crate) fn read_more<R: Read>(
    reader: &mut R,
    chunk: &mut [u8],
    before: Next,
) -> Result<usize, NetError>
    ensures within { IfOk result (λ n. n ≤ length chunk.new) }
    ensures bytes { IfOk result (λ n. Consumes (R.remaining reader.old) (R.remaining reader.new)
        (take n chunk.new)) }
    ensures kept { OnErr result (Consumes (R.remaining reader.old) (R.remaining reader.new) []) }
    ensures err { IfErr result (λ e. e ≡ Io) }
{
    if before != Next::Waits {
        return Ok(0);
    }
    for _ in 0..u64::MAX {
        match reader.read(chunk) {
            Ok(0) => return Err(NetError::Io),
            Ok(n) => return Ok(n),
            Err(e) => {
                if e.kind() != ErrorKind::Interrupted {
                    return Err(NetError::Io);
                }
            }
        }
    }
    Err(NetError::Io)
}
