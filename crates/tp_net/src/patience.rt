//! How long one side waits for the other.

ghost use Rattle.std.specs.Prelude.{◌≡◌, IfErr};
ghost use Rattle.tp_session.specs.declared.error.NetError.TheVariants.{Io};

use std::io;
use std::io::ErrorKind;
use std::net::OpenStream;
use std::time::{Clock, Duration, Instant};
use tp_session::NetError;

/// A connection has at least this many milliseconds for its first bytes once a worker takes it: those that have come
/// are read.
const LEAST: u64 = 1;

// A bound was set, or the stream knows none. `Io` where it can't be set.
fn set(outcome: io::Result<()>) -> Result<(), NetError>
    ensures { IfErr result (λ e. e ≡ Io) }
{
    match outcome {
        Ok(()) => Ok(()),
        Err(error) => match error.kind() {
            ErrorKind::Unsupported => Ok(()),
            _ => Err(NetError::Io),
        },
    }
}

/// Lets no read and no write of the stream wait longer than the patience, where there is one: one that would fails. A
/// stream that knows no such bound waits without one. `Io` where it can't be set, as of no time at all.
pub(crate) fn limit_waits<S: OpenStream>(
    stream: &S,
    patience: Option<Duration>,
) -> Result<(), NetError>
    ensures { IfErr result (λ e. e ≡ Io) }
{
    if patience.is_none() {
        return Ok(());
    }
    set(stream.set_read_timeout(patience))?;
    set(stream.set_write_timeout(patience))
}

// What is left of the patience with a connection that was accepted then.
fn time_left<R: Clock>(rt: &R, accepted: Option<Instant>, patience: Duration) -> Duration {
    let passed = match accepted {
        Some(accepted) => accepted.elapsed(rt).unwrap_or(Duration::ZERO),
        None => Duration::ZERO,
    };
    patience
        .saturating_sub(passed)
        .max(Duration::from_millis(LEAST))
}

/// Waits for the first bytes of a connection, or its end, no longer than what is left of the patience since it was
/// accepted, but a millisecond at least. Without a patience it doesn't wait. `Io` where nothing came.
pub(crate) fn await_first<R: Clock, S: OpenStream>(
    rt: &R,
    stream: &S,
    accepted: Option<Instant>,
    patience: Option<Duration>,
) -> Result<(), NetError>
    ensures { IfErr result (λ e. e ≡ Io) }
{
    let Some(patience) = patience else {
        return Ok(());
    };
    set(stream.set_read_timeout(Some(time_left(rt, accepted, patience))))?;
    match stream.peek(&mut [0]) {
        Ok(_) => Ok(()),
        Err(error) => match error.kind() {
            ErrorKind::WouldBlock => Err(NetError::Io),
            _ => Ok(()),
        },
    }
}
