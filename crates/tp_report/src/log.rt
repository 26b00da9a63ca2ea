//! What a server prints of each session as it ends.

ghost use Rattle.std.specs.Prelude.{◌≡◌, IfOk};
ghost use Rattle.std.specs.String.{string_bytes};
ghost use Rattle.tp_report.specs.Names.{name_of_outcome, session_line as line_of_session};

use crate::error::{JobError, session_name};
use std::alloc::Global;
use tp_command_line::Address;
use tp_commands::CommandError;
use tp_net::{Gate, Report};
use tp_session::NetError;

/// The gate of a server, which prints a line of each session as it ends, where it is verbose: on the standard error of the
/// runtime, by the thread that held the session. Where that fails, or memory is short, the line is missing.
#[derive(Drop)]
pub struct Log<'a, R> {
    /// What has the standard error.
    pub rt: &'a R,
    /// Whether it is verbose.
    pub is_verbose: bool,
}

// How a session ended.
fn outcome_name(error: Option<NetError>) -> &'static str
    ensures { result.now ≡ name_of_outcome error }
{
    match error {
        Some(error) => session_name(error),
        None => "done",
    }
}

// The line of a session: where the client is, how many changes entered and were sent, and how it ended.
fn session_line(alloc: Global, report: &Report) -> Result<String, CommandError>
    ensures { IfOk result (λ l. string_bytes l ≡ line_of_session report.now) }
{
    let client = report.client;
    let entered = report.tally.entered;
    let sent = report.tally.sent;
    let name = outcome_name(report.error);
    Ok(format!(in alloc; "{client} +{entered} -{sent} {name}\n")?)
}

impl<R: Eprint + AllocGlobal> Gate for Log<'_, R> {
    fn before(&self, _session: u64) {}

    fn after(&self, report: &Report) {
        if !self.is_verbose {
            return;
        }
        if let Ok(line) = session_line(self.rt.alloc(), report) {
            let _ = self.rt.eprint(line);
        }
    }
}

// The line of a server that is followed: where it is, and how the last session with it ended.
fn followed_line(
    alloc: Global,
    addr: &Address<'_>,
    error: Option<NetError>,
) -> Result<String, CommandError> {
    let name = outcome_name(error);
    Ok(format!(in alloc; "{addr} {name}\n")?)
}

/// Prints how the last session ended with a server that is followed, on the standard error of the runtime: where it is, and
/// `done` or the name of what broke it off. Where that fails, or memory is short, the line is missing.
pub fn tell_followed<R: Eprint>(
    rt: &R,
    alloc: Global,
    addr: &Address<'_>,
    error: Option<NetError>,
) {
    if let Ok(line) = followed_line(alloc, addr, error) {
        let _ = rt.eprint(line);
    }
}

/// Prints a refusal on the standard error of the runtime, as a job's is printed. Where that fails, or memory is short, the line is
/// missing.
pub fn tell_refusal<R: Eprint>(rt: &R, alloc: Global, error: JobError) {
    if let Ok(line) = format!(in alloc; "{error}\n") {
        let _ = rt.eprint(line);
    }
}
