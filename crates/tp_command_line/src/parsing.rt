//! From words to a job.

ghost use Rattle.std.specs.Prelude.{◌≡◌, IfOk, MatchResult, map};
ghost use Rattle.clap.specs.Words.{Text, fault_of, subcommand_of};
ghost use Rattle.tp_command_line.specs.Commands.{AskToShow, IsFoundAs, IsShow, WaitsAs, textpeer_app};
ghost use Rattle.tp_command_line.specs.LineError.{FailsAs};
ghost use Rattle.tp_command_line.specs.declared.error.LineError.TheVariants.{Value};
ghost use Rattle.tp_command_line.specs.declared.error.ValueError.TheVariants.{OutOfMemory};

use crate::definition::textpeer_command;
use crate::error::LineError;
use crate::job::{Job, job_of};
use crate::values::number_in;
use std::alloc::Global;
use std::convert::AsStr;

/// What a command line asks for.
#[derive(Drop)]
pub struct Wanted<'a> {
    /// The job.
    pub job: Job<'a>,
    /// For how many seconds a job that writes its journal waits for the journal's lock where another program has it: 0, which is
    /// not at all, to 86,400, and 5 where none is given. `None` of a job that takes no lock.
    pub wait: Option<u64>,
}

/// The job that a command line asks for, and how long it waits for a lock; its first word is the program's name, as in `env::args`. A value
/// that begins with a hyphen comes after `--`, or after its option and `=`; numbers are decimal, up to 2^64 - 1.
/// Anything else than a command with its values is a fault, and `--help` and `--version` are requests. Of words at no fault
/// the hashes and the key are read, then the address: [`ValueError`](crate::ValueError) says what isn't one.
pub fn line<'a, S: AsStr>(alloc: Global, words: &'a [S]) -> Result<Wanted<'a>, LineError>
    ensures job { IfOk result
        (λ w. IsFoundAs (subcommand_of textpeer_app (map S.text words.entry.now)) w.job) }
    ensures waits { IfOk result
        (λ w. WaitsAs (subcommand_of textpeer_app (map S.text words.entry.now)) w.wait) }
    ensures fails { FailsAs (fault_of textpeer_app (map S.text words.entry.now))
        (subcommand_of textpeer_app (map S.text words.entry.now)) result }
    ensures shows { (path : Text) → AskToShow path (map S.text words.entry.now)
        → MatchResult result (λ w. IsShow path w.job) (λ e. e ≡ Value OutOfMemory) }
{
    let matches = textpeer_command(alloc)?.try_get_matches_from(words)?;
    let (name, found) = matches.subcommand().unwrap();
    Ok(Wanted {
        wait: number_in(found, name, "wait"),
        job: job_of(alloc, name, found)?,
    })
}
