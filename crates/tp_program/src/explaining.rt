//! Words that ask for no job, and the standard error.

ghost use Rattle.std.specs.Prelude.{◌≡◌, ◌≤◌, ◌⊎◌, IfErr};
ghost use Rattle.std.specs.Io.KnownBytes.{Keeps};
ghost use Rattle.tp_command_line.specs.LineError.{value_line};
ghost use Rattle.tp_command_line.specs.declared.error.LineError.TheVariants.{Value};
ghost use Rattle.tp_command_line.specs.declared.error.ValueError.{ValueError as ValueRefusal};
ghost use Rattle.tp_report.specs.declared.error.JobError.{JobError as JobRefusal};
ghost use Rattle.tp_report.specs.Telling.{GrowsPart, IsLineOf};
ghost use Rattle.tp_program.specs.Words.{IsMisuse, IsRequest, RefusesHelp};

use clap::error::ErrorKind as Cause;
use std::alloc::{AllocError, Global};
use std::fmt::Display;
use std::io;
use std::io::{ErrorKind, Write};
use tp_command_line::{LineError, ValueError};
use tp_report::{DONE, JobError, REFUSED, exit_status, output_refusal};
use tp_textpeer::write_out;

/// The exit status of words that are at fault.
pub const MISUSED: u8 = 2;

/// The standard error, as what prints.
#[derive(Drop)]
pub struct Errors<'a, R> {
    /// What has the standard error.
    pub rt: &'a R,
}

impl<R: Eprint> Print for Errors<'_, R> {
    fn print<D: Display + Drop>(&self, value: D) -> io::Result<()> {
        self.rt.eprint(value)
    }

    fn println<D: Display + Drop>(&self, value: D) -> io::Result<()> {
        self.rt.eprintln(value)
    }

    fn write_all(&self, bytes: &[u8]) -> io::Result<()> {
        match str::from_utf8(bytes) {
            Ok(text) => self.rt.eprint(text),
            Err(_) => Err(io::Error::from(ErrorKind::InvalidData)),
        }
    }
}

/// Prints why the words ask for no job, and returns the exit status: 0 where help or the version was asked for, 1 where that
/// could not be written or a value wasn't read, and 2 where the words are at fault. The version names the commit that the
/// program is a release of; it is empty where it is none.
pub fn explain<W: Write, E: Write>(
    alloc: Global,
    fault: &LineError,
    commit: &str,
    explains: bool,
    out: &mut W,
    err: &mut E,
) -> u8
    ensures status { result ≤ MISUSED }
    ensures done { result ≡ DONE
        → Keeps (E.contents err.old) (E.contents err.new) × IsRequest fault.now }
    ensures refused { result ≡ REFUSED → ((e : ValueRefusal) × (fault.now ≡ Value e)
        × GrowsPart (λ printed. printed ≡ value_line explains e) (E.contents err.old) (E.contents err.new)
        × Keeps (W.contents out.old) (W.contents out.new))
        ⊎ ((e : JobRefusal) × IsRequest fault.now
        × GrowsPart (IsLineOf e) (E.contents err.old) (E.contents err.new)
        × RefusesHelp e (W.contents out.old) (W.contents out.new)) }
    ensures misused { result ≡ MISUSED
        → IsMisuse fault.now × Keeps (W.contents out.old) (W.contents out.new) }
{
    match fault {
        LineError::Request(asked) => {
            let commit = match asked.kind() {
                Cause::DisplayVersion => commit,
                _ => "",
            };
            exit_status(alloc, put_fault(alloc, fault, commit, out), err)
        }
        LineError::Fault(_) => {
            let _ = put_fault(alloc, fault, "", err);
            MISUSED
        }
        LineError::Value(ValueError::NotOneText) => {
            let _ = write_out(err, ValueError::NotOneText.line(explains).as_bytes());
            MISUSED
        }
        LineError::Value(ValueError::NotOneOutput) => {
            let _ = write_out(err, ValueError::NotOneOutput.line(explains).as_bytes());
            MISUSED
        }
        LineError::Value(ValueError::BadTake) => {
            let _ = write_out(err, ValueError::BadTake.line(explains).as_bytes());
            MISUSED
        }
        LineError::Value(error) => {
            let _ = write_out(err, error.line(explains).as_bytes());
            REFUSED
        }
    }
}

// What the parser says of a word that begins with a hyphen, up to that, and what is said in its place: its own advice is wrong of
// the value of an option.
const TIP: &str = "  tip: to pass '";

const RIGHT_TIP: &str =
    "  tip: a value that begins with - comes after its option and =, as --text=-x, or after --";

// The text with the right advice.
fn with_right_tip(alloc: Global, text: String) -> Result<String, AllocError> {
    match text.split_once(TIP) {
        Some((before, rest)) => match rest.split_once('\n') {
            Some((_, after)) => format!(in alloc; "{before}{RIGHT_TIP}\n{after}"),
            None => format!(in alloc; "{before}{RIGHT_TIP}"),
        },
        None => Ok(text),
    }
}

// The text's first line with the commit after it, where there is one.
fn with_commit(alloc: Global, text: String, commit: &str) -> Result<String, AllocError> {
    if commit.is_empty() {
        return Ok(text);
    }
    match text.split_once('\n') {
        Some((version, _)) => format!(in alloc; "{version} ({commit})\n"),
        None => Ok(text),
    }
}

// Prints the parser's text, with the commit, where there is one.
fn put_fault<W: Write>(
    alloc: Global,
    fault: &LineError,
    commit: &str,
    out: &mut W,
) -> Result<(), JobError>
    ensures { IfErr result (λ e. RefusesHelp e (W.contents out.old) (W.contents out.new)) }
{
    let text = with_right_tip(alloc, format!(in alloc; "{fault}")?)?;
    let text = with_commit(alloc, text, commit)?;
    match write_out(out, text.as_str().as_bytes()) {
        Ok(()) => Ok(()),
        Err(error) => Err(output_refusal(&error)),
    }
}
