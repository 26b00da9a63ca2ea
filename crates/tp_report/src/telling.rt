//! What is printed of what was done or refused, on either stream.

ghost use Rattle.std.specs.List.{flat_map};
ghost use Rattle.std.specs.Prelude.{◌≡◌, ◌⊎◌, ◌++◌, Err, IfOk, IfErr, IfSome, OnOk, IsOkAnd, MatchResult};
ghost use Rattle.std.specs.Io.KnownBytes.{Appends, Keeps};
ghost use Rattle.std.specs.String.{string_bytes};
ghost use Rattle.tp_textpeer.specs.Output.{AppendsPart};
ghost use Rattle.tp_report.specs.Names.{WasMade, change_made_line, lines_of_unsaid, output_of_made, refusal_lines};
ghost use Rattle.tp_report.specs.Telling.{applied_text as text_of_applied, GrowsPart, IsLineOf, IsToldOf, Reports, with_cut as text_with_cut};
ghost use Rattle.tp_report.specs.JobError.{IsAllSaid, IsOfOutput, IsOutputFault, refusal_of_update};
ghost use Rattle.tp_report.specs.declared.error.JobError.TheVariants.{Unsaid};

use crate::error::{JobError, Made};
use std::alloc::Global;
use std::io;
use std::io::{ErrorKind, Write};
use tp_commands::{CommandError, UpdateError, hash_line, id_line};
use tp_opid::Hash;
use tp_textpeer::write_out;

/// The exit status of what was done.
pub const DONE: u8 = 0;

/// The exit status of what was refused.
pub const REFUSED: u8 = 1;

/// The exit status of what was done or refused, once the refusal is printed.
pub fn exit_status<E: Write>(alloc: Global, done: Result<(), JobError>, err: &mut E) -> u8
    ensures status { MatchResult done (λ _. result ≡ DONE) (λ _. result ≡ REFUSED) }
    ensures quiet { OnOk done (Keeps (E.contents err.old) (E.contents err.new)) }
    ensures reported { IfErr done
        (λ e. GrowsPart (IsLineOf e) (E.contents err.old) (E.contents err.new)) }
{
    match done {
        Ok(()) => DONE,
        Err(error) => ended_with(alloc, error, "", None, "", err),
    }
}

/// The exit status of what was refused, once the refusal is printed, and where bytes are kept that were cut off the journal at
/// the path, and the note below that. Nothing is printed of an output that whoever read it has closed.
pub fn ended_with<E: Write>(
    alloc: Global,
    error: JobError,
    file: &str,
    cut: Option<u64>,
    note: &str,
    err: &mut E,
) -> u8
    ensures status { result ≡ REFUSED }
    ensures reported { GrowsPart (IsToldOf note.now file.now cut error)
        (E.contents err.old) (E.contents err.new) }
{
    match (error, cut) {
        (JobError::Closed, None) => REFUSED,
        (error, cut) => {
            let _ = tell(alloc, error, file, cut, note, err);
            REFUSED
        }
    }
}

// The text, and the line of where bytes are kept that were cut off the journal.
fn with_cut(
    alloc: Global,
    text: String,
    file: &str,
    cut: Option<u64>,
) -> Result<String, CommandError>
    ensures { IfOk result
        (λ t. string_bytes t ≡ text_with_cut (string_bytes text) file.now cut) }
{
    match cut {
        Some(at) => Ok(format!(in alloc; "{text}cut {file}.cut-{at}\n")?),
        None => Ok(text),
    }
}

/// The line of how many changes entered, where that is given.
pub fn applied_text(alloc: Global, reported: Option<u64>) -> Result<String, CommandError>
    ensures { IfOk result (λ t. string_bytes t ≡ text_of_applied reported) }
{
    match reported {
        Some(applied) => Ok(format!(in alloc; "applied {applied}\n")?),
        None => Ok(String::new(alloc)),
    }
}

// The lines of the report of what was done.
fn report_text(
    alloc: Global,
    file: &str,
    cut: Option<u64>,
    reported: Option<u64>,
) -> Result<String, CommandError>
    ensures { IfOk result
        (λ t. string_bytes t ≡ text_with_cut (text_of_applied reported) file.now cut) }
{
    with_cut(alloc, applied_text(alloc, reported)?, file, cut)
}

/// Says how many changes entered, where that is given, and where bytes are kept that were cut off the journal at the
/// path.
pub fn report<E: Write>(
    alloc: Global,
    file: &str,
    cut: Option<u64>,
    reported: Option<u64>,
    err: &mut E,
)
    ensures { Reports file.now cut reported (E.contents err.old) (E.contents err.new) }
{
    match (cut, reported) {
        (None, None) => {}
        (Some(at), reported) => put_report(alloc, file, Some(at), reported, err),
        (None, Some(applied)) => put_report(alloc, file, None, Some(applied), err),
    }
}

// Writes the lines of the report of what was done, or a beginning of them.
fn put_report<E: Write>(
    alloc: Global,
    file: &str,
    cut: Option<u64>,
    reported: Option<u64>,
    err: &mut E,
)
    ensures { AppendsPart (E.contents err.old) (E.contents err.new)
        (text_with_cut (text_of_applied reported) file.now cut) }
{
    let _ = put(err, report_text(alloc, file, cut, reported));
}

// Writes what is printed of a refusal, or the line of `OutOfMemory` where there is no memory for that.
fn tell<E: Write>(
    alloc: Global,
    error: JobError,
    file: &str,
    cut: Option<u64>,
    note: &str,
    err: &mut E,
) -> io::Result<()>
    ensures { GrowsPart (IsToldOf note.now file.now cut error)
        (E.contents err.old) (E.contents err.new) }
{
    match refusal_line(alloc, error, file, cut, note) {
        Ok(line) => write_out(err, line.as_str().as_bytes()),
        Err(_) => write_out(err, b"textpeer: OutOfMemory\n"),
    }
}

// The line of a refusal, of what was made before it, and of what was cut off, and the note.
fn refusal_line(
    alloc: Global,
    error: JobError,
    file: &str,
    cut: Option<u64>,
    note: &str,
) -> Result<String, CommandError>
    ensures { IfOk result
        (λ l. string_bytes l ≡ text_with_cut (refusal_lines error) file.now cut ++ note.now) }
{
    let mut line = with_cut(alloc, refused_lines(alloc, error)?, file, cut)?;
    line.push_str(note)?;
    Ok(line)
}

// The line of a refusal, and of what was made before it, in whole or in part.
fn refused_lines(alloc: Global, error: JobError) -> Result<String, CommandError>
    ensures { IfOk result (λ l. string_bytes l ≡ refusal_lines error) }
{
    let line = format!(in alloc; "{error}\n")?;
    match error {
        JobError::Unsaid(made) => {
            let lines = unsaid_lines(alloc, &made)?;
            Ok(format!(in alloc; "{line}{lines}")?)
        }
        JobError::HalfWay(_, place) => {
            Ok(format!(in alloc; "{line}the text is new up to character {place}\n")?)
        }
        _ => Ok(line),
    }
}

// The lines that say what was made.
fn unsaid_lines(alloc: Global, made: &Made) -> Result<String, CommandError>
    ensures { IfOk result (λ l. string_bytes l ≡ lines_of_unsaid made.now) }
{
    match made {
        Made::Document(id) => {
            let name = id_line(alloc, id)?;
            Ok(format!(in alloc; "made {name}")?)
        }
        Made::Change(hash) => made_change(alloc, hash),
        Made::Changes(hashes) => made_changes(alloc, hashes),
    }
}

// The line that says of a change that it was made.
fn made_change(alloc: Global, hash: &Hash) -> Result<String, CommandError>
    ensures { IfOk result (λ l. string_bytes l ≡ change_made_line hash.now) }
{
    let name = hash_line(alloc, hash)?;
    Ok(format!(in alloc; "made {name}")?)
}

// The lines that say of changes that they were made.
fn made_changes(alloc: Global, hashes: &[Hash]) -> Result<String, CommandError>
    ensures { IfOk result (λ l. string_bytes l ≡ flat_map change_made_line hashes.now) }
{
    let mut lines = String::new(alloc);
    for hash in hashes {
        lines.push_str(made_change(alloc, hash)?.as_str())?;
    }
    Ok(lines)
}

/// The refusal where the output failed.
pub fn output_refusal(error: &io::Error) -> JobError
    ensures output { IsOutputFault result }
    ensures said { IsAllSaid result }
{
    match error.kind() {
        ErrorKind::BrokenPipe => JobError::Closed,
        _ => JobError::Command(CommandError::Io),
    }
}

/// Writes what is printed of what was done, and flushes.
pub fn put<W: Write>(out: &mut W, printed: Result<String, CommandError>) -> Result<(), JobError>
    ensures ok { OnOk result (IsOkAnd printed
        (λ text. Appends (W.contents out.old) (W.contents out.new) (string_bytes text))) }
    ensures err { IfErr result (λ e. Keeps (W.contents out.old) (W.contents out.new)
        ⊎ (IsOfOutput e × IsOkAnd printed
        (λ text. AppendsPart (W.contents out.old) (W.contents out.new) (string_bytes text)))) }
    ensures said { IfErr result IsAllSaid }
{
    match printed {
        Ok(text) => match write_out(out, text.as_str().as_bytes()) {
            Ok(()) => Ok(()),
            Err(error) => Err(output_refusal(&error)),
        },
        Err(error) => Err(JobError::Command(error)),
    }
}

/// Writes the lines of what was made, as `put` does. Where that fails, the refusal has what was made.
pub fn put_made<W: Write>(
    out: &mut W,
    printed: Result<(String, Option<Made>), CommandError>,
) -> Result<(), JobError>
    requires { IfOk printed (λ p. IfSome p.1 (λ made. string_bytes p.0 ≡ output_of_made made)) }
    ensures ok { OnOk result (IsOkAnd printed
        (λ p. Appends (W.contents out.old) (W.contents out.new) (string_bytes p.0))) }
    ensures err { IfErr result (λ e. Keeps (W.contents out.old) (W.contents out.new)
        ⊎ (IsOfOutput e × IsOkAnd printed
        (λ p. AppendsPart (W.contents out.old) (W.contents out.new) (string_bytes p.0)))) }
    ensures unsaid { IfErr result
        (WasMade (λ l. IsOkAnd printed (λ p. string_bytes p.0 ≡ l))) }
    ensures tells { IfErr result
        (λ e. IfOk printed (λ p. IfSome p.1 (λ made. e ≡ Unsaid made))) }
{
    match printed {
        Ok((text, made)) => match write_out(out, text.as_str().as_bytes()) {
            Ok(()) => Ok(()),
            Err(error) => Err(match made {
                Some(made) => JobError::Unsaid(made),
                None => output_refusal(&error),
            }),
        },
        Err(error) => Err(JobError::Command(error)),
    }
}

/// Writes the lines of the changes that made a text another one, as `put_made` does. Where some were made before one was refused,
/// the refusal has the place up to where the text is new.
pub fn put_updated<W: Write>(
    out: &mut W,
    printed: Result<(String, Option<Made>), UpdateError>,
) -> Result<(), JobError>
    requires { IfOk printed (λ p. IfSome p.1 (λ made. string_bytes p.0 ≡ output_of_made made)) }
    ensures ok { OnOk result (IsOkAnd printed
        (λ p. Appends (W.contents out.old) (W.contents out.new) (string_bytes p.0))) }
    ensures err { IfErr result (λ e. Keeps (W.contents out.old) (W.contents out.new)
        ⊎ (IsOfOutput e × IsOkAnd printed
        (λ p. AppendsPart (W.contents out.old) (W.contents out.new) (string_bytes p.0)))) }
    ensures unsaid { IfErr result
        (WasMade (λ l. IsOkAnd printed (λ p. string_bytes p.0 ≡ l))) }
    ensures tells { IfErr result
        (λ e. IfOk printed (λ p. IfSome p.1 (λ made. e ≡ Unsaid made))) }
    ensures refused { IfErr printed (λ e. result ≡ Err (refusal_of_update e)) }
{
    match printed {
        Ok(printed) => put_made(out, Ok(printed)),
        Err(error) => Err(JobError::from(error)),
    }
}
