//! The program, but for its `main`.

ghost use Rattle.std.specs.Prelude.{◌≡◌, ◌≤◌, ◌⊎◌, ℕ, List, map, Err, IfErr, IfOk, MatchResult, None, Ok, OnErr, OnOk, Option};
ghost use Rattle.std.specs.Io.KnownBytes.{Keeps};
ghost use Rattle.clap.specs.Words.{fault_of};
ghost use Rattle.tp_command_line.specs.Asking.{job_words};
ghost use Rattle.tp_command_line.specs.Commands.{subject_of, textpeer_app};
ghost use Rattle.tp_command_line.specs.LineError.{MayBeDone};
ghost use Rattle.tp_report.specs.declared.error.JobError.{JobError as Refusal};
ghost use Rattle.tp_program.specs.Output.{CutsForJob, IsJobOutput, RefusesOutput, MayCutForJob, ReportsEarly, ReportsApplied, WasHeld, side_of};
ghost use Rattle.tp_report.specs.Telling.{GrowsBy, GrowsPart, IsToldOf, Reports};
ghost use Rattle.tp_program.specs.Words.{IsDone, RefusesJob, WasDone, RefusesHelpOrJob, WasUnread, WereAtFault, as_streams};
ghost use Rattle.tp_report.specs.Notes.{IsNote};

use crate::explaining::{Errors, MISUSED, explain};
use crate::running::carry_out;
use std::convert::AsStr;
use std::io::{Read, Write};
use std::net::Net;
use std::rt::Env;
use std::sync::Wait;
use std::thread::Threads;
use std::time::{Clock, Duration};
use std::{env, io};
use tp_command_line::{Job, Subject, Wanted, line, words_asked};
use tp_commands::CommandError;
use tp_disk::{Disk, is_cut};
use tp_mirror::Take;
use tp_online::{
    Following, Keeping, Noted, Serving, follow_file, keep_mirror, serve_file, session_file,
    share_mirror, sync_file, web_file,
};
use tp_report::{DONE, JobError, REFUSED, Shown, ended_with, exit_status, note, note_text, report};
use tp_session::Role;

/// Which of the standard streams are terminals.
#[derive(Clone, Copy)]
pub struct Terminals {
    /// The standard output.
    pub output: bool,
    /// The standard error.
    pub errors: bool,
}

/// Does what the process's own words ask for, and returns the exit status, as [`run_words`] does. Words that can't be
/// read, as those that are no UTF-8, are refused as `textpeer: Io`.
pub fn run<
    R: Env + Disk + Net + Threads + Wait + Clock + Input + Print + Eprint + AllocGlobal + Sync,
>(rt: &R, commit: &str, terminals: Terminals) -> u8
where
    R::File: Send,
    R::New: Send,
    R::Listener: Sync,
    R::Stream: Send,
    ensures { result ≤ MISUSED }
{
    match own_words(rt) {
        Ok(words) => run_words(rt, words.as_slice(), commit, terminals),
        Err(error) => exit_status(
            rt.alloc(),
            Err(JobError::Command(CommandError::from(error))),
            &mut io::writer(&Errors { rt }),
        ),
    }
}

// Whether the words ask for a session, which writes frames.
fn is_session<S: AsStr>(words: &[S]) -> bool {
    match words.get(1) {
        Some(word) => word.as_str() == "session",
        None => false,
    }
}

fn own_words<R: Env + AllocGlobal>(rt: &R) -> io::Result<Vec<String>> {
    Ok(env::args(rt)?.collect(rt.alloc())?)
}

/// Does what the words ask for, where the first is the program's name, and returns the exit status: 0 where it was
/// done, as for `--help`; 1 where it was refused, with a line on the standard error, as [`JobError`] prints it, and a second
/// one where something was made whose line couldn't be printed; 2 where the words are at fault, with the parser's text on the
/// standard error, or the line of an edit with not one text. `--explain` and `help` are read before, as [`words_asked`] says.
/// Where a stream is a terminal, control characters other than newline and tab are shown there as Rust escapes them, but in the
/// frames of `session`; where the standard error is one, and with `--explain`, refusals are explained. `--version` prints the
/// commit that the program is a release of after its number; it is empty where it is none.
pub fn run_words<
    R: Disk + Net + Threads + Wait + Clock + Input + Print + Eprint + AllocGlobal + Sync,
    S: AsStr,
>(rt: &R, words: &[S], commit: &str, terminals: Terminals) -> u8
where
    R::File: Send,
    R::New: Send,
    R::Listener: Sync,
    R::Stream: Send,
    ensures status { result ≤ MISUSED }
    ensures done { result ≡ DONE
        → MayBeDone (fault_of textpeer_app (job_words (map S.text words.now))) }
    ensures misused { result ≡ MISUSED → WereAtFault (job_words (map S.text words.now)) }
{
    let errors = Errors { rt };
    let mut err = Shown::new(rt.alloc(), io::writer(&errors), terminals.errors);
    match words_asked(rt.alloc(), words) {
        Ok(asked) => {
            let is_shown = terminals.output && !is_session(&asked.words);
            run_words_on(
                rt,
                &asked.words,
                commit,
                asked.explains || terminals.errors,
                &mut rt.reader(),
                &mut Shown::new(rt.alloc(), io::writer(rt), is_shown),
                &mut err,
            )
        }
        Err(error) => exit_status(rt.alloc(), Err(JobError::from(error)), &mut err),
    }
}

/// Does what [`run_words`] does, with a reader for the standard input, and writers for the standard output and the
/// standard error.
pub fn run_words_on<
    R: Disk + Net + Threads + Wait + Clock + Eprint + AllocGlobal + Sync,
    S: AsStr,
    I: Read,
    W: Write,
    E: Write,
>(rt: &R, words: &[S], commit: &str, explains: bool, input: &mut I, out: &mut W, err: &mut E) -> u8
where
    R::File: Send,
    R::New: Send,
    R::Listener: Sync,
    R::Stream: Send,
    ensures status { result ≤ MISUSED }
    // What was done prints nothing on the standard error, but for what is reported of it.
    ensures done { result ≡ DONE → (file : List ℕ) × (cut : Option ℕ) × (reported : Option ℕ)
        × (mid : Option (List ℕ)) × Reports file cut reported mid (E.contents err.new)
        × WasDone (R.saw rt.now) (map S.text words.now) file cut reported
        (as_streams (E.contents err.old) mid (W.contents out.old) (W.contents out.new)) }
    // What is reported of what was refused is there, or a beginning of it.
    ensures refused { result ≡ REFUSED → WasUnread (map S.text words.now) explains
        (E.contents err.old) (E.contents err.new) (W.contents out.old) (W.contents out.new)
        ⊎ ((note : List ℕ) × (file : List ℕ) × (cut : Option ℕ) × (e : Refusal)
        × (mid : Option (List ℕ))
        × GrowsPart (IsToldOf note file cut e) mid (E.contents err.new)
        × RefusesHelpOrJob (R.saw rt.now) (map S.text words.now) explains note file cut e
        (as_streams (E.contents err.old) mid (W.contents out.old) (W.contents out.new))) }
    // Words at fault print nothing on the standard output.
    ensures misused { result ≡ MISUSED → WereAtFault (map S.text words.now)
        × Keeps (W.contents out.old) (W.contents out.new) }
{
    match line(rt.alloc(), words) {
        Ok(Wanted { job, wait }) => {
            run_job(rt, job, wait.unwrap_or(0), explains, input, out, err)
        }
        Err(fault) => explain(rt.alloc(), &fault, commit, explains, out, err),
    }
}

/// Does a job, and returns the exit status: 0 where it was done, and all that is printed of it was written to `out` and
/// flushed; 1 where it was refused, with one line on `err`. `out` then has what was printed before; where `err` fails it has
/// taken a beginning of the line. The lock of a journal that is written is waited for `wait` seconds.
#[tactic(auto, using(crate::proofs::CutLaws::said_or_not))]
pub fn run_job<
    R: Disk + Net + Threads + Wait + Clock + Eprint + AllocGlobal + Sync,
    I: Read,
    W: Write,
    E: Write,
>(rt: &R, job: Job, wait: u64, explains: bool, input: &mut I, out: &mut W, err: &mut E) -> u8
where
    R::File: Send,
    R::New: Send,
    R::Listener: Sync,
    R::Stream: Send,
    ensures status { result ≤ REFUSED }
    ensures done { result ≡ DONE → (cut : Option ℕ) × (reported : Option ℕ)
        × (mid : Option (List ℕ))
        × Reports (subject_of job.entry).file.now cut reported mid (E.contents err.new)
        × IsDone (R.saw rt.now) job.entry cut reported
        (as_streams (E.contents err.old) mid (W.contents out.old) (W.contents out.new)) }
    ensures refused { result ≡ REFUSED → (note : List ℕ) × (cut : Option ℕ) × (e : Refusal)
        × (mid : Option (List ℕ)) × IsNote explains (subject_of job.entry) e note
        × GrowsPart (IsToldOf note (subject_of job.entry).file.now cut e) mid (E.contents err.new)
        × RefusesJob (R.saw rt.now) job.entry cut e
        (as_streams (E.contents err.old) mid (W.contents out.old) (W.contents out.new)) }
{
    let subject = job.subject();
    let mut cut = None;
    match do_job(rt, job, wait, input, out, err, &mut cut) {
        Ok(reported) => {
            report(rt.alloc(), subject.file, cut, reported, err);
            DONE
        }
        Err(error) => refused_with(rt, error, explains, &subject, cut, err),
    }
}

// From which offset on bytes are cut off the journal at the path, where these are kept. Opening it kept them, and it may
// have been refused before they were cut off.
fn cut_off<D: Disk + AllocGlobal>(rt: &D, file: &str, cut: Option<u64>) -> Option<u64>
    ensures { (result ≡ None) ⊎ (result ≡ cut) }
{
    match cut {
        Some(at) if is_cut(rt, file, at) => Some(at),
        _ => None,
    }
}

/// The exit status of a job that was refused, once that is printed: the refusal, where bytes are kept that are cut off its
/// journal, and what explains it.
#[tactic(auto, using(crate::proofs::NoteLaws::noted))]
pub fn refused_with<D: Disk + AllocGlobal, E: Write>(
    rt: &D,
    error: JobError,
    explains: bool,
    subject: &Subject<'_>,
    cut: Option<u64>,
    err: &mut E,
) -> u8
    ensures status { result ≡ REFUSED }
    ensures reported { (note : List ℕ) × (off : Option ℕ)
        × ((off ≡ None) ⊎ (off ≡ cut)) × IsNote explains subject.now error note
        × GrowsPart (IsToldOf note subject.now.file.now off error)
        (E.contents err.old) (E.contents err.new) }
{
    let note = note(rt, explains, subject, &error);
    let off = cut_off(rt, subject.file, cut);
    ended_with(rt.alloc(), error, subject.file, off, note_text(&note), err)
}

// Does a job, and writes what is printed of it. Answers what is reported of it beside that. A session is held as the
// side that was asked for.
fn do_job<
    R: Disk + Net + Threads + Wait + Clock + Eprint + AllocGlobal + Sync,
    I: Read,
    W: Write,
    E: Write,
>(
    rt: &R,
    job: Job,
    wait: u64,
    input: &mut I,
    out: &mut W,
    err: &mut E,
    cut: &mut Option<u64>,
) -> Result<Option<u64>, JobError>
where
    R::File: Send,
    R::New: Send,
    R::Listener: Sync,
    R::Stream: Send,
    requires { cut.old ≡ None }
    ensures cuts { OnOk result
        (CutsForJob (R.saw rt.now) job.entry cut.new) }
    ensures may_cut { OnErr result
        (MayCutForJob (R.saw rt.now) job.entry cut.new) }
    ensures early { ReportsEarly (R.saw rt.now) job.entry
        (E.contents err.old) (E.contents err.new) }
    ensures tells { IfOk result (ReportsApplied job.entry) }
    ensures held { IfOk result (WasHeld (R.saw rt.now) job.entry) }
    ensures prints { OnOk result
        (GrowsBy (IsJobOutput (R.saw rt.now) job.entry)
        (W.contents out.old) (W.contents out.new)) }
    ensures err { IfErr result (λ e. RefusesOutput (R.saw rt.now) job.entry (W.contents out.old)
        e (W.contents out.new)) }
{
    match job {
        Job::Files(job) => without_value(carry_out(rt, job, wait, input, out, cut)),
        Job::Serve {
            file,
            addr,
            sessions,
            workers,
            patience,
            is_verbose,
            note,
            take,
            key,
        } => {
            let how = Serving {
                sessions,
                workers: workers.clamp(1, 64) as usize,
                patience: patience_of(patience),
                is_verbose,
                wait,
            };
            without_value(serve_file(
                rt,
                file,
                addr,
                &how,
                &noted_of(note, take),
                key,
                out,
                err,
                cut,
            ))
        }
        Job::Session {
            file,
            is_client,
            key,
        } => match session_file(rt, file, role_of(is_client), key, wait, input, out, cut) {
            Ok(met) => Ok(Some(met.applied)),
            Err(error) => Err(error),
        },
        Job::Sync {
            file,
            addr,
            patience,
            key,
        } => match sync_file(rt, file, addr, patience_of(patience), key, wait, out, cut) {
            Ok(_) => Ok(None),
            Err(error) => Err(error),
        },
        Job::Follow {
            file,
            addr,
            every,
            sessions,
            patience,
            key,
        } => {
            let how = Following {
                addr,
                every: Duration::from_secs(every),
                patience: patience_of(patience),
                wait,
            };
            without_value(follow_file(rt, file, &how, sessions, key, out, err, cut))
        }
        Job::Keep {
            file,
            note,
            take,
            every,
            key,
        } => {
            let how = Keeping {
                note,
                take,
                every: Duration::from_secs(every),
                wait,
            };
            Err(keep_mirror(rt, file, &how, key, err, cut))
        }
        Job::Share {
            file,
            note,
            take,
            addr,
            every,
            sessions,
            patience,
            key,
        } => {
            let how = Keeping {
                note,
                take,
                every: Duration::from_secs(every),
                wait,
            };
            let server = Following {
                addr,
                every: Duration::from_secs(every),
                patience: patience_of(patience),
                wait,
            };
            without_value(share_mirror(rt, file, &how, &server, sessions, key, out, err, cut))
        }
        Job::Web {
            file,
            hosting,
            note,
            take,
            key,
        } => without_value(web_file(
            rt,
            file,
            hosting,
            &noted_of(note, take),
            key,
            wait,
            out,
            err,
            cut,
        )),
    }
}

// The text file that is kept in step with a journal that is served, where one is given.
fn noted_of(note: Option<&str>, take: Option<Take>) -> Option<Noted<'_>> {
    match note {
        Some(note) => Some(Noted { note, take }),
        None => None,
    }
}

// The patience of `seconds`; where they are 0 it has no bound.
fn patience_of(seconds: u64) -> Option<Duration> {
    match seconds {
        0 => None,
        seconds => Some(Duration::from_secs(seconds)),
    }
}

// The side of a session.
fn role_of(is_client: bool) -> Role
    ensures { result ≡ side_of is_client }
{
    if is_client {
        Role::Client
    } else {
        Role::Server
    }
}

// Whether it was done, without what it gave back.
fn without_value<T: Drop>(outcome: Result<T, JobError>) -> Result<Option<u64>, JobError>
    ensures { MatchResult outcome (λ _. result ≡ Ok None) (λ e. result ≡ Err e) }
{
    match outcome {
        Ok(_) => Ok(None),
        Err(error) => Err(error),
    }
}
