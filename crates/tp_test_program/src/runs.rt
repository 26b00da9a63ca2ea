//! Calls that run a command line.

ghost use Rattle.std.specs.Prelude.{◌≡◌, None};

use crate::answers::Ran;
use crate::budget::Budget;
use crate::folder::{Entry, entries_of, fault, put_changes, restore};
use crate::host::Host;
use crate::lines::command_line;
use crate::paths::inside;
use crate::stream::Stream;
use crate::world::World;
use std::fs::File;
use std::io::ErrorKind;
use std::rt::Files;
use std::time::Clock;
use std::{fs, io};
use tp_command_line::{Job, Wanted, line, words_asked};
use tp_commands::CommandError;
use tp_journal::Lockable;
use tp_program::{Errors, carry_out, explain, refused_with};
use tp_report::{DONE, JobError, exit_status, report};
use tp_test_runner::{Fault, Words, number};

// A command whose device fails later than this succeeds first.
const MOST_CALLS: u64 = 200;

/// How many calls of a run succeed, of each kind.
#[derive(Clone, Copy, Drop)]
struct Limits {
    out: u64,
    closed: u64,
    err: u64,
    device: u64,
}

fn limit(words: &mut Words, key: &str) -> Result<u64, Fault> {
    match words.option(key) {
        Some(word) => number(word),
        None => Ok(u64::MAX),
    }
}

// `[out=N] [closed=N] [err=N] [device=N]`: the standard output, the standard error or the files fail after `N` calls,
// or who reads the standard output has closed it.
fn limits_of(words: &mut Words) -> Result<Limits, Fault> {
    Ok(Limits {
        out: limit(words, "out")?,
        closed: limit(words, "closed")?,
        err: limit(words, "err")?,
        device: limit(words, "device")?,
    })
}

// Does a job that needs no network; one that needs it is refused as `Io`.
fn run_job<R: Files + Clock + Print + AllocGlobal>(
    rt: &R,
    job: Job,
    wait: u64,
    input: &mut &[u8],
    cut: &mut Option<u64>,
) -> Result<(), JobError>
where
    R::File: Lockable,
    requires { cut.old ≡ None }
{
    match job {
        Job::Files(job) => carry_out(rt, job, wait, input, &mut io::writer(rt), cut),
        _ => Err(JobError::Command(CommandError::Io)),
    }
}

// The program, as far as it needs no network, with what the standard input gives: the exit status.
fn run_program<R: Files + Clock + Print + Eprint + AllocGlobal>(
    rt: &R,
    words: &[String],
    input: &[u8],
) -> u8
where
    R::File: Lockable,
{
    let errors = Errors { rt };
    let mut err = io::writer(&errors);
    let asked = match words_asked(rt.alloc(), words) {
        Ok(asked) => asked,
        Err(error) => return exit_status(rt.alloc(), Err(JobError::from(error)), &mut err),
    };
    let explains = asked.explains;
    match line(rt.alloc(), &asked.words) {
        Ok(Wanted { job, wait }) => {
            let subject = job.subject();
            let mut cut = None;
            let mut rest = input;
            match run_job(rt, job, wait.unwrap_or(0), &mut rest, &mut cut) {
                Ok(()) => {
                    report(rt.alloc(), subject.file, cut, None, &mut err);
                    DONE
                }
                Err(error) => refused_with(rt, error, explains, &subject, cut, &mut err),
            }
        }
        Err(fault) => explain(
            rt.alloc(),
            &fault,
            "",
            explains,
            &mut io::writer(rt),
            &mut err,
        ),
    }
}

// The calls that the standard output answers.
fn output_budget(limits: Limits) -> Budget {
    if limits.closed < limits.out {
        Budget::failing(limits.closed, ErrorKind::BrokenPipe)
    } else {
        Budget::new(limits.out)
    }
}

// Runs the program.
fn run_line<R: Files<File = File> + AllocGlobal>(
    rt: &R,
    limits: Limits,
    line: &[String],
    input: &[u8],
) -> Result<Ran, Fault> {
    let device = Budget::new(limits.device);
    let room = Budget::new(u64::MAX);
    let host = Host {
        rt,
        device: &device,
        room: &room,
        out: Stream::new(rt.alloc(), output_budget(limits))?,
        err: Stream::new(rt.alloc(), Budget::new(limits.err))?,
    };
    let status = run_program(&host, line, input);
    Ok(Ran {
        status,
        out: host.out.text(rt.alloc())?,
        err: host.err.text(rt.alloc())?,
    })
}

// Runs the program over the entries. Where it is refused memory, the folder holds these again.
fn run_over<R: Files<File = File> + AllocGlobal>(
    rt: &R,
    limits: Limits,
    line: &[String],
    input: &[u8],
    before: &[Entry],
) -> Result<Ran, Fault> {
    let ran = run_line(rt, limits, line, input)?;
    if ran.is_refused() {
        restore(rt, before)?;
        return Err(Fault::Refused);
    }
    Ok(ran)
}

// The exit status, both texts or which streams have one, and the files that changed.
fn answer_of<R: Files<File = File> + AllocGlobal + Clone + Drop>(
    world: &World<R>,
    ran: &Ran,
    before: &[Entry],
    has_texts: bool,
) -> Result<String, Fault> {
    let mut answer = String::new(world.rt.alloc());
    if has_texts {
        ran.put_texts(&world.names, &mut answer)?;
    } else {
        ran.put_streams(&mut answer)?;
    }
    put_changes(&mut answer, before, &entries_of(world.rt)?)?;
    Ok(answer)
}

fn run_and_keep<R: Files<File = File> + AllocGlobal + Clone + Drop>(
    world: &mut World<R>,
    limits: Limits,
    line: &[String],
    input: &[u8],
    has_texts: bool,
) -> Result<String, Fault> {
    let before = entries_of(world.rt)?;
    let ran = run_over(world.rt, limits, line, input, &before)?;
    let answer = answer_of(world, &ran, &before, has_texts)?;
    world.ran = Some(ran);
    Ok(answer)
}

// `[in=NAME]`: what the standard input gives is in the file; nothing where none is named.
fn input_of<R: Files<File = File> + AllocGlobal>(
    world: &World<R>,
    words: &mut Words,
) -> Result<Vec<u8>, Fault> {
    match words.option("in") {
        Some(name) => {
            let path = inside(world.rt.alloc(), name)?;
            match fs::read(world.rt, path.as_str()) {
                Ok(bytes) => Ok(bytes),
                Err(error) => Err(fault(&error)),
            }
        }
        None => Ok(Vec::new(world.rt.alloc())),
    }
}

// `run [out=N] [err=N] [device=N] [in=NAME] WORD..`: the exit status, both texts, and the files that changed; `streams ..`: the
// exit status, the streams that have a text, and the files that changed.
fn run<R: Files<File = File> + AllocGlobal + Clone + Drop>(
    world: &mut World<R>,
    words: &mut Words,
    has_texts: bool,
) -> Result<String, Fault> {
    let limits = limits_of(words)?;
    let input = input_of(world, words)?;
    let line = command_line(&world.names, words.rest())?;
    run_and_keep(world, limits, &line, &input, has_texts)
}

// The file, with its lock.
fn lock_file<R: Files<File = File> + AllocGlobal>(rt: &R, name: &str) -> Result<File, Fault> {
    let path = inside(rt.alloc(), name)?;
    let file = match fs::open(rt, path.as_str()) {
        Ok(file) => file,
        Err(error) => return Err(fault(&error)),
    };
    match file.take_lock() {
        Ok(true) => Ok(file),
        _ => Err(Fault::Row("the lock of a file of the row isn't free")),
    }
}

// `beside NAME WORD..`: what `run` answers while another has the lock of the file.
fn run_beside<R: Files<File = File> + AllocGlobal + Clone + Drop>(
    world: &mut World<R>,
    words: &mut Words,
) -> Result<String, Fault> {
    let file = lock_file(world.rt, words.next()?)?;
    let answer = run(world, words, true);
    drop(file);
    answer
}

// What a run answers whose device fails after `calls` calls; whether it was done.
fn run_failing<R: Files<File = File> + AllocGlobal + Clone + Drop>(
    world: &World<R>,
    calls: u64,
    line: &[String],
    before: &[Entry],
) -> Result<(bool, String), Fault> {
    let limits = Limits {
        out: u64::MAX,
        closed: u64::MAX,
        err: u64::MAX,
        device: calls,
    };
    let ran = run_over(world.rt, limits, line, &[], before)?;
    let answer = answer_of(world, &ran, before, true)?;
    restore(world.rt, before)?;
    Ok((ran.status == 0, answer))
}

// What is answered where the files fail from their first call on, from the second on, and so on, until the command is
// done.
fn answers<R: Files<File = File> + AllocGlobal + Clone + Drop>(
    world: &World<R>,
    line: &[String],
    before: &[Entry],
) -> Result<String, Fault> {
    let mut answers = String::new(world.rt.alloc());
    let mut last = String::new(world.rt.alloc());
    for calls in 0..MOST_CALLS {
        let (is_done, answer) = run_failing(world, calls, line, before)?;
        if answer.as_str() != last.as_str() {
            put_answer(&mut answers, answer.as_str())?;
            last = answer;
        }
        if is_done {
            break;
        }
    }
    Ok(answers)
}

// `device_fails WORD..`: like answers that follow one another once. The files are then as they were.
fn device_fails<R: Files<File = File> + AllocGlobal + Clone + Drop>(
    world: &World<R>,
    words: &mut Words,
) -> Result<String, Fault> {
    let line = command_line(&world.names, words.rest())?;
    let before = entries_of(world.rt)?;
    answers(world, &line, &before)
}

fn put_answer(answers: &mut String, answer: &str) -> Result<(), Fault> {
    if !answers.is_empty() {
        answers.push_str("; ")?;
    }
    Ok(answers.push_str(answer)?)
}

/// Makes a call that runs a command line; `None` where the word is none of these.
pub fn call<R: Files<File = File> + AllocGlobal + Clone + Drop>(
    world: &mut World<R>,
    word: &str,
    words: &mut Words,
) -> Option<Result<String, Fault>> {
    match word {
        "run" => Some(run(world, words, true)),
        "streams" => Some(run(world, words, false)),
        "beside" => Some(run_beside(world, words)),
        "device_fails" => Some(device_fails(world, words)),
        _ => None,
    }
}
