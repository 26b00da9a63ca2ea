//! Files of rows.

use crate::calls::Calls;
use crate::fault::Fault;
use crate::rows::{Outcome, Runner};
use std::rt::{Env, Files};
use std::{env, fs, io};

/// How many rows ran, and how many of them answered otherwise.
#[derive(Clone, Copy, Drop)]
struct Count {
    rows: u64,
    differ: u64,
}

/// Why a file wasn't run to its end.
#[derive(Drop)]
enum Stop {
    /// It can't be read, or nothing can be printed.
    Io(io::Error),
    /// There was no memory for a row.
    Memory,
}

impl From<io::Error> for Stop {
    fn from(e: io::Error) -> Stop {
        Stop::Io(e)
    }
}

// Prints what became of a row, where it isn't as it is wanted; whether it is.
fn tell<R: Print>(
    rt: &R,
    file: &str,
    number: u64,
    line: &str,
    outcome: Outcome,
) -> Result<bool, Stop> {
    match outcome {
        Outcome::AsWanted => Ok(true),
        Outcome::Differs(answer) => {
            println!(rt; "{file}:{number}: {line}, but it answers {answer}")?;
            Ok(false)
        }
        Outcome::Fault(Fault::Memory) => Err(Stop::Memory),
        Outcome::Fault(fault) => {
            println!(rt; "{file}:{number}: {line}: {fault}")?;
            Ok(false)
        }
    }
}

// Runs a line of a file: a comment, the begin of an example, which forgets what the one before it made, or a row.
fn run_line<R: Print, C: Calls>(
    rt: &R,
    runner: &mut Runner<C>,
    count: &mut Count,
    file: &str,
    number: u64,
    line: &str,
) -> Result<(), Stop> {
    if line.is_empty() || line.starts_with('#') {
        return Ok(());
    }
    if line.starts_with("example ") {
        runner.clear();
        return Ok(());
    }
    let is_well = tell(rt, file, number, line, runner.outcome_of(line))?;
    count.rows = count.rows.wrapping_add(1);
    count.differ = count.differ.wrapping_add(u64::from(!is_well));
    Ok(())
}

// Runs the rows of a file.
fn run_file<R: Files + Print + AllocGlobal, C: Calls>(
    rt: &R,
    runner: &mut Runner<C>,
    file: &str,
) -> Result<Count, Stop> {
    let text = fs::read_to_string(rt, file)?;
    let mut count = Count { rows: 0, differ: 0 };
    let mut number = 0u64;
    runner.begin(file);
    for line in text.as_str().lines() {
        number = number.wrapping_add(1);
        run_line(rt, runner, &mut count, file, number, line)?;
    }
    Ok(count)
}

// Runs the files, and says how many rows each has; whether each row answered as it is wanted to.
fn run_files<R: Files + Print + AllocGlobal, C: Calls>(
    rt: &R,
    runner: &mut Runner<C>,
    files: &[String],
) -> Result<bool, Stop> {
    let mut is_well = true;
    for file in files {
        let count = run_file(rt, runner, file.as_str())?;
        let (rows, differ) = (count.rows, count.differ);
        println!(rt; "{file}: {rows} rows, {differ} differ")?;
        is_well = is_well && differ == 0;
    }
    Ok(is_well)
}

// The exit status; `is_refused` says that a call was refused memory, and made again.
fn status(ran: Result<bool, Stop>, is_refused: bool) -> u8 {
    match ran {
        Ok(true) if is_refused => 3,
        Ok(is_well) => u8::from(!is_well && !is_refused),
        Err(Stop::Io(error)) if error.kind() == io::ErrorKind::OutOfMemory => 4,
        Err(Stop::Io(_)) => 2,
        Err(Stop::Memory) => 4,
    }
}

/// Runs the files of rows that the command line names. Prints each row that answers otherwise, and how many rows each
/// file has.
///
/// Answers the exit status: 0 where each row answered as it is wanted to; 1 where one didn't; 2 where a file can't be
/// read; 3 where a call was refused memory, and each row answered as it is wanted to when the call was made again; 4
/// where there was no memory for a row itself. Where a call was refused and a row then answered otherwise it is 0, so
/// that a search through all growths shows the run.
pub fn run<R: Env + Files + Print + AllocGlobal, C: Calls>(rt: &R, calls: C) -> u8 {
    let Ok(words) = env::args(rt) else {
        return 4;
    };
    let Ok(words) = words.collect::<Vec<String>>(rt.alloc()) else {
        return 4;
    };
    let mut runner = Runner::new(rt.alloc(), calls);
    let ran = run_files(rt, &mut runner, words.get(1..).unwrap_or(&[]));
    status(ran, runner.is_refused())
}
