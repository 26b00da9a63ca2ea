//! Runs rows of data on the program: command lines, and what each one prints, how it ends and which files it changes; in
//! files whose names begin with `script_`, the lines of scripts, and what is printed of each by the rules.
//! `tp_test_program FILE..` prints each row that answers otherwise, and how many rows each file has.
#![tactic(auto)]

mod answers;
mod budget;
mod device;
mod files;
mod folder;
mod host;
mod journals;
mod lines;
mod locks;
mod paths;
mod printed;
mod program;
mod runs;
mod script;
mod stream;
mod world;

use crate::program::Program;
use std::process::ExitCode;

fn main(rt: HostRuntime) -> ExitCode {
    let status = tp_test_runner::run(&rt, Program::new(&rt));
    folder::remove(&rt);
    ExitCode::from(status)
}
