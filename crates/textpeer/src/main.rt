//! The program `textpeer`.
#![tactic(auto)]

use std::io::IsTerminal;
use std::process::ExitCode;
use tp_program::Terminals;

// The short hash of the commit that a release is made of. `tools/dist` writes it into the clone in which it makes one.
const COMMIT: &str = "";

fn main(rt: HostRuntime) -> ExitCode {
    let terminals = Terminals {
        output: rt.stdout().is_terminal(),
        errors: rt.stderr().is_terminal(),
    };
    ExitCode::from(tp_program::run(&rt, COMMIT, terminals))
}
