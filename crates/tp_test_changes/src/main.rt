//! Runs rows of data on changes and on what carries them: identifiers, bytes, splices, logs, messages, sync states,
//! exchanges and frames. The rows are calls, and the answers that the rules give. `tp_test_changes FILE..` prints each row
//! that answers otherwise, and how many rows each file has.
#![tactic(auto)]

mod changes;
mod documents;
mod errors;
mod exchanges;
mod frames;
mod identifiers;
mod judges;
mod layouts;
mod logs;
mod messages;
mod parts;
mod pieces;
mod splices;
mod states;
mod streams;
mod world;

use crate::world::World;
use std::process::ExitCode;

fn main(rt: HostRuntime) -> ExitCode {
    let world = World::new(rt.alloc());
    ExitCode::from(tp_test_runner::run(&rt, world))
}
