//! Runs rows of data on peers: their journals and links, sessions of theirs, and peers that are served. The rows are
//! calls, and the answers that the rules give. `tp_test_peers FILE..` prints each row that answers otherwise, and how many
//! rows each file has.
#![tactic(auto)]

mod answers;
mod cursors;
mod edits;
mod errors;
mod links;
mod meeting;
mod parts;
mod peers;
mod reads;
mod running;
mod seated;
mod serving;
mod table;
mod world;

use crate::world::World;
use std::process::ExitCode;

fn main(rt: HostRuntime) -> ExitCode {
    let world = World::new(rt.alloc());
    ExitCode::from(tp_test_runner::run(&rt, world))
}
