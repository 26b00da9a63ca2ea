//! Runs rows of data on graphs, documents, receiving, saved files and journals: calls, and the answers that the rules
//! give. `tp_test_documents FILE..` prints each row that answers otherwise, and how many rows each file has. It runs them
//! all twice: first with the texts in plain sequences, and then in sequences of blocks.
#![tactic(auto)]

mod blocks;
mod cursors;
mod differences;
mod documents;
mod edits;
mod elements;
mod errors;
mod graphs;
mod history;
mod lists;
mod orders;
mod receiving;
mod restored;
mod saved;
mod world;

use crate::world::World;
use std::process::ExitCode;
use tp_posindex::BlockSequence;
use tp_rga::PlainSequence;

fn main(rt: HostRuntime) -> ExitCode {
    let plain: World<PlainSequence> = World::new(rt.alloc());
    let status = tp_test_runner::run(&rt, plain);
    if status != 0 {
        return ExitCode::from(status);
    }
    let blocks: World<BlockSequence> = World::new(rt.alloc());
    ExitCode::from(tp_test_runner::run(&rt, blocks))
}
