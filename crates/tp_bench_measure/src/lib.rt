//! What the benchmarks measure, and by what: changes, sequences, peers and calls made for them, time and memory.
#![tactic(auto)]

mod branch;
mod branches;
mod chance;
mod clock;
mod load;
mod log;
mod made;
mod neighbour;
mod records;
mod ring;
mod room;
mod script;

pub use branch::{Branch, Tip, tip_of};
pub use branches::Branches;
pub use chance::Chance;
pub use clock::{Stopwatch, memory, nanos_each, report, report_memory};
pub use load::{Load, Task};
pub use log::log_of;
pub use made::{
    AUTHOR, actor_of, change, change_by, change_on, element_of, merge_on, place_of, run_after,
};
pub use neighbour::{Link, Neighbour};
pub use records::{after_both, both, inserts};
pub use ring::{Ring, Traffic};
pub use room::{Crowd, Room};
pub use script::{AUTHORS, Script};
