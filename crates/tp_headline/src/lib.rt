//! What is promised of a world of peers that edit one text: one list holds every element ever inserted, each once, and
//! every text that any peer ever read is a part of it.
//!
//! A world has peers, each with a document and a journal, and a wire with the messages that were sent. Events happen in
//! it in any order: peers join, edit, merge, send messages, receive them, are read, crash and come back. A message is
//! received never, once or many times, by any peer, and so are bytes of any origin. `Next` (specs/Happening) says what
//! an event may reply and leave, and `Run` (specs/Running) what a schedule of events may. The crate has the definitions
//! and the laws, and no code that runs.
#![tactic(auto)]

mod error;
mod laws;

pub use error::WorldError;
pub use laws::{
    a_crash_while_receiving, a_crash_within_an_edit, a_delivery_brings_what_is_ready,
    a_device_fails_where_it_was_set_to, a_failure_within_an_edit, a_merge_brings_all,
    a_message_brings_all, a_run_is_carried, an_edit_is_new, headline, lists_agree, peers_are_lists,
    runs_part_by_part, the_wire_carries_what_was_made, what_may_happen, what_was_shown_lasts,
};
