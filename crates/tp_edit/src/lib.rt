//! The text of changes, and edits of it: what the text of a set of changes is and how a sequence of elements comes to show it;
//! from splices of the visible text to the records of a change.
//!
//! A caller speaks of a text by positions: delete a number of characters from here on, insert these there. A change
//! speaks of elements by their identifiers. An edit's records are made splice by splice, each on the text that the
//! ones before it leave: the deletes, where elements that were inserted one after another are one run of deletes, then
//! one run for the inserted text, directly after the visible element before it.
#![tactic(auto)]

mod applying;
mod edit_laws;
mod landing;
mod making;
mod reading;
mod splice;

pub use applying::{apply_change, apply_checked};
pub use edit_laws::{
    applied_edit_does_its_splices, edit_does_its_splices, edit_makes_records_of_a_change,
    edit_takes_its_operations, edit_within_size_has_texts_within_theirs,
    removals_are_as_few_as_can_be, removals_delete_each_element,
};
pub use making::records;
pub use reading::text;
pub use splice::{Splice, asks_nothing, in_range, operation_count};
