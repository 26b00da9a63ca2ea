//! The elements of a text by number, and the look-up that leads from an identifier to a number.
//!
//! The number of an element is how many came before it. The elements lie in memory by number, in 20 bytes each: an
//! entry names its actor by an index and its reference by a number. Each actor's latest element is kept in the order of
//! the actors, and each element has links to earlier ones of its actor; a look-up goes back along these. Nothing here
//! knows the order of the text, or what is deleted.
#![tactic(auto)]

mod actors;
mod columns;
mod elements;
mod entries;
mod entry;
mod links;
mod lookup;

pub use elements::Elements;
pub use entries::Entries;
pub use entry::Reference;
