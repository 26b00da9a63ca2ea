//! The order of the elements of a text, by RGA (Roh and others 2011), and the sequence that keeps it.
//!
//! A text is a list of elements. Each is made by an insert: an identifier, the reference after which it is placed, and
//! a character. Of several inserts after one element the greater identifier is nearer to it. A deleted element
//! stays as a tombstone, so that what was inserted after it stays where it is.
#![tactic(auto)]

mod by_chains;
mod element;
mod flags;
mod insertion;
mod order_laws;
mod placed;
mod plain;
mod sequence;
mod text_laws;
mod walk;

pub use by_chains::{in_order, is_tree};
pub use element::Element;
pub use insertion::Insertion;
pub use order_laws::{
    before_cases, before_grows, before_irreflexive, before_trans, greatest_inserted, greatest_next,
    inserted_members, one_order, order_exists, order_of_part, order_of_set, present_once,
    same_text, shown_of_set, tree_grows, tree_of_set,
};
pub use plain::PlainSequence;
pub use sequence::Sequence;
pub use text_laws::{shown_delete, shown_delete_again, shown_insert_after, shown_insert_start};
pub use walk::{Seen, Spot, Walk};
