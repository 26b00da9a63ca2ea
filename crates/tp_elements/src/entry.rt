//! An element as it is put in.

/// The reference of an element: the start, or the element with a number.
#[derive(Clone, Copy)]
pub enum Reference {
    Start,
    After(u32),
}

/// An element, by its counter, its actor's index in a table, its reference and its character.
#[derive(Clone, Copy)]
pub(crate) struct Entry {
    pub counter: u64,
    pub author: u32,
    pub after: Reference,
    pub ch: char,
}
