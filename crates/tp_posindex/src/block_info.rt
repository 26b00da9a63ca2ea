//! What is reported of a block.

/// A block of a sequence: a piece of the list of all elements, deleted ones among them.
#[derive(Clone, Copy, Debug, PartialEq, Eq)]
pub struct BlockInfo {
    /// The index of its first element in the list of all elements, from 0.
    pub first: usize,
    /// How many elements it holds, from 1 to 128; where there are several blocks, at least 64.
    pub len: usize,
    /// How many of them nobody deleted.
    pub visible: usize,
}
