//! A walk over all elements of a sequence, in their order.

ghost use Rattle.std.specs.Prelude.{◌≡◌, None};

use tp_opid::OpId;

/// What a walk shows of an element: all but its reference.
#[derive(Clone, Copy, Debug, PartialEq, Eq)]
pub struct Seen {
    /// Its identifier, which no other element of the text has.
    pub id: OpId,
    /// Its character.
    pub ch: char,
    /// Whether it is a tombstone.
    pub deleted: bool,
}

/// A spot in a sequence that is kept in blocks: which block in list order, from 0, and how many of its elements are
/// before.
#[derive(Clone, Copy, Debug)]
pub struct Spot {
    /// Which block.
    pub block: usize,
    /// How many of its elements are before.
    pub offset: usize,
}

/// Where a walk over the elements of a sequence goes on. It holds of the sequence that it walks over, as long as this one
/// stays as it is.
#[derive(Clone, Copy, Debug)]
pub struct Walk {
    /// The index of the next element in the list of all elements.
    pub index: usize,
    /// Where the next element is, if the sequence noted it. Without it the element is looked up by its index.
    pub spot: Option<Spot>,
}

impl Walk {
    /// A walk over all elements of any sequence.
    pub fn start() -> Walk
        ensures index { result.index ≡ 0 }
        ensures spot { result.spot ≡ None }
    {
        Walk {
            index: 0,
            spot: None,
        }
    }
}
