//! Splices as C holds them: numbers, beside one run of bytes for all their texts.

ghost use Rattle.std.specs.Prelude.{◌≡◌, ◌↔◌, IsTrue, MatchResult};
ghost use Rattle.tp_c.specs.Flat.{AreSplices, RefusesSplices, texts_len};

use crate::status::{BAD_LENGTHS, BAD_TEXT};
use std::alloc::Global;
use std::str::from_utf8;
use tp_edit::Splice;

/// One splice of an edit as C holds it: the `del` characters from `at` on go, and the next `len` bytes of the edit's
/// texts come in their place.
#[repr(C)]
#[derive(Clone, Copy)]
pub struct FlatSplice {
    /// How many characters are before it, in the text that the splices before it leave.
    pub at: usize,
    /// How many characters it deletes.
    pub del: usize,
    /// How many bytes its text has, which may be none.
    pub len: usize,
}

// Whether the texts have `len` bytes together.
fn adds_up(flat: &[FlatSplice], len: usize) -> bool
    ensures { IsTrue result ↔ (texts_len flat.now ≡ len) }
{
    let mut left = len;
    for numbers in flat {
        if left < numbers.len {
            return false;
        }
        left -= numbers.len;
    }
    left == 0
}

/// The splices with these numbers, whose texts are the bytes, one after another.
///
/// Else the status: 5 where the texts have more or fewer bytes together, else 4 where one of them isn't UTF-8; and
/// `memory` where that is short. One pass over the bytes, which aren't copied; memory is for the list.
pub(crate) fn splices_of<'a>(
    alloc: Global,
    flat: &[FlatSplice],
    texts: &'a [u8],
    memory: u32,
) -> Result<Vec<Splice<'a>>, u32>
    ensures { MatchResult result (λ splices. AreSplices flat.now texts.now splices.items)
        (RefusesSplices memory flat.now texts.now) }
{
    if !adds_up(flat, texts.len()) {
        return Err(BAD_LENGTHS);
    }
    let mut splices = match Vec::with_capacity(alloc, flat.len()) {
        Ok(splices) => splices,
        Err(_) => return Err(memory),
    };
    let mut rest = texts;
    for numbers in flat {
        let (bytes, left) = rest.split_at(numbers.len);
        let text = match from_utf8(bytes) {
            Ok(text) => text,
            Err(_) => return Err(BAD_TEXT),
        };
        let splice = Splice {
            at: numbers.at,
            del: numbers.del,
            text,
        };
        match splices.push(splice) {
            Ok(()) => {}
            Err(_) => return Err(memory),
        }
        rest = left;
    }
    Ok(splices)
}
