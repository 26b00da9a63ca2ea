//! Copies of lists that are to grow.

ghost use Rattle.std.specs.Prelude.{◌≡◌, ◌≤◌, ◌*◌, IfOk};

use std::alloc::{AllocError, Global};

/// For how many elements a copy of `len` has room: for an eighth more, and up to four. What is put after the copy then
/// moves it no sooner than it moves a list that grew. A copy of nothing takes no memory.
pub fn with_room(len: usize) -> usize
    ensures least { len ≤ result }
    ensures most { result ≤ 2 * len }
{
    len.saturating_add(len / 8).saturating_add(len.min(4))
}

/// An equal list, with room for an eighth more elements, and up to four. One pass.
pub fn copy_with_room<T: Copy>(alloc: Global, items: &[T]) -> Result<Vec<T>, AllocError>
    ensures { IfOk result (λ copy. copy.items ≡ items.now) }
{
    let mut copy = Vec::with_capacity(alloc, with_room(items.len()))?;
    copy.extend_from_slice(items)?;
    Ok(copy)
}
