//! Which elements are deleted: one flag for each element, in list order.

ghost use Rattle.std.specs.Prelude.{◌≡◌, ℕ, ◌<◌, ◌≤◌, Bool, true, false, not, length, take, filter, slice_get, MatchOption, Some};

/// How many elements are left. The cost is a pass over the flags, a byte each.
pub fn count_left(deleted: &[bool]) -> usize
    ensures { result ≡ length (filter not deleted.now) }
{
    deleted.iter().filter(|gone| !**gone).count()
}

/// The index of the element before which `i` elements are left, or `None` where no more are left. The cost is a pass
/// over the flags before it.
pub fn nth_left(deleted: &[bool], i: usize) -> Option<usize>
    ensures { MatchOption result
        (length (filter not deleted.now) ≤ i)
        (λ k. (slice_get deleted.now k ≡ Some false)
        × (length (filter not (take k deleted.now)) ≡ i)) }
{
    let mut left = i;
    for (k, gone) in deleted.iter().enumerate() {
        if !*gone {
            if left == 0 {
                return Some(k);
            }
            left -= 1;
        }
    }
    None
}
