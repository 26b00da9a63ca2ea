//! Numbers and counts of blocks: look-ups and sums.

ghost use Rattle.std.specs.Prelude.{◌≡◌, ◌==◌, ◌+◌, ◌^◌, ◌<◌, ◌≤◌, false, length, position, take, sum, slice_index_or, IfSome, IfNone};
ghost use Rattle.std.specs.List.{All};
ghost use Rattle.tp_posindex.specs.Laid.{flag_of, count_visible};

/// The index of a number in a list, or `None` where it isn't there. One pass.
pub(crate) fn index_of(numbers: &[u32], number: usize) -> Option<usize>
    ensures { result ≡ position (λ other. other == number) numbers.now }
{
    numbers.iter().position(|other| *other as usize == number)
}

/// How many counts are passed over by their sum, where they can be.
const STRIDE: usize = 8;

/// From an index on, past counts in which the `n`-th of what is counted doesn't fall, as long as they can be passed over
/// by the sum of several: the index after them, and how many are left to count then.
fn skip(counts: &[u32], from: usize, n: usize) -> (usize, usize)
    requires from { from ≤ length counts.now }
    requires fits { sum counts.now < 2 ^ 64 }
    ensures within { result.0 ≤ length counts.now }
    ensures passed { sum (take result.0 counts.now) + result.1 ≡ sum (take from counts.now) + n }
{
    let mut index = from;
    let mut left = n;
    'strides: while counts.len() - index >= STRIDE {
        let sum = total(&counts[index..index + STRIDE]);
        if left < sum {
            break;
        }
        left -= sum;
        index += STRIDE;
    }
    (index, left)
}

/// From an index on, the index of the count in which the `n`-th of what is counted falls, from 0, and how many of it
/// come before in that count; `None` where less is counted. One pass over the counts up to it, most of them eight at a
/// time.
pub(crate) fn nth_counted(counts: &[u32], from: usize, n: usize) -> Option<(usize, usize)>
    requires from { from ≤ length counts.now }
    requires fits { sum counts.now < 2 ^ 64 }
    ensures found { IfSome result
        (λ r. (r.0 < length counts.now)
        × (sum (take r.0 counts.now) + r.1 ≡ sum (take from counts.now) + n)
        × (r.1 < slice_index_or counts.now r.0 0)) }
    ensures none { IfNone result (sum counts.now ≤ sum (take from counts.now) + n) }
{
    let (start, mut left) = skip(counts, from, n);
    for index in start..counts.len() {
        let count = counts[index] as usize;
        if left < count {
            return Some((index, left));
        }
        left -= count;
    }
    None
}

/// What the counts are together. One pass.
pub(crate) fn total(counts: &[u32]) -> usize
    requires { sum counts.now < 2 ^ 64 }
    ensures { result ≡ sum counts.now }
{
    let mut total = 0;
    for count in counts {
        total += *count as usize;
    }
    total
}

/// How many of the numbers have their flag down. One pass over the numbers.
pub(crate) fn count_down(numbers: &[u32], flags: &[bool]) -> usize
    requires { All (λ k. k < length flags.now) numbers.now }
    ensures { result ≡ count_visible flags.now numbers.now }
{
    let mut count = 0;
    for number in numbers {
        if !flags[*number as usize] {
            count += 1;
        }
    }
    count
}

/// The index of the number with its flag down before which `i` others have theirs down, or `None` where fewer have.
/// One pass over the numbers before it.
pub(crate) fn nth_down(numbers: &[u32], flags: &[bool], i: usize) -> Option<usize>
    requires { All (λ k. k < length flags.now) numbers.now }
    ensures found { IfSome result
        (λ index. (index < length numbers.now)
        × (flag_of flags.now (slice_index_or numbers.now index 0) ≡ false)
        × (count_visible flags.now (take index numbers.now) ≡ i)) }
    ensures none { IfNone result (count_visible flags.now numbers.now ≤ i) }
{
    let mut left = i;
    for (index, number) in numbers.iter().enumerate() {
        if !flags[*number as usize] {
            if left == 0 {
                return Some(index);
            }
            left -= 1;
        }
    }
    None
}
