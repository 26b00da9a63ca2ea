//! Heads, kept rising.

ghost use Rattle.std.specs.Prelude.{◌≡◌, ◌<◌, ◌≤◌, length, MatchOption, vec_len, vec_capacity};
ghost use Rattle.std.specs.List.{insert};
ghost use Rattle.tp_list.specs.Rising as list;
ghost use Rattle.tp_opid.specs.Order.{hash_cmp};
ghost use Rattle.tp_history.specs.Heads as head;

use std::cmp::Ordering;
use tp_opid::Hash;

// Takes out the hashes that are among others.
fn take_out(heads: &mut Vec<Hash>, others: &[Hash])
    ensures items { heads.new.items ≡ head.without others.now heads.old.items }
    ensures fewer { vec_len heads.new ≤ vec_len heads.old }
    ensures room { vec_capacity heads.new ≡ vec_capacity heads.old }
{
    heads.retain(|h| !h.is_among(others));
}

// The place at which the hash belongs, or None where it is there.
fn place_for(heads: &[Hash], hash: &Hash) -> Option<usize>
    ensures { MatchOption result (list.put hash_cmp hash.now heads.now ≡ heads.now)
        (λ i. (i ≤ length heads.now)
        × (list.put hash_cmp hash.now heads.now ≡ insert heads.now i hash.now)) }
{
    for i in 0..heads.len() {
        match hash.order(&heads[i]) {
            Ordering::Less => return Some(i),
            Ordering::Equal => return None,
            Ordering::Greater => {}
        }
    }
    Some(heads.len())
}

/// Puts a hash at its place, once. There is room for one more.
pub fn put(heads: &mut Vec<Hash>, hash: Hash)
    requires { vec_len heads.old < vec_capacity heads.old }
    ensures { heads.new.items ≡ list.put hash_cmp hash heads.old.items }
{
    if let Some(place) = place_for(heads, &hash) {
        match heads.insert(place, hash) {
            Ok(()) => {}
            Err(_) => unreachable!(),
        }
    }
}

/// The heads where a change with the hash entered that depends on `deps`. There is room for one more.
pub(crate) fn move_on(heads: &mut Vec<Hash>, deps: &[Hash], hash: Hash)
    requires { vec_len heads.old < vec_capacity heads.old }
    ensures { heads.new.items ≡ list.put hash_cmp hash (head.without deps.now heads.old.items) }
{
    take_out(heads, deps);
    put(heads, hash);
}
