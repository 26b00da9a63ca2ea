//! One actor's changes.

ghost use Rattle.std.specs.Prelude.{◌≡◌, ◌<◌, ◌≤◌, [], ◌∷◌, ◌++◌, length, slice_index};
ghost use Rattle.tp_history.specs.ByActor.{option_items};

use std::marker::Model;

/// Places of an actor's changes, rising: that of its first one, where it is kept separately, and more after it.
#[derive(Drop)]
pub(crate) struct Listed<'a> {
    pub(crate) first: Option<usize>,
    pub(crate) more: &'a [u32],
}

/// The places of an actor's changes, rising: the n-th is that of the change with the sequence number n.
#[derive(Drop)]
pub struct ActorChanges<'a> {
    places: Listed<'a>,
    last: Option<usize>,
}

impl<'a> Model for ActorChanges<'a> {
    ghost use Rattle.std.specs.Prelude.{ℕ, List, ◌++◌};
    ghost use Rattle.tp_history.specs.ByActor.{option_items};

    ghost Value = { List ℕ };

    ghost view = { λ o. (option_items o.places.first ++ o.places.more.now) ++ option_items o.last };
}

// How many places there are: none or one.
fn count(place: Option<usize>) -> usize
    ensures count { result ≡ length (option_items place) }
    ensures few { result ≤ 1 }
{
    match place {
        Some(_) => 1,
        None => 0,
    }
}

// The place with the number, from 0, of these and another one after them.
fn nth(places: &[u32], last: Option<usize>, number: usize) -> usize
    requires { number < length (places.now ++ option_items last) }
    ensures { result ≡ slice_index (places.now ++ option_items last) number }
{
    if number < places.len() {
        return places[number] as usize;
    }
    match last {
        Some(place) => place,
        None => 0,
    }
}

/// Where a search among `count` numbers looks next that goes on from `low` to before `high`: at the last one first,
/// since what came last is asked for most, and then some sixteen times as far from the end each time, but never before
/// the middle. It looks about five times where one that halves looks four times, at worst.
pub fn next_to_look_at(low: usize, high: usize, count: usize) -> usize
    requires { low < high }
    ensures from { low ≤ result }
    ensures before { result < high }
{
    let middle = low + (high - low) / 2;
    let passed = count.saturating_sub(high);
    middle.max((high - 1).saturating_sub(passed.saturating_mul(15)))
}

impl<'a> ActorChanges<'a> {
    /// These places.
    pub(crate) fn new(places: Listed<'a>) -> ActorChanges<'a>
        ensures { result ≡ option_items places.entry.first ++ places.entry.more.now }
    {
        ActorChanges { places, last: None }
    }

    /// These places, and another one after them.
    pub(crate) fn with_last(places: Listed<'a>, last: usize) -> ActorChanges<'a>
        ensures { result ≡ (option_items places.entry.first ++ places.entry.more.now) ++ last ∷ [] }
    {
        ActorChanges {
            places,
            last: Some(last),
        }
    }

    /// How many places there are.
    pub fn len(&self) -> usize
        ensures { result ≡ length self.now }
    {
        count(self.places.first) + self.places.more.len() + count(self.last)
    }

    /// The place with the number, from 0.
    pub fn get(&self, number: usize) -> usize
        requires { number < length self.now }
        ensures { result ≡ slice_index self.now number }
    {
        match self.places.first {
            Some(first) => {
                if number == 0 {
                    first
                } else {
                    nth(self.places.more, self.last, number - 1)
                }
            }
            None => nth(self.places.more, self.last, number),
        }
    }
}
