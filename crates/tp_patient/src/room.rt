//! How many places are taken.

ghost use Rattle.std.specs.Prelude.{◌≡◌, ◌+◌, ◌^◌, ◌<◌, ◌≤◌, ◌↔◌, IfNone, IfSome, IsTrue};

use std::sync::ledger::{Blank, Book, Ledger, Share};

/// How many of the places are taken. For each there is a share of the ledger with one part and the amount 1, and the book has the
/// sum of the amounts of all shares: so as many are taken as are counted here, and at most as many as there are.
#[derive(Drop)]
pub(crate) struct Room<K: Ledger> {
    taken: u64,
    places: u64,
    book: Book<K>,
    rest: Share<K>,
    ghost counted: { book.total ≡ taken },
    ghost parted: { rest.parts + taken ≡ places },
    ghost unused: { rest.amount ≡ 0 },
}

/// Some places that are taken. It can't be dropped: they have to be given back.
pub(crate) struct Taken<K: Ledger> {
    count: u64,
    share: Share<K>,
    ghost parts: { share.parts ≡ count },
    ghost amount: { share.amount ≡ count },
}

impl<K: Ledger> Taken<K> {
    /// Puts others to these. Together they are no more than there are.
    pub(crate) fn merge(&mut self, other: Taken<K>)
        requires { self.old.count + other.count < 2 ^ 64 }
        ensures count { self.new.count ≡ self.old.count + other.count }
        ensures few { self.new.count ≤ K.parts }
    {
        let Taken { count, share } = self;
        let Taken {
            count: more,
            share: others,
        } = other;
        share.merge(others);
        *count += more;
    }
}

impl<K: Ledger> Room<K> {
    /// As many places as the ledger has parts, and none is taken.
    pub(crate) fn new(blank: Blank, places: u64) -> Room<K>
        requires name { blank.name ≡ K.name }
        requires parts { blank.parts ≡ K.parts }
        requires places { blank.parts ≡ places }
        ensures { (result.taken ≡ 0) × (result.places ≡ places) }
    {
        let (book, rest) = blank.open::<K>();
        Room {
            taken: 0,
            places,
            book,
            rest,
        }
    }

    /// Whether more places are free than are kept back.
    pub(crate) fn has_room(&self, kept: u64) -> bool
        ensures { IsTrue result ↔ (self.now.taken + kept < self.now.places) }
    {
        self.places - self.taken > kept
    }

    /// None of the places.
    pub(crate) fn take_none(&mut self) -> Taken<K>
        ensures none { result.count ≡ 0 }
        ensures same { (self.new.taken ≡ self.old.taken) × (self.new.places ≡ self.old.places) }
    {
        Taken {
            count: 0,
            share: self.rest.empty(),
        }
    }

    /// Takes a place, where one is free.
    pub(crate) fn take(&mut self) -> Option<Taken<K>>
        ensures one { IfSome result (λ t. t.count ≡ 1) }
        ensures taken { IfSome result (λ _. self.new.taken ≡ self.old.taken + 1) }
        ensures full { IfNone result (self.old.places ≤ self.old.taken) }
        ensures kept { IfNone result (self.new.taken ≡ self.old.taken) }
        ensures places { self.new.places ≡ self.old.places }
    {
        if self.taken >= self.places {
            return None;
        }
        let Room {
            taken,
            places: _,
            book,
            rest,
        } = self;
        let mut share = rest.split_off(1, 0);
        book.add(&mut share, 1);
        *taken += 1;
        Some(Taken { count: 1, share })
    }

    /// Frees places that were taken.
    pub(crate) fn give_back(&mut self, back: Taken<K>)
        ensures taken { self.new.taken + back.count ≡ self.old.taken }
        ensures places { self.new.places ≡ self.old.places }
    {
        let Room {
            taken,
            places: _,
            book,
            rest,
        } = self;
        let Taken { count, share } = back;
        let mut share = share;
        book.audit(&mut share);
        book.sub(&mut share, count);
        rest.merge(share);
        *taken -= count;
    }
}
