//! Places that many threads take and free.

ghost use Rattle.std.specs.Prelude.{◌≡◌, ◌≤◌, vec_len};

use crate::room::{Room, Taken};
use std::sync::ledger::{Blank, Ledger};
use std::sync::{Condvar, Mutex, Wait};

/// A number of places. How many of them are taken is under a lock.
#[derive(Drop)]
pub struct Places<K: Ledger> {
    room: Mutex<Room<K>>,
    freed: Condvar,
}

impl<K: Ledger> Places<K> {
    /// As many places as the ledger has parts, and none is taken.
    pub fn new(blank: Blank, places: u64) -> Places<K>
        requires name { blank.name ≡ K.name }
        requires parts { blank.parts ≡ K.parts }
        requires places { blank.parts ≡ places }
    {
        Places {
            room: Mutex::new(Room::new(blank, places)),
            freed: Condvar::new(),
        }
    }

    /// Takes a place where more are free than are kept back, and waits for that.
    pub fn wait<'a, R: Wait>(&'a self, rt: &'a R, kept: u64) -> Place<'a, K, R> {
        let mut room = self.room.lock(rt);
        for _ in rt.forever() {
            if room.has_room(kept) {
                if let Some(taken) = room.take() {
                    drop(room);
                    return Place {
                        rt,
                        places: self,
                        taken,
                    };
                }
            }
            room = self.freed.wait(rt, room);
        }
        unreachable!()
    }

    /// Takes a place, where one is free.
    pub fn take<'a, R: Wait>(&'a self, rt: &'a R) -> Option<Place<'a, K, R>> {
        let taken = self.room.lock(rt).take()?;
        Some(Place {
            rt,
            places: self,
            taken,
        })
    }

    /// Frees all these places. However they were taken, they are never more than there are: each has a part of the ledger.
    pub fn free_all<R: Wait>(&self, rt: &R, held: Vec<Place<'_, K, R>>)
        ensures { vec_len held.entry ≤ K.parts }
    {
        let mut all = self.room.lock(rt).take_none();
        for place in held {
            all.merge(place.into_taken());
        }
        self.room.lock(rt).give_back(all);
        self.freed.notify_all();
    }
}

/// A place that is taken, until it is dropped.
pub struct Place<'a, K: Ledger, R: Wait> {
    pub(crate) rt: &'a R,
    places: &'a Places<K>,
    taken: Taken<K>,
    ghost one: { taken.count ≡ 1 },
}

impl<'a, K: Ledger, R: Wait> Place<'a, K, R> {
    // What is still to be given back.
    fn into_taken(self) -> Taken<K>
        ensures { result.count ≡ 1 }
    {
        let Self {
            rt: _,
            places: _,
            taken,
        } = self;
        taken
    }

    /// Another place, where one is free.
    pub(crate) fn another(&self) -> Option<Place<'a, K, R>> {
        self.places.take(self.rt)
    }
}

impl<'a, K: Ledger, R: Wait> Drop for Place<'a, K, R> {
    fn drop(self) {
        let Self { rt, places, taken } = self;
        places.room.lock(rt).give_back(taken);
        places.freed.notify_one();
    }
}
