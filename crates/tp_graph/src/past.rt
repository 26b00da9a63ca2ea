//! Pasts as places.

ghost use Rattle.std.specs.Prelude.{◌≡◌, IfOk};
ghost use Rattle.tp_ancestry.specs.PastSets.{bits, IsPastSetIn};
ghost use Rattle.tp_history.specs.Marks.{places_from};

use std::alloc::AllocError;
use std::marker::Model;
use tp_ancestry::{Ancestry, PastSet};

/// The places in applied order, from 0, of the changes of a past.
#[derive(Drop)]
pub struct Past {
    places: Vec<u32>,
}

impl Model for Past {
    ghost use Rattle.std.specs.Prelude.{ℕ, List};

    ghost Value = { List ℕ };

    ghost view = { λ p. p.places.items };
}

impl Past {
    pub(crate) fn new(places: Vec<u32>) -> Past
        ensures { result ≡ places.items }
    {
        Past { places }
    }

    /// The places, rising.
    pub fn places(&self) -> &[u32]
        ensures { result.now ≡ self.now }
    {
        self.places.as_slice()
    }
}

/// The places that a past has.
pub(crate) fn places_in(ancestry: &Ancestry, past_set: &PastSet) -> Result<Vec<u32>, AllocError>
    requires { IsPastSetIn past_set.now ancestry.now.changes }
    ensures { IfOk result (λ v. v.items ≡ places_from 0 (bits past_set.now ancestry.now.changes)) }
{
    let mut places = Vec::new(ancestry.alloc());
    for i in 0..ancestry.len() {
        if past_set.holds(ancestry, i) {
            places.push(i as u32)?;
        }
    }
    Ok(places)
}
