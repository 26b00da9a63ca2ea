//! Each actor's latest element, in the order of the actors.

ghost use Rattle.std.specs.Prelude.{◌≡◌, ◌<◌, length, IfOk, IfErr};
ghost use Rattle.tp_elements.specs.Actors.{latest_at, AreByActor, IsPlaceOf};

use crate::links::Latest;
use std::cmp::Ordering;
use tp_opid::Actor;

/// Where the entry of an actor is, or as an `Err` where it belongs. As many comparisons as the logarithm of the
/// number of actors.
pub(crate) fn find(latest: &[Latest], actor: &Actor) -> Result<usize, usize>
    requires { AreByActor latest.now }
    ensures found { IfOk result
        (λ i. (i < length latest.now) × ((latest_at latest.now i).actor ≡ actor.now)) }
    ensures none { IfErr result (IsPlaceOf latest.now actor.now) }
{
    let mut low = 0;
    let mut high = latest.len();
    while low < high {
        let middle = low + (high - low) / 2;
        let entry = latest[middle];
        match entry.actor.order(actor) {
            Ordering::Less => low = middle + 1,
            Ordering::Equal => return Ok(middle),
            Ordering::Greater => high = middle,
        }
    }
    Err(low)
}
