//! Identifiers of operations, and references to elements.

ghost use Rattle.std.specs.Prelude.{◌≡◌, ◌↔◌, IsTrue};
ghost use Rattle.tp_opid.specs.Order.{Below, place_cmp};
ghost use Rattle.tp_opid.specs.Same.{id_eq, place_eq};

use crate::actor::Actor;
use std::cmp::Ordering;

/// The identifier of an operation: the counter that its author had reached, and the author.
///
/// Identifiers are ordered by counter and then by the actor's bytes, as Lamport timestamps are. In RGA
/// (Roh and others 2011) this order decides which of several inserts after one reference is first.
#[derive(Clone, Copy, Debug, PartialEq, Eq, PartialOrd, Ord, Hash)]
pub struct OpId {
    /// From 1 to 2^48 - 1.
    pub counter: u64,
    /// Who made the operation.
    pub actor: Actor,
}

impl OpId {
    /// Whether the identifier is below another.
    #[tactic(auto, unfolding(crate::specs::Order::id_cmp, crate::specs::Order::Below))]
    pub fn is_below(&self, other: &OpId) -> bool
        ensures { IsTrue result ↔ Below self.now other.now }
    {
        matches!(self.cmp(other), Ordering::Less)
    }

    /// Whether the two are one identifier.
    #[tactic(auto, unfolding(crate::specs::Order::id_cmp, crate::specs::Same::id_eq))]
    pub fn is(&self, other: &OpId) -> bool
        ensures { result ≡ id_eq self.now other.now }
    {
        matches!(self.cmp(other), Ordering::Equal)
    }
}

/// The reference of an insert (origin, in Yjs): the start, or the element directly after which it is inserted.
#[derive(Clone, Copy, Debug, PartialEq, Eq, PartialOrd, Ord, Hash)]
pub enum Place {
    /// Before every element. It is below every identifier, and equal to itself alone.
    Start,
    /// After the element with this identifier.
    After(OpId),
}

impl Place {
    /// Whether the two are one reference.
    pub fn is(&self, other: &Place) -> bool
        ensures { result ≡ place_eq self.now other.now }
    {
        match (self, other) {
            (Place::Start, Place::Start) => true,
            (Place::After(a), Place::After(b)) => a.is(b),
            _ => false,
        }
    }

    /// How the two compare in their order, where the start is below every identifier.
    #[tactic(auto, unfolding(crate::specs::Order::id_cmp))]
    pub fn order(&self, other: &Place) -> Ordering
        ensures { result ≡ place_cmp self.now other.now }
    {
        self.cmp(other)
    }
}
