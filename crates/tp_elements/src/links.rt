//! What leads from an identifier to its element's number.

use tp_opid::Actor;

/// The latest element of an actor.
#[derive(Clone, Copy)]
pub(crate) struct Latest {
    pub actor: Actor,
    pub number: u32,
}

/// Earlier elements of an element's actor: the one right before it and one further back, each by its number, or the
/// element itself where there is none; and how many of the actor's elements came before.
///
/// How far the jump goes is as in the skew binary lists of Myers (1983): any earlier element of the actor is reached in
/// as many steps as two or three times the logarithm of how many there are.
#[derive(Clone, Copy)]
pub(crate) struct Link {
    pub before: u32,
    pub jump: u32,
    pub depth: u32,
}

/// What linking the next element shows.
#[derive(Clone, Copy)]
pub(crate) struct Linked {
    /// Whether its counter is greater than those of its actor's elements.
    pub rising: bool,
    /// The number of another element of its actor, if there is one.
    pub sibling: Option<u32>,
}
