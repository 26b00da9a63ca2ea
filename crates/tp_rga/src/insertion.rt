//! An insert, which makes an element of a text.

use std::marker::Model;
use tp_opid::{OpId, Place};

/// An insert: it makes the element `id` with the character `ch`, and puts it after the reference `after`.
#[derive(Clone, Copy)]
pub struct Insertion {
    /// The identifier of the new element.
    pub id: OpId,
    /// Its reference: the start, or the element after which it is inserted.
    pub after: Place,
    /// Its character.
    pub ch: char,
}

impl Model for Insertion {
    ghost use Rattle.tp_opid.specs.Insert.{Insert};

    ghost Value = { Insert };

    ghost view = { λ a. record { id = a.id; after = a.after; ch = a.ch } };

    ghost inverse = { λ d. record { id = d.id; after = d.after; ch = d.ch } };
}
