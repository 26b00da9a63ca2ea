//! What is kept of a message that was sent.

ghost use Rattle.std.specs.Prelude.{◌≡◌};

use std::marker::Model;
use tp_list::Items;

/// An entry of the wire: the peer that sent it, and its bytes.
#[derive(Drop)]
pub struct Entry {
    sender: usize,
    bytes: Items<u8>,
}

impl Model for Entry {
    ghost use Rattle.tp_headline.specs.World.{WireEntry};

    ghost Value = { WireEntry };

    ghost view = { λ e. record { sender = e.sender; bytes = e.bytes } };
}

impl Entry {
    /// An entry of the peer with the number.
    pub(crate) fn new(sender: usize, bytes: Vec<u8>) -> Entry
        ensures sender { result.sender ≡ sender }
        ensures bytes { result.bytes ≡ bytes.items }
    {
        Entry {
            sender,
            bytes: Items::new(bytes),
        }
    }

    /// The number of the peer that sent it.
    pub fn sender(&self) -> usize
        ensures { result ≡ self.now.sender }
    {
        self.sender
    }

    /// Its bytes.
    pub fn bytes(&self) -> &[u8]
        ensures { result.now ≡ self.now.bytes }
    {
        self.bytes.as_slice()
    }
}
