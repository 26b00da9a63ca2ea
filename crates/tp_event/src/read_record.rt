//! What is kept of a read.

ghost use Rattle.std.specs.Prelude.{◌≡◌};
ghost use Rattle.std.specs.Str.{chars};
ghost use Rattle.std.specs.String.{string_bytes};

use std::marker::Model;
use tp_list::{Items, Text};
use tp_opid::Hash;

/// A read: the peer, the heads at which its text was read, and the text.
#[derive(Drop)]
pub struct ReadRecord {
    peer: usize,
    heads: Items<Hash>,
    text: Text,
}

impl Model for ReadRecord {
    ghost use Rattle.tp_headline.specs.Headline.{ReadRecord as Record};

    ghost Value = { Record };

    ghost view = { λ r. record { peer = r.peer; heads = r.heads; text = r.text } };
}

impl ReadRecord {
    /// A read of the peer with the number.
    pub(crate) fn new(peer: usize, heads: Vec<Hash>, text: String) -> ReadRecord
        ensures peer { result.peer ≡ peer }
        ensures heads { result.heads ≡ heads.items }
        ensures text { result.text ≡ chars (string_bytes text) }
    {
        ReadRecord {
            peer,
            heads: Items::new(heads),
            text: Text::new(text),
        }
    }

    /// The number of the peer.
    pub fn peer(&self) -> usize
        ensures { result ≡ self.now.peer }
    {
        self.peer
    }

    /// The heads: those of the peer at that moment, or the hashes that were given.
    pub fn heads(&self) -> &[Hash]
        ensures { result.now ≡ self.now.heads }
    {
        self.heads.as_slice()
    }

    /// The text that was read.
    pub fn text(&self) -> &str
        ensures { chars result.now ≡ self.now.text }
    {
        self.text.as_str()
    }
}
