//! Messages.

ghost use Rattle.std.specs.Prelude.{◌≡◌, ◌≤◌, ◌∷◌, [], length, IfOk};
ghost use Rattle.tp_message.specs.Common.{AllByRecursion, In, IsRising, hash_cmp, ChangeParts, IsChange, IsHash};

use crate::limits::{MAX_CHANGES, MAX_HASHES, MAX_KNOWN};
use std::alloc::{AllocError, Global};
use std::marker::Model;
use tp_change::Change;
use tp_list::array_len;
use tp_opid::Hash;

/// The version of the messages that are made.
pub(crate) const VERSION: u8 = 2;

/// A message: the heads of the sender, the hashes of the changes that it wants, those of a few changes that it has, and
/// changes that it sends. Automerge's sync messages have a filter in place of the few.
///
/// It is within its limits: at most 65,535 heads, as many wants and 32 known changes, each strictly rising, and at most
/// 1,024 changes. It has version 2, or version 1, which has no known changes. It is made by [`decode`](Message::decode)
/// and [`MessageReader::finish`](crate::MessageReader::finish), by [`new`](Message::new) and by
/// [`of_change`](Message::of_change) alone.
#[derive(Drop)]
pub struct Message {
    pub(crate) version: u8,
    pub(crate) heads: Vec<Hash>,
    pub(crate) wants: Vec<Hash>,
    pub(crate) known: Vec<Hash>,
    pub(crate) changes: Vec<Change>,
}

impl Model for Message {
    ghost use Rattle.tp_message.specs.Message.{MessageParts, IsMessage};

    ghost Value = { MessageParts };

    ghost view = { λ m. record { version = m.version; heads = m.heads.items; wants = m.wants.items; known = m.known.items; changes = m.changes.items } };

    ghost invariant = { λ m. IsMessage (record { version = m.version; heads = m.heads.items; wants = m.wants.items; known = m.known.items; changes = m.changes.items }) };
}

/// The version and the lists of a message, or what was read of them so far.
#[derive(Drop)]
pub struct Lists {
    /// The version of its layout.
    pub version: u8,
    /// The heads of the sender.
    pub heads: Vec<Hash>,
    /// The hashes of the changes that the sender wants.
    pub wants: Vec<Hash>,
    /// The hashes of a few changes that the sender has.
    pub known: Vec<Hash>,
    /// The changes that are sent.
    pub changes: Vec<Change>,
}

/// What the type of hashes says: each has 32 bytes.
pub(crate) fn of_hashes(hashes: &[Hash])
    ensures { AllByRecursion IsHash hashes.now }
{
    for hash in hashes {
        let _bytes = array_len(hash.0);
    }
}

impl Message {
    ghost use Rattle.tp_message.specs.Message.{IsMessage};

    /// A message of version 2 of its parts, which are within the limits: at most 65,535 heads and wants and 32 known
    /// changes, each strictly rising, and at most 1,024 changes. No memory, and nothing is copied.
    #[inline]
    pub fn new(
        heads: Vec<Hash>,
        wants: Vec<Hash>,
        known: Vec<Hash>,
        changes: Vec<Change>,
    ) -> Message
        requires heads { IsRising hash_cmp heads.items × (length heads.items ≤ MAX_HASHES) }
        requires wants { IsRising hash_cmp wants.items × (length wants.items ≤ MAX_HASHES) }
        requires known { IsRising hash_cmp known.items × (length known.items ≤ MAX_KNOWN) }
        requires changes { ((c : ChangeParts) → In c changes.items → IsChange c)
            × (length changes.items ≤ MAX_CHANGES) }
        ensures version { result.version ≡ 2 }
        ensures heads { result.heads ≡ heads.items }
        ensures wants { result.wants ≡ wants.items }
        ensures known { result.known ≡ known.items }
        ensures changes { result.changes ≡ changes.items }
    {
        of_hashes(&heads);
        of_hashes(&wants);
        of_hashes(&known);
        Message {
            version: VERSION,
            heads,
            wants,
            known,
            changes,
        }
    }

    /// A message of version 2 with one change, and nothing else. The only refusal is of memory.
    pub fn of_change(alloc: Global, change: Change) -> Result<Message, AllocError>
        ensures version { IfOk result (λ m. m.version ≡ 2) }
        ensures changes { IfOk result (λ m. m.changes ≡ change ∷ []) }
        ensures none { IfOk result
            (λ m. (m.heads ≡ []) × (m.wants ≡ []) × (m.known ≡ [])) }
    {
        let _hash = change.hash();
        let mut changes = Vec::new(alloc);
        changes.push(change)?;
        Ok(Message::new(Vec::new(alloc), Vec::new(alloc), Vec::new(alloc), changes))
    }

    /// Its version and its lists. No memory, and nothing is copied.
    #[inline]
    pub fn into_lists(self) -> Lists
        ensures version { result.version ≡ self.version }
        ensures heads { result.heads.items ≡ self.heads }
        ensures wants { result.wants.items ≡ self.wants }
        ensures known { result.known.items ≡ self.known }
        ensures changes { result.changes.items ≡ self.changes }
    {
        let Message {
            version,
            heads,
            wants,
            known,
            changes,
        } = self;
        Lists {
            version,
            heads,
            wants,
            known,
            changes,
        }
    }

    /// The version of its layout: 2, or 1 in a message that was read.
    pub fn version(&self) -> u8
        ensures { result ≡ self.now.version }
    {
        self.version
    }

    /// The heads of the sender, rising.
    pub fn heads(&self) -> &[Hash]
        ensures heads { result.now ≡ self.now.heads }
        ensures limits { IsMessage self.now }
    {
        self.heads.as_slice()
    }

    /// The hashes of the changes that the sender wants, rising.
    pub fn wants(&self) -> &[Hash]
        ensures { result.now ≡ self.now.wants }
    {
        self.wants.as_slice()
    }

    /// The hashes of a few changes that the sender has, rising: so it has all that these depend on. None in a message of
    /// version 1.
    pub fn known(&self) -> &[Hash]
        ensures { result.now ≡ self.now.known }
    {
        self.known.as_slice()
    }

    /// The changes that are sent.
    pub fn changes(&self) -> &[Change]
        ensures { result.now ≡ self.now.changes }
    {
        self.changes.as_slice()
    }
}
