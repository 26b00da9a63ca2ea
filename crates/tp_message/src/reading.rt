//! Reading a message from its bytes, which come in any pieces.
#![tactic(auto)]

ghost use Rattle.std.specs.Prelude.{◌≡◌, ◌↔◌, ◌⊎◌, ℕ, ◌<◌, ◌≤◌, List, [], length, Ok, Err, Some, IfOk, IfErr, IsSome, IsTrue, IsOkUnless};
ghost use Rattle.tp_message.specs.declared.error.SyncError.{SyncError as Refusal};
ghost use Rattle.tp_message.specs.declared.error.SyncError.TheVariants.{BadMessage, OutOfMemory};
ghost use Rattle.tp_message.specs.declared.stages.Stage.TheVariants.{Body};
ghost use Rattle.tp_message.specs.Message.{MessageParts, IsMessage};
ghost use Rattle.tp_message.specs.Spelling.{message_spelling};
ghost use Rattle.tp_codec.specs.Gives.{Gives};
ghost use Rattle.tp_message.specs.Reading.{message_at};
ghost use Rattle.tp_message.specs.Stages.{is_whole, fault_of_stage};
ghost use Rattle.tp_message.specs.ReaderState.{reads, ReadsPiece, EndsAtField};

use crate::error::SyncError;
use crate::message::{Lists, Message};
use crate::stages::{Stage, changes_in, field_len, next_change, next_stage};
use std::alloc::Global;
use std::marker::Model;
use tp_change::MAX_BYTES;
use tp_digest::Ahead;

// The fewest bytes that a message has.
const SMALLEST: usize = 13;

/// Takes the bytes of a message in whatever pieces they come, and decodes each field once its last byte is there.
///
/// Contracts see how far it has come. Of the bytes it holds those of one field that isn't whole yet, and no others.
pub struct MessageReader {
    stage: Stage,
    lists: Lists,
    held: Vec<u8>,
    left: usize,
}

impl Drop for MessageReader {
    fn drop(self) {
        let MessageReader {
            stage: _,
            lists: _,
            held: _,
            left: _,
        } = self;
    }
}

impl Model for MessageReader {
    ghost use Rattle.tp_message.specs.Lists.{parts_in};
    ghost use Rattle.tp_message.specs.ReaderState.{ReaderState, IsReader};

    ghost Value = { ReaderState };

    ghost view = { λ r. record { stage = r.stage; parts = parts_in r.lists; held = r.held.items; left = r.left } };

    ghost invariant = { λ r. IsReader (record { stage = r.stage; parts = parts_in r.lists; held = r.held.items; left = r.left }) };
}

impl MessageReader {
    /// A reader of a message that has `total` bytes. No memory. `BadMessage` where they are fewer than 13, which is no
    /// message.
    pub fn new(alloc: Global, total: u32) -> Result<MessageReader, SyncError>
        ensures ok { IfOk result (λ r. (r.left ≡ total)
            × ((bytes : List ℕ) → reads r bytes ≡ message_at bytes)) }
        ensures short { (result ≡ Err BadMessage) ↔ (total < 13) }
        ensures err { IsOkUnless result BadMessage }
    {
        MessageReader::of_len(alloc, total as usize)
    }

    // A reader of a message that has `total` bytes, where `total` is any number.
    fn of_len(alloc: Global, total: usize) -> Result<MessageReader, SyncError>
        ensures ok { IfOk result (λ r. (r.left ≡ total)
            × ((bytes : List ℕ) → reads r bytes ≡ message_at bytes)) }
        ensures short { (result ≡ Err BadMessage) ↔ (total < 13) }
        ensures err { IsOkUnless result BadMessage }
        ensures every { IfErr result (λ e. (bytes : List ℕ) → length bytes ≡ total
            → message_at bytes ≡ Err e) }
    {
        if total < SMALLEST {
            return Err(SyncError::BadMessage);
        }
        let lists = Lists {
            version: 0,
            heads: Vec::new(alloc),
            wants: Vec::new(alloc),
            known: Vec::new(alloc),
            changes: Vec::new(alloc),
        };
        Ok(MessageReader {
            stage: Stage::Version,
            lists,
            held: Vec::new(alloc),
            left: total,
        })
    }

    /// Takes bytes of the piece, all of them or to the end of the field that comes next, and tells how many: none only
    /// where there are none, or all of the message were taken.
    ///
    /// A refusal is [`Message::decode`]'s, for all bytes of the message that begin with those taken, and comes as soon as
    /// a field shows it: `BadMessage`, or `BadChange`, also for a change of no byte or of more than 4,194,304, once its
    /// length is there. It stays the answer of every later call. `OutOfMemory` changes nothing.
    ///
    /// Bytes are copied only where a field comes in several pieces.
    pub fn take(&mut self, piece: &[u8]) -> Result<usize, SyncError>
        ensures answers { ReadsPiece self.old piece.now result self.new }
        ensures field { IfOk result (λ count. EndsAtField self.old piece.now count) }
        ensures again { (e : Refusal) → fault_of_stage self.old.stage ≡ Some e
            → (result ≡ Err e) × (self.new ≡ self.old) }
    {
        match self.stage {
            Stage::Whole => return Ok(0),
            Stage::Failed(error) => return Err(error),
            _ => {}
        }
        let missing = field_len(self.stage) - self.held.len();
        if piece.len() < missing {
            self.held.extend_from_slice(piece)?;
            self.left -= piece.len();
            return Ok(piece.len());
        }
        let left = self.left - missing;
        let last = &piece[..missing];
        match next_stage(self.stage, &mut self.lists, &mut self.held, last, left) {
            Ok(next) => {
                self.stage = next;
                self.left = left;
                Ok(missing)
            }
            Err(error) => match error {
                SyncError::OutOfMemory => Err(SyncError::OutOfMemory),
                _ => {
                    self.stage = Stage::Failed(error);
                    self.left = left;
                    Err(error)
                }
            },
        }
    }

    /// The next four changes, which are among the bytes that come next, as those whose digests are expected. `None`
    /// where the length of a change isn't what comes next, or no change was read yet, or fewer than four are whole. It
    /// looks at their lengths alone.
    #[inline]
    pub fn next_four<'a>(&self, bytes: &'a [u8]) -> Option<Ahead<'a>> {
        match self.stage {
            Stage::Length { more } if more >= 3 => self.expected_changes(bytes),
            _ => None,
        }
    }

    // The next four changes, where the length of a change comes next, of four or more. The first of all is hashed
    // alone: where the second is none, nothing was hashed in vain.
    fn expected_changes<'a>(&self, bytes: &'a [u8]) -> Option<Ahead<'a>> {
        if !self.held.is_empty() || self.lists.changes.is_empty() {
            return None;
        }
        changes_in(bytes)
    }

    /// As [`take`](MessageReader::take), with the digests of changes from `ahead`, where they are those that it expects.
    #[inline]
    pub fn take_ahead(&mut self, piece: &[u8], ahead: &mut Ahead<'_>) -> Result<usize, SyncError>
        ensures answers { ReadsPiece self.old piece.now result self.new }
        ensures field { IfOk result (λ count. EndsAtField self.old piece.now count) }
        ensures again { (e : Refusal) → fault_of_stage self.old.stage ≡ Some e
            → (result ≡ Err e) × (self.new ≡ self.old) }
    {
        match self.stage {
            Stage::Body { len, more } if self.held.is_empty() && piece.len() >= len as usize => {
                self.take_change(len, more, piece, ahead)
            }
            _ => self.take(piece),
        }
    }

    // Takes the change of `len` bytes that the piece begins with. No byte of it is held.
    fn take_change(
        &mut self,
        len: u32,
        more: u32,
        piece: &[u8],
        ahead: &mut Ahead<'_>,
    ) -> Result<usize, SyncError>
        requires stage { self.old.stage ≡ Body len more }
        requires none { self.old.held ≡ [] }
        requires whole { len ≤ length piece.now }
        ensures answers { ReadsPiece self.old piece.now result self.new }
        ensures field { IfOk result (λ count. EndsAtField self.old piece.now count) }
    {
        let count = len as usize;
        let left = self.left - count;
        match next_change(&mut self.lists, more, &piece[..count], left, ahead) {
            Ok(next) => {
                self.stage = next;
                self.left = left;
                Ok(count)
            }
            Err(error) => match error {
                SyncError::OutOfMemory => Err(SyncError::OutOfMemory),
                _ => {
                    self.stage = Stage::Failed(error);
                    self.left = left;
                    Err(error)
                }
            },
        }
    }

    /// Whether all bytes were taken, and are a message. Where all were taken and it isn't so, the message was refused.
    pub fn whole(&self) -> bool
        ensures exact { result ≡ is_whole self.now.stage }
        ensures taken { IsTrue (is_whole self.now.stage) → self.now.left ≡ 0 }
        ensures ended { self.now.left ≡ 0
            → IsTrue (is_whole self.now.stage) ⊎ IsSome (fault_of_stage self.now.stage) }
    {
        matches!(self.stage, Stage::Whole)
    }

    /// How many bytes are held: those of a field that isn't whole yet, at most 4,194,304.
    pub fn held(&self) -> usize
        ensures exact { result ≡ length self.now.held }
        ensures few { result ≤ MAX_BYTES }
    {
        self.held.len()
    }

    /// The message, which is whole. No memory.
    pub fn finish(self) -> Message
        requires { IsTrue (is_whole self.stage) }
        ensures exact { reads self [] ≡ Ok result }
        ensures limits { IsMessage result }
    {
        let MessageReader {
            stage: _,
            lists,
            held: _,
            left: _,
        } = self;
        let Lists {
            version,
            heads,
            wants,
            known,
            changes,
        } = lists;
        Message {
            version,
            heads,
            wants,
            known,
            changes,
        }
    }
}

impl Message {
    /// The message that the bytes are, all of them.
    ///
    /// Takes one pass over the bytes, and hashes those of each change. Refuses with the first fault from the start, as
    /// docs/FORMATS.md orders them: `BadChange` where the bytes of a change are refused by
    /// [`Change::decode`](tp_change::Change::decode) for another reason than memory, `BadMessage` for all else, and
    /// `OutOfMemory` where a growth was refused. The order of the changes isn't looked at.
    pub fn decode(alloc: Global, bytes: &[u8]) -> Result<Message, SyncError>
        ensures found { IfOk result (λ m. IsMessage m × (bytes.now ≡ message_spelling m)) }
        ensures only { (m : MessageParts) → IsMessage m → bytes.now ≡ message_spelling m
            → Gives OutOfMemory (λ n. n) result (Ok m) }
        ensures exact { Gives OutOfMemory (λ m. m) result (message_at bytes.now) }
    {
        let mut reader = MessageReader::of_len(alloc, bytes.len())?;
        let mut ahead = Ahead::none();
        let mut at = 0;
        'fields: while !reader.whole() {
            let rest = &bytes[at..];
            if ahead.is_used_up() {
                if let Some(next) = reader.next_four(rest) {
                    ahead = next;
                }
            }
            at += reader.take_ahead(rest, &mut ahead)?;
        }
        Ok(reader.finish())
    }
}
