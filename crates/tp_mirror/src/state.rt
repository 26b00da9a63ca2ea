//! What the state file has.

ghost use Rattle.std.specs.Prelude.{◌≡◌, ◌↔◌, ◌+◌, ◌^◌, ◌≤◌, IfOk, IfErr, IsTrue};
ghost use Rattle.tp_mirror.specs.declared.error.MirrorError.TheVariants.{Limit};

use crate::entries::Entries;
use crate::error::MirrorError;
use crate::known::Known;
use std::alloc::{AllocError, Global};
use tp_opid::{Actor, DocId};

/// Who makes the next change of a text that was read, and which one of the actor's it is.
#[derive(Clone, Copy, Debug, PartialEq, Eq)]
pub struct Author {
    /// The actor.
    pub actor: Actor,
    /// The number of the change among the actor's, from 1.
    pub seq: u64,
}

impl Author {
    /// Whether the two are one author with one change.
    pub fn is(&self, other: &Author) -> bool
        ensures { IsTrue result ↔ (self.now ≡ other.now) }
    {
        self == other
    }

    /// The actor with its next change. Refused as `Limit` past 64 bits.
    pub fn next(&self) -> Result<Author, MirrorError>
        ensures actor { IfOk result (λ next. next.actor ≡ self.now.actor) }
        ensures seq { IfOk result (λ next. next.seq ≡ self.now.seq + 1) }
        ensures err { IfErr result (λ e. (e ≡ Limit) × (2 ^ 64 ≤ self.now.seq + 1)) }
    {
        match self.seq.checked_add(1) {
            None => Err(MirrorError::Limit),
            Some(seq) => Ok(Author {
                actor: self.actor,
                seq,
            }),
        }
    }
}

/// What the name of a file ends with that was moved away: 16 bytes that nobody can guess.
#[derive(Clone, Copy, Debug, PartialEq, Eq, PartialOrd, Ord)]
pub struct Name(pub [u8; 16]);

impl Name {
    /// Whether the two are one name.
    pub fn is(&self, other: &Name) -> bool
        ensures { IsTrue result ↔ (self.now ≡ other.now) }
    {
        self == other
    }
}

/// A file that was NOTE and was moved away. An editor that has it open may still write to it.
#[derive(Drop)]
pub struct Moved {
    /// The end of its name.
    pub name: Name,
    /// The text that was read of it last.
    pub known: Known,
}

/// What the state file has, which a start goes on from.
#[derive(Drop)]
pub struct State {
    /// The document of the journal.
    pub document: DocId,
    /// Who makes the next change.
    pub author: Author,
    /// NOTE may have been moved away, so that an editor that makes it anew may have begun with nothing.
    pub is_away: bool,
    /// How many generations were begun. The number of the next one.
    pub begun: u64,
    /// The texts that are known, in the order in which they came to be: of a generation, the last one is its last.
    pub texts: Entries<Known>,
    /// The files that were moved away.
    pub moved: Entries<Moved>,
}

// Equal texts, in order.
fn copies_of_texts(alloc: Global, texts: &[Known]) -> Result<Entries<Known>, AllocError>
    ensures { IfOk result (λ copies. copies ≡ texts.now) }
{
    let mut copies = Entries::new(Vec::new(alloc));
    for known in texts {
        copies.push(known.copy(alloc)?)?;
    }
    Ok(copies)
}

// Equal files that were moved away, in order.
fn copies_of_moved(alloc: Global, moved: &[Moved]) -> Result<Entries<Moved>, AllocError>
    ensures { IfOk result (λ copies. copies ≡ moved.now) }
{
    let mut copies = Entries::new(Vec::new(alloc));
    for away in moved {
        copies.push(Moved {
            name: away.name,
            known: away.known.copy(alloc)?,
        })?;
    }
    Ok(copies)
}

impl State {
    /// An equal state. It takes memory for the texts.
    pub fn copy(&self, alloc: Global) -> Result<State, AllocError>
        ensures { IfOk result (λ copy. copy ≡ self.now) }
    {
        Ok(State {
            document: self.document,
            author: self.author,
            is_away: self.is_away,
            begun: self.begun,
            texts: copies_of_texts(alloc, self.texts.as_slice())?,
            moved: copies_of_moved(alloc, self.moved.as_slice())?,
        })
    }
}
