//! A change within the limits, with its hash.

ghost use Rattle.std.specs.Prelude.{◌≡◌, IfOk, IsOkUnless};
ghost use Rattle.std.specs.Str.{chars};
ghost use Rattle.tp_layout.specs.declared.error.ChangeError.TheVariants.{OutOfMemory};

use std::alloc::Global;
use std::marker::Model;
use std::mem::size_of;
use tp_layout::{Body, ChangeError, Record};
use tp_opid::{Actor, Hash};

/// A change: parts that are within the limits and the grammar, with their hash.
///
/// Contracts see its parts. It keeps the allocator that it was made with, and its hash, which is taken once.
pub struct Change {
    pub(crate) alloc: Global,
    pub(crate) body: Body,
    pub(crate) hash: Hash,
}

impl Drop for Change {
    fn drop(self) {
        let Change {
            alloc: _,
            body: _,
            hash: _,
        } = self;
    }
}

impl Model for Change {
    ghost use Rattle.std.specs.Prelude.{◌≡◌};
    ghost use Rattle.tp_layout.specs.declared.parts.ChangeParts.{ChangeParts};
    ghost use Rattle.tp_layout.specs.Limits.{IsChange};
    ghost use Rattle.tp_change.specs.ChangeHash.{hash_of};

    ghost Value = { ChangeParts };

    ghost view = { λ c. c.body };

    ghost invariant = { λ c. IsChange c.body × (c.hash ≡ hash_of c.body) };
}

impl Change {
    ghost use Rattle.tp_change.specs.ChangeHash.{hash_of};
    ghost use Rattle.tp_layout.specs.Limits.{IsChange};

    /// The hash: the SHA-256 of its bytes. It was taken when the change was made.
    pub fn hash(&self) -> Hash
        ensures hash { result ≡ hash_of self.now }
        ensures limits { IsChange self.now }
    {
        self.hash
    }

    /// Who made it.
    pub fn actor(&self) -> Actor
        ensures { result ≡ self.now.actor }
    {
        self.body.actor
    }

    /// Its number among the actor's changes, from 1.
    pub fn seq(&self) -> u64
        ensures { result ≡ self.now.seq }
    {
        self.body.seq()
    }

    /// The counter of its first operation, from 1.
    pub fn start(&self) -> u64
        ensures { result ≡ self.now.start }
    {
        self.body.start
    }

    /// When it was made, as the caller counts time.
    pub fn time(&self) -> u64
        ensures { result ≡ self.now.time }
    {
        self.body.time
    }

    /// The message for people.
    pub fn message(&self) -> &str
        ensures { chars result.now ≡ self.now.message }
    {
        self.body.message()
    }

    /// The hashes of the changes that it depends on, rising.
    pub fn deps(&self) -> &[Hash]
        ensures { result.now ≡ self.now.deps }
    {
        self.body.deps()
    }

    /// The records, one at least.
    pub fn records(&self) -> &[Record]
        ensures { result.now ≡ self.now.records }
    {
        self.body.records()
    }

    /// An equal change, from the same allocator. Its hash is copied and not taken again. The only refusal is
    /// `OutOfMemory`; the cost is that of copying the parts.
    pub fn copy(&self) -> Result<Change, ChangeError>
        ensures copied { IfOk result (λ copied. copied ≡ self.now) }
        ensures err { IsOkUnless result OutOfMemory }
    {
        Ok(Change {
            alloc: self.alloc,
            body: self.body.copy(self.alloc)?,
            hash: self.hash,
        })
    }
}

// Memory for a text goes by the number of its changes: a form that takes more is to be chosen knowingly.
const _: () = prove!(size_of::<Change>() == 176);
