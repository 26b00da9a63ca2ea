//! The parts of a change as it keeps them.

ghost use Rattle.std.specs.Prelude.{◌≡◌, ◌<◌, ◌^◌, [], ◌∷◌, encode_utf8_all, IsTrue, IfOk};
ghost use Rattle.std.specs.Str.{chars, all_scalars};
ghost use Rattle.tp_layout.specs.Kept.{seq_of, message_of, deps_of, records_of, items_of, Has};

use crate::parts::ChangeParts;
use crate::record::Record;
use std::alloc::{AllocError, Global};
use std::marker::Model;
use std::slice::from_ref;
use tp_list::Text;
use tp_opid::{Actor, Hash};

/// The parts of a change that are kept in one of three ways.
#[derive(Drop)]
pub(crate) enum Kept {
    /// One dependency, one record and no message, after fewer than 2^32 changes of the actor: in the value itself.
    Small {
        seq: u32,
        dep: Hash,
        entry: Record,
    },
    /// One dependency, and any message and records: the records are in memory of their own.
    Single {
        seq: u64,
        dep: Hash,
        message: Text,
        records: Vec<Record>,
    },
    /// Any others: the lists are in memory of their own.
    Large {
        seq: u64,
        message: Text,
        deps: Vec<Hash>,
        records: Vec<Record>,
    },
}

/// A list as it is read.
#[derive(Drop)]
pub(crate) enum Few<T> {
    /// One element, which takes no memory.
    One(T),
    /// Any number.
    More(Vec<T>),
}

/// The parts of a change. Most changes are small, and take no memory but the value itself.
///
/// Contracts see the parts.
#[derive(Drop)]
pub struct Body {
    /// Who made the change.
    pub actor: Actor,
    /// The counter of its first operation.
    pub start: u64,
    /// When it was made, as the caller counts time.
    pub time: u64,
    pub(crate) kept: Kept,
}

impl Model for Body {
    ghost use Rattle.tp_layout.specs.declared.parts.ChangeParts.{ChangeParts};
    ghost use Rattle.tp_layout.specs.Kept.{seq_of, message_of, deps_of, records_of};

    ghost Value = { ChangeParts };

    ghost view = { λ b. record {
      actor = b.actor;
      seq = seq_of b.kept;
      start = b.start;
      time = b.time;
      message = message_of b.kept;
      deps = deps_of b.kept;
      records = records_of b.kept;
    } };
}

// Whether a change with the number and the message is small, where it has one dependency and one record.
fn is_plain(seq: u64, message: &Text) -> bool
    ensures { IsTrue result → (seq < 2 ^ 32) × (message.now ≡ []) }
{
    seq <= u32::MAX as u64 && message.is_empty()
}

// These parts. It takes no memory; that of a list that isn't kept is given back.
fn kept_of(seq: u64, message: Text, deps: Vec<Hash>, mut records: Vec<Record>) -> Kept
    ensures { Has seq message deps.items records.items result }
{
    if is_plain(seq, &message) && deps.len() == 1 && records.len() == 1 {
        if let Some(entry) = records.pop() {
            return Kept::Small {
                seq: seq as u32,
                dep: deps[0],
                entry,
            };
        }
    }
    if deps.len() == 1 {
        return Kept::Single {
            seq,
            dep: deps[0],
            message,
            records,
        };
    }
    Kept::Large {
        seq,
        message,
        deps,
        records,
    }
}

// A list of one. It takes memory.
fn list_of_one<T: Drop>(alloc: Global, item: T) -> Result<Vec<T>, AllocError>
    ensures { IfOk result (λ v. v.items ≡ item ∷ []) }
{
    let mut items = Vec::with_capacity(alloc, 1)?;
    items.push(item)?;
    Ok(items)
}

impl<T: Drop> Few<T> {
    // The elements in a list. It takes memory only for one alone.
    fn into_vec(self, alloc: Global) -> Result<Vec<T>, AllocError>
        ensures { IfOk result (λ v. v.items ≡ items_of self) }
    {
        match self {
            Few::One(item) => list_of_one(alloc, item),
            Few::More(items) => Ok(items),
        }
    }
}

// These parts, with the records in memory of their own.
fn with_record_list(
    alloc: Global,
    seq: u64,
    message: Text,
    deps: Few<Hash>,
    records: Few<Record>,
) -> Result<Kept, AllocError>
    ensures { IfOk result (Has seq message (items_of deps) (items_of records)) }
{
    let records = records.into_vec(alloc)?;
    Ok(match deps {
        Few::One(dep) => Kept::Single {
            seq,
            dep,
            message,
            records,
        },
        Few::More(deps) => Kept::Large {
            seq,
            message,
            deps,
            records,
        },
    })
}

impl Kept {
    /// These parts. It takes memory only where they aren't those of a small change.
    pub(crate) fn of_few(
        alloc: Global,
        seq: u64,
        message: Text,
        deps: Few<Hash>,
        records: Few<Record>,
    ) -> Result<Kept, AllocError>
        ensures { IfOk result (Has seq message (items_of deps) (items_of records)) }
    {
        if !is_plain(seq, &message) {
            return with_record_list(alloc, seq, message, deps, records);
        }
        match (deps, records) {
            (Few::One(dep), Few::One(entry)) => Ok(Kept::Small {
                seq: seq as u32,
                dep,
                entry,
            }),
            (deps, records) => with_record_list(alloc, seq, message, deps, records),
        }
    }

    // The sequence number.
    fn seq(&self) -> u64
        ensures { result ≡ seq_of self.now }
    {
        match self {
            Kept::Small {
                seq,
                dep: _,
                entry: _,
            } => *seq as u64,
            Kept::Single {
                seq,
                dep: _,
                message: _,
                records: _,
            } => *seq,
            Kept::Large {
                seq,
                message: _,
                deps: _,
                records: _,
            } => *seq,
        }
    }

    // The message.
    fn message(&self) -> &str
        ensures bytes { result.now ≡ encode_utf8_all (message_of self.now) }
        ensures chars { chars result.now ≡ message_of self.now }
        ensures scalars { IsTrue (all_scalars (message_of self.now)) }
    {
        match self {
            Kept::Small {
                seq: _,
                dep: _,
                entry: _,
            } => "",
            Kept::Single {
                seq: _,
                dep: _,
                message,
                records: _,
            } => message.as_str(),
            Kept::Large {
                seq: _,
                message,
                deps: _,
                records: _,
            } => message.as_str(),
        }
    }

    // The dependencies.
    fn deps(&self) -> &[Hash]
        ensures { result.now ≡ deps_of self.now }
    {
        match self {
            Kept::Small {
                seq: _,
                dep,
                entry: _,
            } => from_ref(dep),
            Kept::Single {
                seq: _,
                dep,
                message: _,
                records: _,
            } => from_ref(dep),
            Kept::Large {
                seq: _,
                message: _,
                deps,
                records: _,
            } => deps.as_slice(),
        }
    }

    // The records.
    fn records(&self) -> &[Record]
        ensures { result.now ≡ records_of self.now }
    {
        match self {
            Kept::Small {
                seq: _,
                dep: _,
                entry,
            } => from_ref(entry),
            Kept::Single {
                seq: _,
                dep: _,
                message: _,
                records,
            } => records.as_slice(),
            Kept::Large {
                seq: _,
                message: _,
                deps: _,
                records,
            } => records.as_slice(),
        }
    }
}

impl Body {
    /// These parts. It takes no memory.
    pub fn of(parts: ChangeParts) -> Body
        ensures { result ≡ parts }
    {
        let ChangeParts {
            actor,
            seq,
            start,
            time,
            message,
            deps,
            records,
        } = parts;
        Body {
            actor,
            start,
            time,
            kept: kept_of(seq, message, deps.into_vec(), records.into_vec()),
        }
    }

    /// The sequence number.
    pub fn seq(&self) -> u64
        ensures { result ≡ self.now.seq }
    {
        self.kept.seq()
    }

    /// The message.
    pub fn message(&self) -> &str
        ensures bytes { result.now ≡ encode_utf8_all self.now.message }
        ensures chars { chars result.now ≡ self.now.message }
        ensures scalars { IsTrue (all_scalars self.now.message) }
    {
        self.kept.message()
    }

    /// The dependencies.
    pub fn deps(&self) -> &[Hash]
        ensures { result.now ≡ self.now.deps }
    {
        self.kept.deps()
    }

    /// The records.
    pub fn records(&self) -> &[Record]
        ensures { result.now ≡ self.now.records }
    {
        self.kept.records()
    }
}
