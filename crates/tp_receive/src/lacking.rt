//! What the pending changes are known to lack: one of them isn't looked at again before that came.

ghost use Rattle.std.specs.Prelude.{◌≡◌, ◌<◌, ◌++◌, ◌∷◌, [], List, Option, Some, None, false, length, set, take, IfOk, MatchOption, IsTrue};
ghost use Rattle.tp_receive.specs.Common.{slice_get, remove, In, ChangeParts};
ghost use Rattle.std.specs.Option.{is_some};
ghost use Rattle.tp_opid.specs.declared.hash.Hash.{Hash as HashOf};
ghost use Rattle.tp_history.specs.Named as named;
ghost use Rattle.tp_receive.specs.Receiving.{AllWait};
ghost use Rattle.tp_receive.specs.Lacking.{GainsOnly, KnowsApart, KnowsLack, lacks_it};

use crate::hashes::is_one;
use crate::replica::Replica;
use std::alloc::{AllocError, AllocFailed, Global};
use std::marker::Model;
use tp_change::Change;
use tp_opid::Hash;

/// Of each pending change, in their order, one dependency that it is known to lack, where one is known.
#[derive(Drop)]
pub(crate) struct Lacking {
    hashes: Vec<Option<Hash>>,
}

impl Model for Lacking {
    ghost use Rattle.std.specs.Prelude.{List, Option};
    ghost use Rattle.tp_opid.specs.declared.hash.Hash.{Hash};

    ghost Value = { List (Option Hash) };

    ghost view = { λ l. l.hashes.items };
}

impl Lacking {
    /// Nothing is known of the pending changes.
    pub(crate) fn new(alloc: Global, pending: &[Change]) -> Result<Lacking, AllocError>
        ensures { IfOk result (λ l. (C : List ChangeParts) → KnowsLack C pending.now l) }
    {
        Ok(Lacking {
            hashes: vec![in alloc; None; pending.len()]?,
        })
    }

    /// Whether the change with the number `i` is known to lack a dependency.
    pub(crate) fn is_known(&self, i: usize) -> bool
        requires { i < length self.now }
        ensures { (lack : Option HashOf) → slice_get self.now i ≡ Some lack → result ≡ is_some lack }
    {
        self.hashes[i].is_some()
    }

    /// Notes what the change with the number `i` lacks.
    pub(crate) fn note(&mut self, i: usize, lack: Option<Hash>)
        requires { i < length self.old }
        ensures { self.new ≡ set self.old i lack }
    {
        self.hashes[i] = lack;
    }

    /// One more change waits, as the last, and nothing is known of it.
    pub(crate) fn push(&mut self) -> Result<(), AllocFailed<Option<Hash>>>
        ensures { IfOk result (λ _. self.new ≡ self.old ++ None ∷ []) }
    {
        self.hashes.push(None)
    }

    /// The change with the number `i` waits no longer. No memory.
    pub(crate) fn remove(&mut self, i: usize)
        requires { i < length self.old }
        ensures { self.new ≡ remove self.old i }
    {
        let _lack = self.hashes.remove(i);
    }

    /// Nothing is known any more of the pending changes that have the hash of one that came and entered. One comparison
    /// of hashes for each.
    pub(crate) fn forget_alike(&mut self, pending: &[Change], entered: &Hash)
        requires { length self.old ≡ length pending.now }
        ensures { (C : List ChangeParts) → KnowsLack C pending.now self.old
            → KnowsApart C entered.now pending.now self.new }
    {
        for i in 0..pending.len() {
            if is_one(entered, &pending[i].hash()) {
                self.hashes[i] = None;
            }
        }
    }

    /// A change with the hash entered, and no pending change that is known to lack another has that hash: what is known
    /// of those that lacked it isn't known any more. Returns how many, from the first on, are known to lack another.
    /// One comparison of hashes for each pending change.
    pub(crate) fn forget_lacked(&mut self, entered: &Hash) -> usize
        ensures knows { (C D W : List ChangeParts) → GainsOnly C D entered.now
            → KnowsApart C entered.now W self.old → KnowsLack D W self.new }
        ensures waits { (D W : List ChangeParts) → KnowsLack D W self.new
            → AllWait D (take result W) }
    {
        let mut known = 0;
        for i in 0..self.hashes.len() {
            if is_lacked(&self.hashes[i], entered) {
                self.hashes[i] = None;
            } else if known == i && self.hashes[i].is_some() {
                known = i + 1;
            }
        }
        known
    }
}

// Whether the hash is the one that is known to be lacked.
fn is_lacked(lack: &Option<Hash>, entered: &Hash) -> bool
    ensures { result ≡ lacks_it entered.now lack.now }
{
    match lack {
        Some(hash) => is_one(entered, hash),
        None => false,
    }
}

/// The first dependency of the change that isn't there, or None where each is. A look-up for each dependency up to it.
pub(crate) fn lack_of<R: Replica>(replica: &R, change: &Change) -> Option<Hash>
    ensures { MatchOption result (IsTrue (named.has_all (R.applied replica.now) change.now.deps))
        (λ h. In h change.now.deps × (named.has (R.applied replica.now) h ≡ false)) }
{
    for hash in change.deps() {
        if !replica.contains(hash) {
            return Some(*hash);
        }
    }
    None
}
