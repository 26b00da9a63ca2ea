//! The links of a peer: what it knows of each of the others with which it exchanges messages.

ghost use Rattle.std.specs.Prelude.{◌≡◌, ◌<◌, ◌++◌, ◌∷◌, [], false, length, IfOk, IsOkUnless, OnOk, MatchOption};
ghost use Rattle.std.specs.List.{remove};
ghost use Rattle.std.specs.Vec.{vec_len, vec_capacity};
ghost use Rattle.tp_peer.specs.declared.error.PeerError.TheVariants.{OutOfMemory};
ghost use Rattle.tp_peer.specs.Links.{has_link, is_one_too_many, known_of, with_link, without_link, IsLinkAt};

use crate::error::PeerError;
use std::alloc::Global;
use std::marker::Model;
use tp_sync::SyncState;

/// The most links of a peer.
pub const MAX_LINKS: usize = 1_024;

/// Names the other side of an exchange. A peer has at most 1,024 of them at a time.
#[derive(Clone, Copy, Debug, PartialEq, Eq, PartialOrd, Ord, Hash)]
pub struct Link(pub u64);

/// The links of a peer, in the order in which they were made: at most 1,024, each number once.
///
/// Contracts see the list of them, and for how many more room was made.
#[derive(Drop)]
pub(crate) struct Links {
    links: Vec<(u64, SyncState)>,
}

impl Model for Links {
    ghost use Rattle.std.specs.Prelude.{◌-◌};
    ghost use Rattle.std.specs.Vec.{vec_len, vec_capacity};
    ghost use Rattle.tp_peer.specs.Links.{LinksState, AreLinks};

    ghost Value = { LinksState };

    ghost view = { λ a. record { known = a.links.items; space = vec_capacity a.links - vec_len a.links } };

    ghost invariant = { λ a. AreLinks a.links.items };
}

// The index of the link with the number, if there is one. One pass.
fn index_of(links: &[(u64, SyncState)], number: u64) -> Option<usize>
    ensures { MatchOption result (has_link links.now number ≡ false)
        (λ i. IsLinkAt links.now number i) }
{
    for i in 0..links.len() {
        if links[i].0 == number {
            return Some(i);
        }
    }
    None
}

// Puts what is known of the link at the index.
fn put(links: &mut Vec<(u64, SyncState)>, number: u64, index: usize, state: SyncState)
    requires { IsLinkAt links.old.items number index }
    ensures { links.new.items ≡ with_link links.old.items number state }
{
    links[index].1 = state;
}

// Takes out the link at the index, and forgets what is known of it.
fn take_out(links: &mut Vec<(u64, SyncState)>, index: usize)
    requires { index < length links.old.items }
    ensures { links.new.items ≡ remove links.old.items index }
{
    let _link = links.remove(index);
}

// Puts an item at the end of a vector that has room for it.
fn push_within<T: Drop>(items: &mut Vec<T>, item: T)
    requires { vec_len items.old < vec_capacity items.old }
    ensures { items.new.items ≡ items.old.items ++ item ∷ [] }
{
    match items.push(item) {
        Ok(()) => {}
        Err(_) => unreachable!(),
    }
}

impl Links {
    /// No links. No memory.
    pub(crate) fn new(alloc: Global) -> Links
        ensures { result.known ≡ [] }
    {
        Links {
            links: Vec::new(alloc),
        }
    }

    /// Whether the link would be a new one, and there are 1,024.
    pub(crate) fn is_full_for(&self, link: Link) -> bool
        ensures { result ≡ is_one_too_many self.now.known link.0 }
    {
        match index_of(&self.links, link.0) {
            Some(_) => false,
            None => self.links.len() >= MAX_LINKS,
        }
    }

    /// A copy of what is known on the link, which need not be there. The only refusal is `OutOfMemory`.
    pub(crate) fn state_on(&self, alloc: Global, link: Link) -> Result<SyncState, PeerError>
        ensures known { IfOk result (λ s. s ≡ known_of self.now.known link.0) }
        ensures err { IsOkUnless result OutOfMemory }
    {
        match index_of(&self.links, link.0) {
            Some(i) => match self.links[i].1.copy(alloc) {
                Ok(state) => Ok(state),
                Err(_) => Err(PeerError::OutOfMemory),
            },
            None => Ok(SyncState::new(alloc)),
        }
    }

    /// Makes room for one link more. The only refusal is `OutOfMemory`.
    pub(crate) fn reserve(&mut self) -> Result<(), PeerError>
        ensures same { self.new.known ≡ self.old.known }
        ensures room { OnOk result (0 < self.new.space) }
        ensures err { IsOkUnless result OutOfMemory }
    {
        match self.links.reserve(1) {
            Ok(()) => Ok(()),
            Err(_) => Err(PeerError::OutOfMemory),
        }
    }

    /// Notes what is known on the link, which is made where it isn't there. No memory.
    pub(crate) fn set(&mut self, link: Link, state: SyncState)
        requires few { is_one_too_many self.old.known link.0 ≡ false }
        requires room { 0 < self.old.space }
        ensures { self.new.known ≡ with_link self.old.known link.0 state }
    {
        match index_of(&self.links, link.0) {
            Some(i) => put(&mut self.links, link.0, i, state),
            None => push_within(&mut self.links, (link.0, state)),
        }
    }

    /// Forgets the link, if it is there. No memory.
    pub(crate) fn forget(&mut self, link: Link)
        ensures { self.new.known ≡ without_link self.old.known link.0 }
    {
        if let Some(i) = index_of(&self.links, link.0) {
            take_out(&mut self.links, i);
        }
    }
}
