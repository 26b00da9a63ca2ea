//! The changes of a log as they come, and what is kept of them.

ghost use Rattle.std.specs.Prelude.{◌≡◌, ◌⊎◌, ◌&&◌, ◌+◌, ◌<◌, ◌^◌, List, [], ◌∷◌, ◌++◌, length, Some, None, OnOk, IfErr};
ghost use Rattle.tp_layout.specs.declared.parts.ChangeParts.{ChangeParts};
ghost use Rattle.tp_textpeer.specs.declared.error.ShowFault.TheVariants.{OutOfMemory};
ghost use Rattle.tp_textpeer.specs.Log.{is_by, depends_on, link_fault};
ghost use Rattle.tp_textpeer.specs.Chain.{Remembers, AllBelowCounter};

use crate::error::ShowFault;
use std::alloc::Global;
use tp_change::Change;
use tp_edit::apply_checked;
use tp_opid::{Actor, Hash};
use tp_rga::Sequence;

/// What is kept of the changes so far: their elements, and what the next change is judged by.
#[derive(Drop)]
pub(crate) struct Chain<S: Sequence> {
    pub(crate) sequence: S,
    pub(crate) author: Option<Actor>,
    pub(crate) last: Option<Hash>,
    pub(crate) next: u64,
}

// Whether the actor is the one whose log it is, if it is anyone's yet.
fn is_author(author: Option<Actor>, actor: &Actor) -> bool
    ensures { result ≡ is_by author actor.now }
{
    match author {
        None => true,
        Some(author) => author.is(actor),
    }
}

// Whether a change depends on just the last one.
fn is_after(last: Option<Hash>, deps: &[Hash]) -> bool
    ensures { result ≡ depends_on last deps.now }
{
    match (last, deps) {
        (None, []) => true,
        (Some(last), [dep]) => last.is(dep),
        _ => false,
    }
}

// Whether a change is by the author of the log, and depends on just the last change.
fn is_chained(author: Option<Actor>, last: Option<Hash>, change: &Change) -> bool
    ensures { result ≡ (is_by author change.now.actor && depends_on last change.now.deps) }
{
    is_author(author, &change.actor()) && is_after(last, change.deps())
}

// Puts in the next change, where it may follow the `count` changes that came before it.
pub(crate) fn admit<S: Sequence>(
    chain: &mut Chain<S>,
    count: u64,
    change: &Change,
) -> Result<(), ShowFault>
    requires below { AllBelowCounter (S.placed chain.old.sequence) chain.old.next }
    requires count { count + 1 < 2 ^ 64 }
    ensures below { OnOk result (AllBelowCounter (S.placed chain.new.sequence) chain.new.next) }
    ensures ok { OnOk result ((C : List ChangeParts) → length C ≡ count
        → Remembers C (S.placed chain.old.sequence)
        (S.removals chain.old.sequence) chain.old.author chain.old.last chain.old.next
        → (link_fault C change.now ≡ None)
        × Remembers (C ++ change.now ∷ []) (S.placed chain.new.sequence)
        (S.removals chain.new.sequence) chain.new.author chain.new.last chain.new.next) }
    ensures err { IfErr result (λ f. (f ≡ OutOfMemory) ⊎ ((C : List ChangeParts) → length C ≡ count
        → Remembers C (S.placed chain.old.sequence)
        (S.removals chain.old.sequence) chain.old.author chain.old.last chain.old.next
        → link_fault C change.now ≡ Some f)) }
{
    if !is_chained(chain.author, chain.last, change) {
        return Err(ShowFault::NotChain);
    }
    if change.seq() != count + 1 {
        return Err(ShowFault::BadSeq);
    }
    if change.start() != chain.next {
        return Err(ShowFault::BadStart);
    }
    if !apply_checked(&mut chain.sequence, change)? {
        return Err(ShowFault::BadReference);
    }
    chain.author = Some(change.actor());
    chain.last = Some(change.hash());
    chain.next = change.next_start();
    Ok(())
}
