//! Receiving changes, in a list or from another document.

ghost use Rattle.std.specs.Prelude.{◌≡◌, false};
ghost use Rattle.tp_history.specs.Sound.{Sound};
ghost use Rattle.tp_receive.specs.Delivery as delivery;
ghost use Rattle.tp_receive.specs.Outcome.{HasOutcome, ReceivesAlone, ReceivesWith};
ghost use Rattle.tp_document.specs.Applying.{HasMergeOutcome, kept_by, kept_by_none};
ghost use Rattle.tp_document.specs.DocError.{receiving};
ghost use Rattle.tp_document.specs.Merging as merging;

use crate::document::Document;
use crate::error::DocError;
use crate::merging::absent;
use tp_change::Change;
use tp_receive::{Applied, Keeper, NoKeeper, receive};
use tp_rga::Sequence;

impl<S: Sequence> Document<S> {
    /// Receives changes, as [`apply`](Document::apply) does, and asks the keeper to keep each before it enters.
    ///
    /// The refusals are those of `apply`, and `NotKept` where the keeper refused a change: it leaves the document as
    /// `OutOfMemory` does.
    pub fn apply_with<K: Keeper>(
        &mut self,
        changes: Vec<Change>,
        keeper: &mut K,
    ) -> Result<Applied, DocError>
        ensures id { self.new.id ≡ self.old.id }
        ensures sound { Sound self.old.applied }
        ensures outcome { HasOutcome receiving result (ReceivesWith K.keeps K.refuses
            (kept_by keeper.old self.old) changes.items (kept_by keeper.new self.new)) }
    {
        let alloc = self.alloc;
        match receive(alloc, self, keeper, changes) {
            Ok(applied) => Ok(applied),
            Err(error) => Err(DocError::from(error)),
        }
    }

    /// Receives changes in any order, as Automerge's call `apply_changes` does: each is refused, waits where a
    /// dependency is missing, or enters. They are taken in the given order. First, and after each entry, the pending
    /// changes whose dependencies are all there are tried, from the earliest that came; one that doesn't fit is
    /// dropped and reported. A change that is pending already doesn't wait twice. See [`receive`] for the rules in full.
    ///
    /// `PendingFull` where more than 1,024 changes would have to wait: nothing changes. `OutOfMemory` leaves the
    /// document between: it holds a beginning of the changes that it would have entered, each whole, and of what
    /// waited nothing is lost. The change of the list that was being tried and those after it have to come again.
    ///
    /// An applied change costs its check and its operations. The pending ones are looked at again only where
    /// something entered.
    pub fn apply(&mut self, changes: Vec<Change>) -> Result<Applied, DocError>
        ensures id { self.new.id ≡ self.old.id }
        ensures sound { Sound self.old.applied }
        ensures outcome { HasOutcome receiving result (ReceivesAlone
            (kept_by_none self.old) changes.items (kept_by_none self.new)) }
    {
        let mut keeper = NoKeeper;
        self.apply_with(changes, &mut keeper)
    }

    /// Receives the other's applied changes that are absent here, as [`apply_with`](Document::apply_with) does.
    ///
    /// `OtherDocument` where the identifiers differ: nothing changes. The other refusals are `OutOfMemory` and
    /// `NotKept`, which leave the document as they do there. One look-up for each of the other's changes.
    pub fn merge_with<K: Keeper>(
        &mut self,
        other: &Document<S>,
        keeper: &mut K,
    ) -> Result<Applied, DocError>
        ensures id { self.new.id ≡ self.old.id }
        ensures sound { Sound self.old.applied }
        ensures space { delivery.is_full self.old.applied self.old.waiting
            (merging.absent self.old.applied other.now.applied) ≡ false }
        ensures outcome { HasMergeOutcome self.old.id other.now.id
            (kept_by keeper.old self.old) (kept_by keeper.new self.new) result
            (ReceivesWith K.keeps K.refuses (kept_by keeper.old self.old)
            (merging.absent self.old.applied other.now.applied) (kept_by keeper.new self.new)) }
    {
        let _pending = self.pending().len();
        if !self.id.is(&other.id) {
            return Err(DocError::OtherDocument);
        }
        match absent(self, other.changes()) {
            Ok(changes) => self.apply_with(changes, keeper),
            Err(_) => Err(DocError::OutOfMemory),
        }
    }

    /// Receives the other's applied changes that are absent here, as [`apply`](Document::apply) does and as
    /// Automerge's call of that name.
    ///
    /// `OtherDocument` where the identifiers differ: nothing changes. The only other refusal is `OutOfMemory`, which
    /// leaves the document as it does there. One look-up for each of the other's changes.
    pub fn merge(&mut self, other: &Document<S>) -> Result<Applied, DocError>
        ensures id { self.new.id ≡ self.old.id }
        ensures sound { Sound self.old.applied }
        ensures space { delivery.is_full self.old.applied self.old.waiting
            (merging.absent self.old.applied other.now.applied) ≡ false }
        ensures outcome { HasMergeOutcome self.old.id other.now.id
            (kept_by_none self.old) (kept_by_none self.new) result
            (ReceivesAlone (kept_by_none self.old)
            (merging.absent self.old.applied other.now.applied) (kept_by_none self.new)) }
    {
        let mut keeper = NoKeeper;
        self.merge_with(other, &mut keeper)
    }
}
