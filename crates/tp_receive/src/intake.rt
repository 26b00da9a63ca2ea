//! Receiving changes in any order.

ghost use Rattle.std.specs.Prelude.{◌≡◌, [], length, Some, OnOk, IfErr};
ghost use Rattle.tp_receive.specs.Common.{zip};
ghost use Rattle.tp_history.specs.Sound.{Sound};
ghost use Rattle.tp_receive.specs.Receiving.{AllWait};
ghost use Rattle.tp_receive.specs.Delivery as delivery;
ghost use Rattle.tp_receive.specs.Intake.{SomeTurns, Stops, receiver};
ghost use Rattle.tp_receive.specs.Lacking.{KnowsLack};
ghost use Rattle.tp_receive.specs.Outcome.{HasOutcome, ReceivesWith};
ghost use Rattle.tp_receive.specs.Trying.{so_far};

use crate::coming::{Slots, reserve};
use crate::error::ReceiveError;
use crate::hashes::{held_of, list_of};
use crate::keeper::Keeper;
use crate::lacking::Lacking;
use crate::log::Log;
use crate::replica::Replica;
use crate::settle::settle;
use crate::take::take;
use std::alloc::Global;
use tp_change::Change;
use tp_graph::{GraphError, MOST_WAITING};
use tp_opid::Hash;

// Gives the pending changes and then those that come their turns, until none is left. At each turn the slots after it
// stay reserved.
fn take_all<R: Replica, K: Keeper>(
    replica: &mut R,
    keeper: &mut K,
    lacking: &mut Lacking,
    changes: Vec<Change>,
    slots: &Slots,
    reported: &mut Log,
) -> Result<(), ReceiveError>
    requires long { length slots.now.marks.items ≡ length changes.items }
    requires count { slots.now.reserved ≡ delivery.slots (zip changes.items slots.now.marks.items) }
    requires knows { KnowsLack (R.applied replica.old) (R.waiting replica.old) lacking.old }
    ensures id { R.id replica.new ≡ R.id replica.old }
    ensures ok { OnOk result (SomeTurns K.keeps
        (so_far keeper.old (R.applied replica.old) (R.waiting replica.old)
        (zip changes.items slots.now.marks.items) reported.old)
        (so_far keeper.new (R.applied replica.new) (R.waiting replica.new) [] reported.new)) }
    ensures settled { OnOk result (AllWait (R.applied replica.new) (R.waiting replica.new)) }
    ensures err { IfErr result (λ e. Stops K.keeps K.refuses
        (so_far keeper.old (R.applied replica.old) (R.waiting replica.old)
        (zip changes.items slots.now.marks.items) reported.old)
        e (receiver keeper.new (R.applied replica.new) (R.waiting replica.new))) }
{
    settle(replica, keeper, lacking, 0, reported)?;
    let mut reserved = slots.reserved;
    let mut place = 0;
    for change in changes {
        let slot = slots.marks[place];
        if slot {
            reserved -= 1;
        }
        place += 1;
        take(replica, keeper, lacking, change, reserved, reported)?;
    }
    Ok(())
}

/// What became of the changes that were received.
#[derive(Drop)]
pub struct Applied {
    /// The hashes of the changes that entered, in order, also of those that waited before.
    pub applied: Vec<Hash>,
    /// The hashes of those that came and wait now, each once, in the order in which they wait.
    pub held: Vec<Hash>,
    /// The hashes of those that were refused, each with its cause. `MissingDeps` is reported with those that had to
    /// wait and were dropped for want of space.
    pub refused: Vec<(Hash, GraphError)>,
}

/// Receives changes, one turn after another, by three rules:
/// - The earliest pending change that lacks no dependency has its turn. It enters after the keeper kept it, or is
///   dropped and reported with its cause.
/// - Where there is none, the next of the list has its turn. It enters after the keeper kept it, is refused and reported,
///   or, where it lacks a dependency, waits as the last. One whose hash waits already doesn't wait twice.
/// - It ends where none is left.
///
/// So a change that enters twice in the list is refused as `Known` at its second turn.
///
/// A change of the list is deliverable where each of its dependencies is applied, as the list begins, or an earlier
/// deliverable change of the list. Each hash of the undeliverable ones that isn't pending has a slot reserved until
/// its first turn. `PendingFull` comes exactly where the pending changes and these slots are more than 1,024, and
/// changes nothing. A change that must wait is dropped and reported as `MissingDeps` where the pending changes and the
/// slots still reserved are 1,024: only a deliverable one is, since an earlier one was refused, and it could never
/// have entered with the others.
///
/// Where two changes of what waits and came with one hash are one, each refusal that is reported is the change's cause
/// against the final list, and the result is complete: every change has entered or has a cause. See
/// [`laws`](crate::laws) for this and for more that follows.
///
/// `NotKept` and `OutOfMemory` stop at some turn: what entered until then stays, and of what waited, also since the
/// call began, nothing is lost. Only the change of the list whose turn it was and those after it are let go: they have
/// to come again.
///
/// The dependencies of a pending change are looked up once, and again where the one that it was found to lack entered, or
/// a change with its own hash; it is judged once, at its turn. Any other entry costs one comparison of hashes for each
/// pending change, of which there are 1,024 at most, and one more where the change that entered came with this call.
pub fn receive<R: Replica, K: Keeper>(
    alloc: Global,
    replica: &mut R,
    keeper: &mut K,
    changes: Vec<Change>,
) -> Result<Applied, ReceiveError>
    ensures id { R.id replica.new ≡ R.id replica.old }
    ensures sound { Sound (R.applied replica.old) }
    ensures outcome { HasOutcome Some result (ReceivesWith K.keeps K.refuses
        (receiver keeper.old (R.applied replica.old) (R.waiting replica.old)) changes.items
        (receiver keeper.new (R.applied replica.new) (R.waiting replica.new))) }
{
    let _applied = replica.changes();
    let came = list_of(alloc, &changes)?;
    let slots = reserve(alloc, replica, &changes)?;
    if MOST_WAITING - replica.pending().len() < slots.reserved {
        return Err(ReceiveError::PendingFull);
    }
    let mut lacking = Lacking::new(alloc, replica.pending())?;
    let mut reported = Log::new(alloc);
    take_all(
        replica,
        keeper,
        &mut lacking,
        changes,
        &slots,
        &mut reported,
    )?;
    let held = held_of(alloc, came, replica.pending())?;
    Ok(Applied {
        applied: reported.applied,
        held,
        refused: reported.refused,
    })
}
