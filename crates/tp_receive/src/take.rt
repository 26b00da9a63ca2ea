//! Taking one change that came.

ghost use Rattle.std.specs.Prelude.{◌≡◌, ◌∷◌, Bool, List, OnOk, OnErr, IfErr};
ghost use Rattle.tp_layout.specs.declared.parts.ChangeParts.{ChangeParts};
ghost use Rattle.tp_history.specs.Named as named;
ghost use Rattle.tp_receive.specs.Receiving.{AllWait};
ghost use Rattle.tp_receive.specs.Delivery.{slots};
ghost use Rattle.tp_receive.specs.Intake.{SomeTurns, Stops, receiver};
ghost use Rattle.tp_receive.specs.Lacking.{KnowsLack};
ghost use Rattle.tp_receive.specs.Trying.{WaitsOrIsDropped, so_far};

use crate::admit::{Admission, admit};
use crate::error::ReceiveError;
use crate::hashes::is_one;
use crate::keeper::Keeper;
use crate::lacking::Lacking;
use crate::log::Log;
use crate::replica::Replica;
use crate::settle::settle;
use tp_change::Change;
use tp_graph::{GraphError, MOST_WAITING};
use tp_opid::Hash;

/// Whether one of the changes has the hash.
pub(crate) fn has_hash(changes: &[Change], hash: &Hash) -> bool
    ensures { result ≡ named.has changes.now hash.now }
{
    for change in changes {
        if is_one(&change.hash(), hash) {
            return true;
        }
    }
    false
}

// Lets a change wait, where one with its hash doesn't wait already. Where there is no space beside the reserved
// slots it is dropped and reported.
fn let_wait<R: Replica>(
    replica: &mut R,
    lacking: &mut Lacking,
    change: Change,
    reserved: usize,
    reported: &mut Log,
) -> Result<(), ReceiveError>
    requires { KnowsLack (R.applied replica.old) (R.waiting replica.old) lacking.old }
    ensures id { R.id replica.new ≡ R.id replica.old }
    ensures applied { R.applied replica.new ≡ R.applied replica.old }
    ensures reported { reported.new.applied.items ≡ reported.old.applied.items }
    ensures ok { OnOk result
        (WaitsOrIsDropped (R.waiting replica.old) change reserved (R.waiting replica.new)
        reported.old.refused.items reported.new.refused.items) }
    ensures err { IfErr result (λ e. e ≡ ReceiveError.OutOfMemory) }
    ensures stays { OnErr result (R.waiting replica.new ≡ R.waiting replica.old) }
    ensures knows { OnOk result
        (KnowsLack (R.applied replica.new) (R.waiting replica.new) lacking.new) }
{
    let hash = change.hash();
    if has_hash(replica.pending(), &hash) {
        return Ok(());
    }
    let free = MOST_WAITING - replica.pending().len();
    if reserved < free {
        lacking.push()?;
        match replica.hold(change) {
            Ok(()) => Ok(()),
            Err(_) => Err(ReceiveError::OutOfMemory),
        }
    } else {
        reported.refused.push((hash, GraphError::MissingDeps))?;
        Ok(())
    }
}

/// Gives the next change that came its turn: it enters, and what it lets enter of those that wait; or it is refused
/// and reported, or waits, where the waiting changes and the reserved slots are fewer than 1,024. An error loses none of
/// those that waited.
pub(crate) fn take<R: Replica, K: Keeper>(
    replica: &mut R,
    keeper: &mut K,
    lacking: &mut Lacking,
    change: Change,
    reserved: usize,
    reported: &mut Log,
) -> Result<(), ReceiveError>
    requires settled { AllWait (R.applied replica.old) (R.waiting replica.old) }
    requires knows { KnowsLack (R.applied replica.old) (R.waiting replica.old) lacking.old }
    ensures id { R.id replica.new ≡ R.id replica.old }
    ensures ok { (slot : Bool) (P : List (ChangeParts × Bool)) → reserved ≡ slots P
        → OnOk result (SomeTurns K.keeps
        (so_far keeper.old (R.applied replica.old) (R.waiting replica.old)
        ((change, slot) ∷ P) reported.old)
        (so_far keeper.new (R.applied replica.new) (R.waiting replica.new) P reported.new)) }
    ensures settled { OnOk result (AllWait (R.applied replica.new) (R.waiting replica.new)) }
    ensures err { (slot : Bool) (P : List (ChangeParts × Bool)) → reserved ≡ slots P
        → IfErr result (λ e. Stops K.keeps K.refuses
        (so_far keeper.old (R.applied replica.old) (R.waiting replica.old)
        ((change, slot) ∷ P) reported.old)
        e (receiver keeper.new (R.applied replica.new) (R.waiting replica.new))) }
    ensures knows { OnOk result
        (KnowsLack (R.applied replica.new) (R.waiting replica.new) lacking.new) }
{
    let hash = change.hash();
    match admit(replica, keeper, change, reported)? {
        Admission::Entered => {
            lacking.forget_alike(replica.pending(), &hash);
            let known = lacking.forget_lacked(&hash);
            settle(replica, keeper, lacking, known, reported)
        }
        Admission::Refused => Ok(()),
        Admission::Waits(change) => let_wait(replica, lacking, change, reserved, reported),
    }
}
