//! Trying one change: it enters, is refused, or must wait.

ghost use Rattle.std.specs.Prelude.{◌≡◌, ◌++◌, ◌∷◌, [], List, None, OnOk, OnErr, IfOk, IfErr};
ghost use Rattle.tp_receive.specs.Common.{hash_of, cause, ChangeParts};
ghost use Rattle.tp_receive.specs.Trying.{TriesChange, RefusesTry, so_far};

use crate::error::ReceiveError;
use crate::keeper::{KeepError, Keeper};
use crate::log::Log;
use crate::replica::Replica;
use crate::verdict::{Verdict, judge};
use tp_change::Change;

/// What became of a change that was tried.
#[derive(Drop)]
pub(crate) enum Admission {
    /// It entered.
    Entered,
    /// It was refused and reported.
    Refused,
    /// A dependency isn't there: it is given back.
    Waits(Change),
}

/// Keeps a change, with the refusal as this crate's.
pub(crate) fn keep<K: Keeper>(keeper: &mut K, change: &Change) -> Result<(), ReceiveError>
    ensures ok { OnOk result (K.keeps keeper.old change.now keeper.new) }
    ensures err { (C : List ChangeParts) → cause C change.now ≡ None
        → IfErr result (λ e. RefusesTry K.refuses C change.now keeper.old e keeper.new) }
{
    match keeper.keep(change) {
        Ok(()) => Ok(()),
        Err(KeepError::NotKept) => Err(ReceiveError::NotKept),
        Err(KeepError::OutOfMemory) => Err(ReceiveError::OutOfMemory),
    }
}

// Keeps a change and then enters it.
fn enter_kept<R: Replica, K: Keeper>(
    replica: &mut R,
    keeper: &mut K,
    change: Change,
    reported: &mut Log,
) -> Result<(), ReceiveError>
    requires enters { cause (R.applied replica.old) change ≡ None }
    requires room { R.has_room replica.old change }
    ensures id { R.id replica.new ≡ R.id replica.old }
    ensures waiting { R.waiting replica.new ≡ R.waiting replica.old }
    ensures kept { OnOk result (K.keeps keeper.old change keeper.new) }
    ensures applied { OnOk result (R.applied replica.new ≡ R.applied replica.old ++ change ∷ []) }
    ensures reported { OnOk result
        (reported.new.applied.items ≡ reported.old.applied.items ++ hash_of change ∷ []) }
    ensures refused { OnOk result (reported.new.refused.items ≡ reported.old.refused.items) }
    ensures err { IfErr result
        (λ e. RefusesTry K.refuses (R.applied replica.old) change keeper.old e keeper.new) }
    ensures stays { OnErr result (R.applied replica.new ≡ R.applied replica.old) }
{
    reported.applied.push(change.hash())?;
    keep(keeper, &change)?;
    replica.enter(change);
    Ok(())
}

/// Tries a change: where it can enter it is kept and enters, where it can't it is reported, where it must wait it is
/// given back. An error leaves what is applied and what waits as they were; the change is let go.
pub(crate) fn admit<R: Replica, K: Keeper>(
    replica: &mut R,
    keeper: &mut K,
    change: Change,
    reported: &mut Log,
) -> Result<Admission, ReceiveError>
    ensures id { R.id replica.new ≡ R.id replica.old }
    ensures waiting { R.waiting replica.new ≡ R.waiting replica.old }
    ensures ok { IfOk result
        (λ o. TriesChange K.keeps (so_far keeper.old (R.applied replica.old) [] [] reported.old) change
        (so_far keeper.new (R.applied replica.new) [] [] reported.new) o) }
    ensures err { IfErr result
        (λ e. RefusesTry K.refuses (R.applied replica.old) change keeper.old e keeper.new) }
    ensures stays { OnErr result (R.applied replica.new ≡ R.applied replica.old) }
{
    match judge(replica.ready(&change))? {
        Verdict::Enters => {
            enter_kept(replica, keeper, change, reported)?;
            Ok(Admission::Entered)
        }
        Verdict::Waits => Ok(Admission::Waits(change)),
        Verdict::Refused(error) => {
            reported.refused.push((change.hash(), error))?;
            Ok(Admission::Refused)
        }
    }
}
