//! Trying the changes that wait.

ghost use Rattle.std.specs.Prelude.{◌≡◌, ◌+◌, ◌<◌, ◌++◌, ◌∷◌, [], Bool, List, None, Some, length, take, OnOk, OnErr, IfOk, IfErr, MatchOption};
ghost use Rattle.tp_receive.specs.Common.{slice_get, remove, ChangeParts, hash_of, cause};
ghost use Rattle.tp_receive.specs.Trying.{IsEarliest, TriesChange, RefusesTry, so_far};
ghost use Rattle.tp_receive.specs.Receiving.{AllWait, lacks_deps};
ghost use Rattle.tp_receive.specs.Intake.{SomeTurns, Stops, Turn, receiver};
ghost use Rattle.tp_receive.specs.Lacking.{GainsOnly, KnowsLack};

use crate::admit::{Admission, keep};
use crate::error::ReceiveError;
use crate::keeper::Keeper;
use crate::lacking::{Lacking, lack_of};
use crate::log::Log;
use crate::replica::Replica;
use crate::verdict::{Verdict, judge};
use tp_change::Change;
use tp_graph::GraphError;

// Whether the pending change with the number `i` must wait. One that is known to lack a dependency isn't looked at, and of
// any other that must wait a dependency that it lacks is noted.
fn waits_at<R: Replica>(replica: &R, lacking: &mut Lacking, i: usize) -> bool
    requires within { i < length (R.waiting replica.now) }
    requires knows { KnowsLack (R.applied replica.now) (R.waiting replica.now) lacking.old }
    ensures knows { KnowsLack (R.applied replica.now) (R.waiting replica.now) lacking.new }
    ensures waits { (c : ChangeParts) → slice_get (R.waiting replica.now) i ≡ Some c
        → result ≡ lacks_deps (cause (R.applied replica.now) c) }
{
    if lacking.is_known(i) {
        return true;
    }
    let waiting = &replica.pending()[i];
    if replica.contains(&waiting.hash()) {
        return false;
    }
    match lack_of(replica, waiting) {
        Some(hash) => {
            lacking.note(i, Some(hash));
            true
        }
        None => false,
    }
}

// The number of the earliest pending change that needn't wait, where those before the number `from` must. Of each of the
// others that isn't known to lack a dependency the dependencies are looked up.
fn first_ready<R: Replica>(replica: &R, lacking: &mut Lacking, from: usize) -> Option<usize>
    requires knows { KnowsLack (R.applied replica.now) (R.waiting replica.now) lacking.old }
    requires waits { AllWait (R.applied replica.now) (take from (R.waiting replica.now)) }
    ensures knows { KnowsLack (R.applied replica.now) (R.waiting replica.now) lacking.new }
    ensures found { MatchOption result (AllWait (R.applied replica.now) (R.waiting replica.now))
        (λ i. IsEarliest (R.applied replica.now) (R.waiting replica.now) i) }
{
    let count = replica.pending().len();
    for i in from..count {
        if !waits_at(replica, lacking, i) {
            return Some(i);
        }
    }
    None
}

// Keeps a pending change that was made ready for, takes it out and enters it. An error leaves it waiting.
fn enter_waiting<R: Replica, K: Keeper>(
    replica: &mut R,
    keeper: &mut K,
    i: usize,
    reported: &mut Log,
) -> Result<(), ReceiveError>
    requires within { i < length (R.waiting replica.old) }
    requires enters { (c : ChangeParts) → slice_get (R.waiting replica.old) i ≡ Some c
        → cause (R.applied replica.old) c ≡ None }
    requires room { (c : ChangeParts) → slice_get (R.waiting replica.old) i ≡ Some c
        → R.has_room replica.old c }
    ensures id { R.id replica.new ≡ R.id replica.old }
    ensures ok { (c : ChangeParts) → slice_get (R.waiting replica.old) i ≡ Some c
        → OnOk result (TriesChange K.keeps
        (so_far keeper.old (R.applied replica.old) [] [] reported.old) c
        (so_far keeper.new (R.applied replica.new) [] [] reported.new) Admission.Entered) }
    ensures out { OnOk result (R.waiting replica.new ≡ remove (R.waiting replica.old) i) }
    ensures err { (c : ChangeParts) → slice_get (R.waiting replica.old) i ≡ Some c
        → IfErr result (λ e. RefusesTry K.refuses (R.applied replica.old) c keeper.old e keeper.new) }
    ensures applied { OnErr result (R.applied replica.new ≡ R.applied replica.old) }
    ensures waiting { OnErr result (R.waiting replica.new ≡ R.waiting replica.old) }
{
    let change = &replica.pending()[i];
    reported.applied.push(change.hash())?;
    keep(keeper, change)?;
    let change = replica.release(i);
    replica.enter(change);
    Ok(())
}

// Tells a pending change as refused and takes it out. An error leaves it waiting.
fn refuse_waiting<R: Replica>(
    replica: &mut R,
    i: usize,
    error: GraphError,
    reported: &mut Log,
) -> Result<(), ReceiveError>
    requires within { i < length (R.waiting replica.old) }
    ensures id { R.id replica.new ≡ R.id replica.old }
    ensures ok { (c : ChangeParts) → slice_get (R.waiting replica.old) i ≡ Some c
        → OnOk result (reported.new.refused.items
        ≡ reported.old.refused.items ++ (hash_of c, error) ∷ []) }
    ensures reported { reported.new.applied.items ≡ reported.old.applied.items }
    ensures out { OnOk result (R.waiting replica.new ≡ remove (R.waiting replica.old) i) }
    ensures applied { R.applied replica.new ≡ R.applied replica.old }
    ensures err { IfErr result (λ e. e ≡ ReceiveError.OutOfMemory) }
    ensures waiting { OnErr result (R.waiting replica.new ≡ R.waiting replica.old) }
{
    let hash = replica.pending()[i].hash();
    reported.refused.push((hash, error))?;
    let _change = replica.release(i);
    Ok(())
}

// Gives the earliest pending change that needn't wait its turn: it enters or is refused, and waits no longer. An error
// leaves it waiting.
fn settle_one<R: Replica, K: Keeper>(
    replica: &mut R,
    keeper: &mut K,
    i: usize,
    reported: &mut Log,
) -> Result<(), ReceiveError>
    requires { IsEarliest (R.applied replica.old) (R.waiting replica.old) i }
    ensures id { R.id replica.new ≡ R.id replica.old }
    ensures ok { (P : List (ChangeParts × Bool)) → OnOk result (Turn K.keeps
        (so_far keeper.old (R.applied replica.old) (R.waiting replica.old) P reported.old)
        (so_far keeper.new (R.applied replica.new) (R.waiting replica.new) P reported.new)) }
    ensures err { (P : List (ChangeParts × Bool)) → IfErr result (λ e. Stops K.keeps K.refuses
        (so_far keeper.old (R.applied replica.old) (R.waiting replica.old) P reported.old)
        e (receiver keeper.new (R.applied replica.new) (R.waiting replica.new))) }
    ensures fewer { OnOk result
        (length (R.waiting replica.new) + 1 ≡ length (R.waiting replica.old)) }
    ensures out { OnOk result (R.waiting replica.new ≡ remove (R.waiting replica.old) i) }
    ensures gains { (c : ChangeParts) → slice_get (R.waiting replica.old) i ≡ Some c
        → OnOk result (GainsOnly (R.applied replica.old) (R.applied replica.new) (hash_of c)) }
{
    match judge(replica.ready_waiting(i))? {
        Verdict::Enters => enter_waiting(replica, keeper, i, reported),
        Verdict::Waits => unreachable!(),
        Verdict::Refused(error) => refuse_waiting(replica, i, error, reported),
    }
}

// Gives the earliest pending change that needn't wait its turn, and keeps what is known of the others. Returns how many,
// from the first on, are known to wait.
fn settle_next<R: Replica, K: Keeper>(
    replica: &mut R,
    keeper: &mut K,
    lacking: &mut Lacking,
    i: usize,
    reported: &mut Log,
) -> Result<usize, ReceiveError>
    requires earliest { IsEarliest (R.applied replica.old) (R.waiting replica.old) i }
    requires knows { KnowsLack (R.applied replica.old) (R.waiting replica.old) lacking.old }
    ensures id { R.id replica.new ≡ R.id replica.old }
    ensures ok { (P : List (ChangeParts × Bool)) → OnOk result (Turn K.keeps
        (so_far keeper.old (R.applied replica.old) (R.waiting replica.old) P reported.old)
        (so_far keeper.new (R.applied replica.new) (R.waiting replica.new) P reported.new)) }
    ensures err { (P : List (ChangeParts × Bool)) → IfErr result (λ e. Stops K.keeps K.refuses
        (so_far keeper.old (R.applied replica.old) (R.waiting replica.old) P reported.old)
        e (receiver keeper.new (R.applied replica.new) (R.waiting replica.new))) }
    ensures fewer { OnOk result
        (length (R.waiting replica.new) + 1 ≡ length (R.waiting replica.old)) }
    ensures knows { OnOk result
        (KnowsLack (R.applied replica.new) (R.waiting replica.new) lacking.new) }
    ensures waits { IfOk result
        (λ known. AllWait (R.applied replica.new) (take known (R.waiting replica.new))) }
{
    let hash = replica.pending()[i].hash();
    settle_one(replica, keeper, i, reported)?;
    lacking.remove(i);
    Ok(lacking.forget_lacked(&hash))
}

/// Gives the pending changes their turns, from the earliest, until each of those left must wait, where those before the
/// number `from` must. After each turn it goes on from the earliest that isn't known to lack a dependency. For one that is
/// known to, one hash is compared a turn. An error loses none of them.
pub(crate) fn settle<R: Replica, K: Keeper>(
    replica: &mut R,
    keeper: &mut K,
    lacking: &mut Lacking,
    from: usize,
    reported: &mut Log,
) -> Result<(), ReceiveError>
    requires knows { KnowsLack (R.applied replica.old) (R.waiting replica.old) lacking.old }
    requires waits { AllWait (R.applied replica.old) (take from (R.waiting replica.old)) }
    ensures id { R.id replica.new ≡ R.id replica.old }
    ensures ok { (P : List (ChangeParts × Bool)) → OnOk result (SomeTurns K.keeps
        (so_far keeper.old (R.applied replica.old) (R.waiting replica.old) P reported.old)
        (so_far keeper.new (R.applied replica.new) (R.waiting replica.new) P reported.new)) }
    ensures settled { OnOk result (AllWait (R.applied replica.new) (R.waiting replica.new)) }
    ensures err { (P : List (ChangeParts × Bool)) → IfErr result (λ e. Stops K.keeps K.refuses
        (so_far keeper.old (R.applied replica.old) (R.waiting replica.old) P reported.old)
        e (receiver keeper.new (R.applied replica.new) (R.waiting replica.new))) }
    ensures knows { OnOk result
        (KnowsLack (R.applied replica.new) (R.waiting replica.new) lacking.new) }
{
    let mut known = from;
    while let Some(i) = first_ready(replica, lacking, known) {
        known = settle_next(replica, keeper, lacking, i, reported)?;
    }
    Ok(())
}
