//! Which changes are due to another peer, and which of them a message carries.

ghost use Rattle.std.specs.Prelude.{◌≡◌, ◌↔◌, ◌+◌, ◌<◌, ◌^◌, ◌∷◌, ◌++◌, ◌&&◌, List, [], length, nat_lt, drop, take, map, not, false, Some, None, IfOk, IsTrue, OnOk, IsOkUnless};
ghost use Rattle.std.specs.List.{list_any};
ghost use Rattle.tp_sync.specs.Common.{spelling, has};
ghost use Rattle.tp_history.specs.Marks.{pick};
ghost use Rattle.tp_sync.specs.Due as of_due;
ghost use Rattle.tp_sync.specs.Due.{message_changes, is_truncated, take_due, IsInSync, IsRest, IsStretch, MovesOn};
ghost use Rattle.tp_sync.specs.State.{SyncParts};
ghost use Rattle.tp_ancestry.specs.Outside.{IsOutside};
ghost use Rattle.tp_history.specs.Since.{marks_since};
ghost use Rattle.tp_opid.specs.declared.hash.Hash.{Hash as HashOf};
ghost use Rattle.tp_sync.specs.State.{declared_hashes};
ghost use Rattle.tp_message.specs.declared.error.SyncError.TheVariants.{OutOfMemory};

use crate::limits::FULL_BYTES;
use crate::state::SyncState;
use std::alloc::{AllocError, Global};
use tp_change::Change;
use tp_graph::{Graph, Outside, same_hashes};
use tp_list::Items;
use tp_message::{MAX_CHANGES, SyncError};
use tp_opid::Hash;

// The changes that a message has taken so far.
#[derive(Drop)]
struct Taken<'a> {
    // In applied order.
    changes: Vec<&'a Change>,
    // How many bytes they have.
    bytes: usize,
    // The place after the last of them, or the place from which they were to be taken, where there is none.
    next: usize,
    // Whether one more was found, which it doesn't take.
    left: bool,
}

impl<'a> Taken<'a> {
    // Whether the message takes no further change.
    fn is_laden(&self) -> bool
        ensures { result ≡ of_due.is_message_full (length self.now.changes.items) self.now.bytes }
    {
        self.changes.len() >= MAX_CHANGES || self.bytes >= FULL_BYTES
    }

    // Takes the change at the place.
    fn take(&mut self, change: &'a Change, place: usize) -> Result<(), AllocError>
        requires room { self.old.bytes < FULL_BYTES }
        requires place { place + 1 < 2 ^ 64 }
        ensures changes { OnOk result (map (λ c. c.now) self.new.changes.items
            ≡ map (λ c. c.now) self.old.changes.items ++ change.now ∷ []) }
        ensures bytes { OnOk result
            (self.new.bytes ≡ self.old.bytes + length (spelling change.now)) }
        ensures next { OnOk result (self.new.next ≡ place + 1) }
        ensures left { self.new.left ≡ self.old.left }
    {
        let _hash = change.hash();
        self.changes.push(change)?;
        self.bytes += change.encoded_len();
        self.next = place + 1;
        Ok(())
    }
}

// Where a message looks for changes that are due.
#[derive(Drop)]
struct Stretch {
    // The place from which it looks.
    from: usize,
    // The place of the first one from there on; where there is none, one that isn't before the end.
    first: usize,
    // The end of the stretch. No change from there on is due.
    end: usize,
    // Whether one is due from the next place on.
    goes_on: bool,
}

// Where a message looks: from the next place on, where a change is due from there on, and else from the first place on,
// up to the next. So each place is asked for at most once.
fn find_stretch(graph: &Graph, due: &Outside, next: usize) -> Stretch
    requires { (H : List HashOf) × (K : List HashOf) × IsOutside graph.now.applied H K due.now }
    ensures { (H K : List HashOf) → IsOutside graph.now.applied H K due.now
        → IsStretch (marks_since graph.now.applied H K) next result }
{
    let len = graph.changes().len();
    let first = graph.next_outside(due, next);
    if first < len {
        return Stretch {
            from: next,
            first,
            end: len,
            goes_on: true,
        };
    }
    let end = next.min(len);
    Stretch {
        from: 0,
        first: graph.next_outside_before(due, 0, end),
        end,
        goes_on: false,
    }
}

// Takes the changes of the stretch that are due, until the message takes no further one.
fn take_from<'a>(
    alloc: Global,
    graph: &'a Graph,
    due: &Outside,
    stretch: &Stretch,
    next: usize,
) -> Result<Taken<'a>, AllocError>
    requires due { (H : List HashOf) × (K : List HashOf) × IsOutside graph.now.applied H K due.now }
    requires stretch { (H K : List HashOf) → IsOutside graph.now.applied H K due.now
        → IsStretch (marks_since graph.now.applied H K) next stretch.now }
    ensures changes { (H K : List HashOf) → IsOutside graph.now.applied H K due.now
        → IfOk result (λ t. map (λ c. c.now) t.changes.items
        ≡ take_due 0 0 (pick (drop stretch.now.from (marks_since graph.now.applied H K))
        (drop stretch.now.from graph.now.applied))) }
    ensures next { IfOk result
        (λ t. MovesOn graph.now.applied (map (λ c. c.now) t.changes.items) next t.next) }
    ensures left { (H K : List HashOf) → IsOutside graph.now.applied H K due.now
        → IfOk result (λ t. t.left ≡ nat_lt (length t.changes.items)
        (length (pick (drop stretch.now.from (marks_since graph.now.applied H K))
        (drop stretch.now.from graph.now.applied)))) }
{
    let applied = graph.changes();
    let room = stretch.end.saturating_sub(stretch.first).min(MAX_CHANGES);
    let mut taken = Taken {
        changes: Vec::with_capacity(alloc, room)?,
        bytes: 0,
        next,
        left: false,
    };
    let mut place = stretch.first;
    'places: while place < stretch.end {
        if taken.is_laden() {
            taken.left = true;
            return Ok(taken);
        }
        taken.take(&applied[place], place)?;
        place = graph.next_outside_before(due, place + 1, stretch.end);
    }
    Ok(taken)
}

// Whether a change is due that is before the place.
fn is_any_before(graph: &Graph, due: &Outside, place: usize) -> bool
    requires { (H : List HashOf) × (K : List HashOf) × IsOutside graph.now.applied H K due.now }
    ensures { (H K : List HashOf) → IsOutside graph.now.applied H K due.now
        → result ≡ list_any (λ b. b) (take place (marks_since graph.now.applied H K)) }
{
    graph.next_outside_before(due, 0, place) < place
}

// Whether something is taken, though nothing is due from the next place on.
fn begins_again(taken: usize, goes_on: bool) -> bool
    ensures { result ≡ (nat_lt 0 taken && not goes_on) }
{
    0 < taken && !goes_on
}

/// Whether the hashes are the ones that were kept.
pub(crate) fn are(kept: &Option<Items<Hash>>, hashes: &[Hash]) -> bool
    ensures { IsTrue result ↔ (kept.now ≡ Some hashes.now) }
{
    match kept {
        Some(kept) => same_hashes(kept.as_slice(), hashes),
        None => false,
    }
}

// Whether an applied change has one of the hashes.
fn has_any(graph: &Graph, hashes: &[Hash]) -> bool
    ensures { result ≡ list_any (λ h. has graph.now.applied h) hashes.now }
{
    hashes.iter().any(|hash| graph.contains(hash))
}

/// Whether the other declared the very heads that are there, and nothing is due to it: it wants no change that is
/// there. No pass over the changes.
pub(crate) fn is_even(graph: &Graph, state: &SyncState) -> bool
    ensures { IsTrue result ↔ IsInSync graph.now.applied state.now }
{
    let _changes = graph.changes();
    are(&state.theirs, graph.heads()) && !has_any(graph, state.wants.as_slice())
}

// What a message that looked for changes leaves.
#[derive(Drop)]
struct Rest {
    // Which changes are due.
    due: Outside,
    // The place from which it looked.
    from: usize,
    // Whether one is due from there on that it doesn't carry.
    left: bool,
}

// Whether changes that are due are left out.
fn leaves(graph: &Graph, rest: &Rest) -> bool
    requires { (s : SyncParts) × IsRest graph.now.applied s (Some rest.now) }
    ensures { (s : SyncParts) → IsRest graph.now.applied s (Some rest.now)
        → result ≡ is_truncated graph.now.applied s }
{
    rest.left || is_any_before(graph, &rest.due, rest.from)
}

/// What a message carries of the changes that are due, and how far it gets.
#[derive(Drop)]
pub(crate) struct Load<'a> {
    /// The changes that it carries, in applied order.
    pub(crate) changes: Vec<&'a Change>,
    /// How many bytes they have.
    pub(crate) bytes: usize,
    /// The place from which the next message takes changes.
    pub(crate) next: usize,
    /// Whether it begins again with the first that is due.
    pub(crate) again: bool,
    // What it leaves, where changes were looked for.
    rest: Option<Rest>,
}

impl<'a> Load<'a> {
    // Nothing.
    fn nothing(alloc: Global, next: usize) -> Load<'a>
        ensures changes { result.changes.items ≡ [] }
        ensures next { result.next ≡ next }
        ensures again { result.again ≡ false }
        ensures rest { result.rest ≡ None }
    {
        Load {
            changes: Vec::new(alloc),
            bytes: 0,
            next,
            again: false,
            rest: None,
        }
    }

    /// Whether it leaves out changes that are due. Only the places before that from which it looked for them are asked
    /// for, and none where it found one that it doesn't carry.
    pub(crate) fn is_cut(&self, graph: &Graph) -> bool
        requires { (s : SyncParts) × IsRest graph.now.applied s self.now.rest }
        ensures { (s : SyncParts) → IsRest graph.now.applied s self.now.rest
            → result ≡ is_truncated graph.now.applied s }
    {
        match &self.rest {
            Some(rest) => leaves(graph, rest),
            None => false,
        }
    }
}

// The hashes of both lists.
fn hashes_of_both(alloc: Global, front: &[Hash], rest: &[Hash]) -> Result<Vec<Hash>, AllocError>
    ensures { IfOk result (λ v. v.items ≡ front.now ++ rest.now) }
{
    let mut hashes = Vec::with_capacity(alloc, front.len().saturating_add(rest.len()))?;
    hashes.extend_from_slice(front)?;
    hashes.extend_from_slice(rest)?;
    Ok(hashes)
}

// What the next message to a peer that declared that it has these changes carries.
fn load_declared<'a>(
    alloc: Global,
    graph: &'a Graph,
    theirs: &[Hash],
    state: &SyncState,
) -> Result<Load<'a>, SyncError>
    requires { declared_hashes state.now ≡ Some theirs.now }
    ensures changes { IfOk result (λ l. map (λ c. c.now) l.changes.items
        ≡ message_changes graph.now.applied state.now) }
    ensures next { IfOk result (λ l. MovesOn graph.now.applied
        (message_changes graph.now.applied state.now) state.now.next l.next) }
    ensures again { IfOk result
        (λ l. l.again ≡ of_due.starts_over graph.now.applied state.now) }
    ensures rest { IfOk result (λ l. IsRest graph.now.applied state.now l.rest) }
    ensures err { IsOkUnless result OutOfMemory }
{
    let _changes = graph.changes();
    let due = match graph.outside(theirs, state.wants.as_slice()) {
        Ok(due) => due,
        Err(_) => return Err(SyncError::OutOfMemory),
    };
    let stretch = find_stretch(graph, &due, state.next);
    let taken = take_from(alloc, graph, &due, &stretch, state.next)?;
    let again = begins_again(taken.changes.len(), stretch.goes_on);
    let rest = Rest {
        due,
        from: stretch.from,
        left: taken.left,
    };
    Ok(Load {
        changes: taken.changes,
        bytes: taken.bytes,
        next: taken.next,
        again,
        rest: Some(rest),
    })
}

/// What the next message to the other carries: nothing where the other declared no heads yet, or where they are the
/// heads that are there and nothing is wanted. Else each place from the prefix of the other's past on is asked for at
/// most once: those from the next place on, until the message is full, and those before it only where nothing is due
/// from there on. Only where a change that is there is wanted are all changes passed over first. No change is copied.
pub(crate) fn load_for<'a>(
    alloc: Global,
    graph: &'a Graph,
    state: &SyncState,
) -> Result<Load<'a>, SyncError>
    ensures changes { IfOk result (λ l. map (λ c. c.now) l.changes.items
        ≡ message_changes graph.now.applied state.now) }
    ensures next { IfOk result (λ l. MovesOn graph.now.applied
        (message_changes graph.now.applied state.now) state.now.next l.next) }
    ensures again { IfOk result
        (λ l. l.again ≡ of_due.starts_over graph.now.applied state.now) }
    ensures rest { IfOk result (λ l. IsRest graph.now.applied state.now l.rest) }
    ensures err { IsOkUnless result OutOfMemory }
{
    let _changes = graph.changes();
    if is_even(graph, state) {
        return Ok(Load::nothing(alloc, state.next));
    }
    match &state.theirs {
        Some(heads) => {
            let theirs = hashes_of_both(alloc, heads.as_slice(), state.known.as_slice())?;
            load_declared(alloc, graph, &theirs, state)
        }
        None => Ok(Load::nothing(alloc, state.next)),
    }
}
