//! Laws of syncing, each the contract of a function that does nothing.

ghost use Rattle.std.specs.Prelude.{◌≡◌, ◌↔◌, ◌≤◌, [], ◌∷◌, ◌++◌, List, false, length, IsTrue};
ghost use Rattle.tp_sync.specs.Common.{In, Hash, ChangeParts, hash_of, has, DocState};
ghost use Rattle.tp_history.specs.Sound.{Sound};
ghost use Rattle.tp_list.specs.Members.{SameMembers};
ghost use Rattle.tp_history.specs.Fit.{most_changes};
ghost use Rattle.tp_history.specs.Named.{has_all, HashesApart};
ghost use Rattle.tp_message.specs.Message.{MessageParts};
ghost use Rattle.tp_sync.specs.State.{SyncParts};
ghost use Rattle.tp_sync.specs.Due.{message_changes, due, is_any, is_due, is_truncated, IsInfixOf};
ghost use Rattle.tp_sync.specs.NextMessage.{SendsMessage};
ghost use Rattle.tp_sync.specs.Known.{known_hashes, IsPowerBeforeEnd};
ghost use Rattle.tp_sync.specs.Room.{TakesAnotherChange, size_of};
ghost use Rattle.tp_sync.specs.declared.exchanging.Exchanged.{Exchanged};
ghost use Rattle.tp_sync.specs.Exchange.{Exchanges, RefusesKnownAlone};

/// A message carries a piece of what is due, in applied order and without a gap.
pub fn a_message_carries_a_piece()
    ensures { (C : List ChangeParts) (s : SyncParts) → IsInfixOf (message_changes C s) (due C s) }
{}

/// A message carries something where something is due.
pub fn a_message_carries_something()
    ensures { (C : List ChangeParts) (s : SyncParts) → IsTrue (is_any (due C s))
        → IsTrue (is_any (message_changes C s)) }
{}

/// A message takes a change only where those before it are fewer than 1,024, and have fewer than 1,048,576 bytes.
pub fn a_message_stays_within_its_limits()
    ensures { (C : List ChangeParts) (s : SyncParts)
        → (before : List ChangeParts) (c : ChangeParts) (beyond : List ChangeParts)
        → message_changes C s ≡ before ++ c ∷ beyond → TakesAnotherChange (length before) (size_of before) }
{}

/// Where a message leaves out nothing, it carries all that is due.
pub fn all_that_is_due_is_carried()
    ensures { (C : List ChangeParts) (s : SyncParts) → is_truncated C s ≡ false
        → message_changes C s ≡ due C s }
{}

/// A message that was made takes nothing away from what is due: if it is lost, what it carried is due still.
pub fn what_was_sent_stays_due()
    ensures { (C W : List ChangeParts) (s t : SyncParts) (m : MessageParts) → SendsMessage C W s m t
        → due C t ≡ due C s }
{}

/// Who declared hashes of changes that it has, its heads or others, has each change that isn't due to it, where equal hashes
/// mean equal changes: nothing that it lacks is held back.
pub fn what_lacks_is_due()
    ensures { (C D : List ChangeParts) (theirs wants : List Hash) (c : ChangeParts) → Sound D
        → IsTrue (has_all D theirs) → HashesApart (D ++ C) → In c C
        → is_due C theirs wants c ≡ false → IsTrue (has D (hash_of c)) }
{}

/// The heads that a message declares and the changes that it tells of as known are there: so nothing that the sender lacks
/// is held back from it.
pub fn what_is_declared_is_there()
    ensures { (C W : List ChangeParts) (s t : SyncParts) (m : MessageParts) → SendsMessage C W s m t
        → IsTrue (has_all C (m.heads ++ m.known)) }
{}

/// A message names as known the changes that are 1, 2, 4, 8 and so on places before the end of the list, as far as it
/// has as many, and no others.
pub fn what_is_declared_as_known()
    ensures { (C : List ChangeParts) (h : Hash) → length C ≤ most_changes
        → In h (known_hashes C) ↔ IsPowerBeforeEnd C h }
{}

/// An exchange that left out nothing, and in which nothing was refused but as `Known`, between documents in which nothing
/// waited leaves both with the union of their changes, where equal hashes mean equal changes.
pub fn an_exchange_leaves_the_union()
    ensures { (a b a' b' : DocState) (r : Exchanged) → Sound a.applied → Sound b.applied
        → HashesApart (a.applied ++ b.applied) → a.waiting ≡ [] → b.waiting ≡ []
        → Exchanges a b a' b' r → r.cut ≡ false
        → RefusesKnownAlone r.into_a → RefusesKnownAlone r.into_b
        → SameMembers a'.applied (a.applied ++ b.applied)
        × SameMembers b'.applied (a.applied ++ b.applied) }
{}
