//! Laws of receiving, each the contract of a function that does nothing.

ghost use Rattle.std.specs.Prelude.{List, ◌≡◌, ◌+◌, ◌++◌, ◌<◌, ◌≤◌, false, Some, length, IsTrue};
ghost use Rattle.tp_receive.specs.Common.{ChangeParts, In, AllIn, GraphError, cause, Sound, most_waiting, SameMembers, most_changes, HashesApart};
ghost use Rattle.tp_receive.specs.Receiving.{Receives, Between, Grows, EntersAfter, SeqsApart, is_refusal};
ghost use Rattle.tp_receive.specs.Delivery.{is_full};
ghost use Rattle.tp_receive.specs.Intake.{IsIntakeDone, Intake, Receiver, SomeTurns, Stops, begin};
ghost use Rattle.tp_receive.specs.Replies.{Alike, LosesNone, NoneDropped, Progress, Results};
ghost use Rattle.tp_receive.specs.declared.error.ReceiveError.{ReceiveError};

use crate::keeper::Keeper;

/// Whatever changes are received after a sound list, there is a result.
pub fn result_exists()
    ensures { (C K : List ChangeParts) → Sound C → (long : List ChangeParts) × Receives C K long }
{}

/// A list that grew by changes that came, each of which could enter at its turn, is between its beginning and a result.
pub fn grown_between()
    ensures { (C K long new : List ChangeParts) → Sound C → Grows C K long new → Between C K long }
{}

/// A change that is refused for another cause than a missing dependency is refused whatever enters.
pub fn refusal_stays()
    ensures { (C new : List ChangeParts) (c : ChangeParts) → EntersAfter C new
        → IsTrue (is_refusal (cause C c)) → IsTrue (is_refusal (cause (C ++ new) c)) }
{}

/// A change that is refused for another cause than a missing dependency keeps that cause whatever enters of changes
/// among which it has its hash alone.
pub fn refusal_stays_the_same()
    ensures { (C new K : List ChangeParts) (c : ChangeParts) (e : GraphError) → Sound C
        → EntersAfter C new → AllIn new K → HashesApart K → In c K
        → IsTrue (is_refusal (Some e)) → cause C c ≡ Some e → cause (C ++ new) c ≡ Some e }
{}

/// Any two results of receiving one list have the same members, where no two different changes have one hash, or one
/// actor and sequence number, and neither result is full.
pub fn one_set()
    ensures { (C K long other : List ChangeParts) → Sound C → HashesApart (C ++ K)
        → SeqsApart (C ++ K) → length long < most_changes → length other < most_changes
        → Receives C K long → Receives C K other → SameMembers long other }
{}

/// Wherever a run stops: what entered is of what waited and came, each change could enter at its turn and was kept
/// first, and it is reported in its order; each that was refused had the cause that is reported at its turn. What waits is of
/// what waited and came.
pub fn progress<K: Keeper>()
    ensures { (k : K) (C W L : List ChangeParts) (t : Intake K) → SomeTurns K.keeps (begin k C W L) t
        → Progress K.keeps k C (W ++ L) t }
{}

/// Wherever a run goes on to, nothing that waits is lost: each waits still, entered or is refused for good.
pub fn nothing_is_lost<K: Keeper>()
    ensures { (s t : Intake K) → SomeTurns K.keeps s t
        → LosesNone s.applied t.applied s.waiting t.waiting }
{}

/// At most 1,024 wait wherever a run stops, but where it had to be refused.
pub fn few_wait<K: Keeper>()
    ensures { (k : K) (C W L : List ChangeParts) (t : Intake K) → is_full C W L ≡ false
        → SomeTurns K.keeps (begin k C W L) t → length t.waiting ≤ most_waiting }
{}

/// None is dropped where no more than 1,024 waited and came.
pub fn none_is_dropped<K: Keeper>()
    ensures { (k : K) (C W L : List ChangeParts) (t : Intake K) → length W + length L ≤ most_waiting
        → SomeTurns K.keeps (begin k C W L) t → NoneDropped t.refused }
{}

/// Where no two different changes of what waited and came have one hash, a whole run is a result of receiving: every
/// change entered or has a cause, each reported cause is the cause now, each change is somewhere, and what was dropped is
/// none of the undeliverable ones.
pub fn a_whole_run_is_a_result<K: Keeper>()
    ensures { (k : K) (C W L : List ChangeParts) (t : Intake K) → Sound C → HashesApart (W ++ L)
        → is_full C W L ≡ false
        → SomeTurns K.keeps (begin k C W L) t → IsIntakeDone t → Results C W L t }
{}

/// Where a run stopped, what is applied is between its beginning and a result.
pub fn a_stop_is_between<K: Keeper>()
    ensures { (k : K) (C W L : List ChangeParts) (why : ReceiveError) (t : Receiver K) → Sound C
        → Stops K.keeps K.refuses (begin k C W L) why t → Between C (W ++ L) t.applied }
{}

/// Two whole runs from one beginning end alike, whatever keeps: in what is applied, in what waits and in what is reported.
pub fn one_outcome<K: Keeper, J: Keeper>()
    ensures { (k : K) (j : J) (C W L : List ChangeParts) (t : Intake K) (u : Intake J)
        → SomeTurns K.keeps (begin k C W L) t → IsIntakeDone t
        → SomeTurns J.keeps (begin j C W L) u → IsIntakeDone u → Alike t u }
{}
