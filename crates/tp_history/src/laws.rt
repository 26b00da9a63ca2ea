//! Laws of histories, as functions without a body: what each says is its contract.

ghost use Rattle.std.specs.Prelude.{◌≡◌, ◌↔◌, ◌⊎◌, ℕ, ◌+◌, ◌<◌, List, [], ◌∷◌, ◌++◌, length, false, Some, None, IsTrue, MatchOption};
ghost use Rattle.std.specs.List.{slice_get};
ghost use Rattle.std.specs.Ordering.{nat_cmp};
ghost use Rattle.tp_list.specs.FailsFirst.{FailsFirst};
ghost use Rattle.tp_list.specs.Members.{In, AllIn, SameMembers};
ghost use Rattle.tp_list.specs.Rising.{IsRising, put};
ghost use Rattle.tp_opid.specs.declared.hash.Hash.{Hash};
ghost use Rattle.tp_opid.specs.declared.op_id.OpId.{OpId};
ghost use Rattle.tp_opid.specs.declared.op_id.Place.{Place};
ghost use Rattle.tp_opid.specs.Insert as element_of;
ghost use Rattle.tp_opid.specs.Order.{hash_cmp};
ghost use Rattle.tp_opid.specs.Same.{same_actor};
ghost use Rattle.tp_change.specs.declared.op.Op.{Op};
ghost use Rattle.tp_change.specs.declared.op.Op.TheVariants as op_of;
ghost use Rattle.tp_layout.specs.declared.parts.ChangeParts.{ChangeParts};
ghost use Rattle.tp_change.specs.ChangeHash.{hash_of};
ghost use Rattle.tp_change.specs.Operations.{ops_of};
ghost use Rattle.tp_history.specs.declared.error.GraphError.{GraphError};
ghost use Rattle.tp_history.specs.declared.error.GraphError.TheVariants.{Known, MissingDeps};
ghost use Rattle.tp_history.specs.Named.{has, has_all};
ghost use Rattle.tp_history.specs.Reach.{InPast};
ghost use Rattle.tp_history.specs.Past.{past};
ghost use Rattle.tp_history.specs.Heads.{heads, without};
ghost use Rattle.tp_change.specs.Elements.{inserts_in, inserts, refers, next_counter};
ghost use Rattle.tp_history.specs.Fit.{defect, cause, most_changes, clashes, count_by, PassesEntry};
ghost use Rattle.tp_history.specs.GraphError.{code_of};
ghost use Rattle.tp_history.specs.Since.{since, past_places};
ghost use Rattle.tp_history.specs.Sound.{SoundAfter, Sound, Fits};
ghost use Rattle.tp_opid.specs.Tree.{IsThere, IsTree, CanInsert};

/// The rest of a sound list is sound after its prefix.
#[tactic(auto, using(crate::proofs::LawRules::parts))]
pub fn rest_is_sound()
    ensures { (C D : List ChangeParts) → Sound (C ++ D) → SoundAfter C D }
{}

/// A sound list with a list that is sound after it is sound.
#[tactic(auto, using(crate::proofs::LawRules::parts))]
pub fn prefix_and_rest_are_sound()
    ensures { (C D : List ChangeParts) → Sound C → SoundAfter C D → Sound (C ++ D) }
{}

/// A change is known exactly where one of the list has its hash.
#[tactic(auto, using(crate::proofs::CauseLaws::known_is))]
pub fn known_where_there()
    ensures { (C : List ChangeParts) (c : ChangeParts) → (defect C c ≡ Some Known)
        ↔ IsTrue (has C (hash_of c)) }
{}

/// A change lacks dependencies exactly where it is new and one of them isn't there.
#[tactic(auto, using(crate::proofs::CauseLaws::missing_deps_is))]
pub fn waits_where_a_dependency_lacks()
    ensures { (C : List ChangeParts) (c : ChangeParts) → (defect C c ≡ Some MissingDeps)
        ↔ ((has C (hash_of c) ≡ false) × (has_all C c.deps ≡ false)) }
{}

/// The cause is the first test that a change doesn't pass, in the order of the refusals' numbers; where there is none, it
/// passes each.
#[tactic(auto, using(crate::proofs::FirstCause::first_cause))]
pub fn cause_is_the_first_that_fails()
    ensures { (C : List ChangeParts) (c : ChangeParts) → MatchOption (cause C c)
        ((e : GraphError) → PassesEntry C c e) (FailsFirst code_of (PassesEntry C c)) }
{}

/// Inserts depend on the changes as a set.
pub fn inserts_of_a_set()
    ensures { (C D : List ChangeParts) → AllIn C D → AllIn (inserts C) (inserts D) }
{}

/// Each insert of a list has a counter below the next one.
#[tactic(auto, using(crate::proofs::LawRules::places))]
pub fn inserts_are_below_the_next_counter()
    ensures { (C : List ChangeParts) (x : element_of.Insert) → In x (inserts C)
        → x.id.counter < next_counter C }
{}

/// A prefix of a sound list is sound.
#[tactic(auto, using(crate::proofs::LawRules::parts))]
pub fn prefix_is_sound()
    ensures { (C D : List ChangeParts) → Sound (C ++ D) → Sound C }
{}

/// A sound list stays sound where a change enters that fits.
#[tactic(auto, using(crate::proofs::LawRules::fitting))]
pub fn push_is_sound()
    ensures { (C : List ChangeParts) (c : ChangeParts) → Sound C → defect C c ≡ None
        → Sound (C ++ c ∷ []) }
{}

/// Each change of a sound list fits after those before it.
#[tactic(auto, using(crate::proofs::LawRules::fitting))]
pub fn each_fits()
    ensures { (A : List ChangeParts) (c : ChangeParts) (B : List ChangeParts) → Sound (A ++ c ∷ B)
        → defect A c ≡ None }
{}

/// A change has no defect exactly where it is new, its dependencies are there, its numbers and references are right
/// after its past, and it clashes with none.
#[tactic(auto, using(crate::proofs::LawRules::fitting))]
pub fn fits_part_by_part()
    ensures { (C : List ChangeParts) (c : ChangeParts) → (defect C c ≡ None) ↔ Fits C c }
{}

/// A change can enter exactly where it fits and the list isn't full.
#[tactic(auto, using(crate::proofs::LawRules::fitting))]
pub fn cause_is_defect_or_full()
    ensures { (C : List ChangeParts) (c : ChangeParts) → length C < most_changes
        → (cause C c ≡ None) ↔ (defect C c ≡ None) }
{}

/// The dependencies of each change of a sound list come before it.
#[tactic(auto, using(crate::proofs::LawRules::fitting))]
pub fn dependencies_come_before()
    ensures { (A : List ChangeParts) (c : ChangeParts) (B : List ChangeParts) → Sound (A ++ c ∷ B)
        → IsTrue (has_all A c.deps) }
{}

/// A sound list has the dependencies of each of its changes.
#[tactic(auto, using(crate::proofs::SoundLaws::deps_there))]
pub fn dependencies_are_there()
    ensures { (C : List ChangeParts) → Sound C → (c : ChangeParts) → In c C
        → IsTrue (has_all C c.deps) }
{}

/// Two changes of a sound list with one hash are one.
#[tactic(auto, using(crate::proofs::SoundLaws::hashes_apart))]
pub fn hashes_are_apart()
    ensures { (C : List ChangeParts) → Sound C → (c d : ChangeParts) → In c C → In d C
        → hash_of c ≡ hash_of d → c ≡ d }
{}

/// The past in a sound list is what the dependencies lead to from the hashes.
pub fn past_is_what_is_reached()
    ensures { (C : List ChangeParts) (H : List Hash) (c : ChangeParts) → Sound C → In c (past C H)
        ↔ InPast C H c }
{}

/// The past of any hashes of a sound list, in its order, is sound.
#[tactic(auto, using(crate::proofs::SoundLaws::sound_pasts))]
pub fn pasts_are_sound()
    ensures { (C : List ChangeParts) → Sound C → (H : List Hash) → Sound (past C H) }
{}

/// The past of the heads is the whole list.
#[tactic(auto, using(crate::proofs::LawRules::sets))]
pub fn past_of_heads_is_all()
    ensures { (C : List ChangeParts) → Sound C → past C (heads C) ≡ C }
{}

/// Changes that enter later are not in the past of hashes that are there.
#[tactic(auto, using(crate::proofs::LawRules::sets))]
pub fn later_changes_stay_out()
    ensures { (C D : List ChangeParts) (H : List Hash) → IsTrue (has_all C H) → Sound (C ++ D)
        → past (C ++ D) H ≡ past C H }
{}

/// A past of fewer hashes is the same within a past of more.
#[tactic(auto, using(crate::proofs::LawRules::sets))]
pub fn past_within_a_past()
    ensures { (C : List ChangeParts) (H K : List Hash) → AllIn H K → past (past C K) H ≡ past C H }
{}

/// A past is the same set in every sound list that holds it.
#[tactic(auto, using(crate::proofs::LawRules::sets))]
pub fn past_in_any_list()
    ensures { (C D : List ChangeParts) (H : List Hash) → Sound C → Sound D → IsTrue (has_all C H)
        → AllIn (past C H) D → SameMembers (past C H) (past D H) }
{}

/// Heads depend on the changes as a set.
#[tactic(auto, using(crate::proofs::LawRules::sets))]
pub fn heads_of_a_set()
    ensures { (C D : List ChangeParts) → AllIn C D → AllIn D C → heads C ≡ heads D }
{}

/// A defect depends on the changes as a set.
#[tactic(auto, using(crate::proofs::LawRules::sets))]
pub fn defect_of_a_set()
    ensures { (C D : List ChangeParts) (c : ChangeParts) → Sound C → Sound D → AllIn C D → AllIn D C
        → defect C c ≡ defect D c }
{}

/// The heads where a change entered: its own hash, and those heads that it doesn't depend on.
#[tactic(auto, using(crate::proofs::LawRules::fitting))]
pub fn heads_where_one_enters()
    ensures { (C : List ChangeParts) (c : ChangeParts) → Sound C → defect C c ≡ None
        → heads (C ++ c ∷ []) ≡ put hash_cmp (hash_of c) (without c.deps (heads C)) }
{}

/// Two sound lists with equal heads have the same changes, where equal hashes mean equal changes.
#[tactic(auto, using(crate::proofs::SetLaws::heads_decide))]
pub fn heads_decide_the_set()
    ensures { (C D : List ChangeParts) → Sound C → Sound D
        → ((c d : ChangeParts) → In c C → In d D → hash_of c ≡ hash_of d → c ≡ d)
        → heads C ≡ heads D → AllIn C D }
{}

/// A change that fits goes on fitting, unless its hash or a clash enters.
#[tactic(auto, using(crate::proofs::LawRules::later))]
pub fn fitting_stays()
    ensures { (C D : List ChangeParts) (c : ChangeParts) → Sound (C ++ D) → defect C c ≡ None
        → has D (hash_of c) ≡ false → clashes D c ≡ false → defect (C ++ D) c ≡ None }
{}

/// A defect of a change whose dependencies are there stays the same, unless its hash enters.
#[tactic(auto, using(crate::proofs::LawRules::sets))]
pub fn defect_stays()
    ensures { (C D : List ChangeParts) (c : ChangeParts) (e : GraphError) → Sound (C ++ D)
        → IsTrue (has_all C c.deps) → has D (hash_of c) ≡ false → defect C c ≡ Some e
        → defect (C ++ D) c ≡ Some e }
{}

/// A change that is refused once its dependencies are there enters at no later time.
#[tactic(auto, using(crate::proofs::SetLaws::refused_stays_out))]
pub fn refused_stays_out()
    ensures { (C D : List ChangeParts) (c : ChangeParts) (e : GraphError) → Sound (C ++ D)
        → IsTrue (has_all C c.deps) → defect C c ≡ Some e → In c D → ⊥ }
{}

/// A change on the heads, with its actor's next sequence number, the next counter and references that are there, fits, where its hash is new.
#[tactic(auto, using(crate::proofs::LawRules::fitting))]
pub fn edit_fits()
    ensures { (C : List ChangeParts) (c : ChangeParts) → Sound C → c.deps ≡ heads C
        → c.seq ≡ count_by c.actor C + 1 → c.start ≡ next_counter C
        → IsTrue (refers (inserts C) (ops_of c)) → has C (hash_of c) ≡ false → defect C c ≡ None }
{}

/// What fits a sound part fits the whole, unless its hash or a clash is there.
#[tactic(auto, using(crate::proofs::LawRules::fitting))]
pub fn fits_a_part_fits_the_whole()
    ensures { (P C : List ChangeParts) (c : ChangeParts) → Sound P → Sound C → AllIn P C
        → defect P c ≡ None → has C (hash_of c) ≡ false → clashes C c ≡ false → defect C c ≡ None }
{}

/// What fits a sound part that has all of its actor's changes fits the whole, unless its hash is there.
#[tactic(auto, using(crate::proofs::LawRules::fitting))]
pub fn fits_own_part_fits_the_whole()
    ensures { (P C : List ChangeParts) (c : ChangeParts) → Sound P → Sound C → AllIn P C
        → ((d : ChangeParts) → In d C → IsTrue (same_actor d.actor c.actor) → In d P)
        → defect P c ≡ None → has C (hash_of c) ≡ false → defect C c ≡ None }
{}

/// A change that fits has its actor's next sequence number in the whole list, and has all of its actor's changes in its past.
#[tactic(auto, using(crate::proofs::LawRules::fitting))]
pub fn next_sequence_number()
    ensures { (C : List ChangeParts) (c : ChangeParts) → Sound C → defect C c ≡ None
        → (c.seq ≡ count_by c.actor C + 1)
        × ((d : ChangeParts) → In d C → IsTrue (same_actor d.actor c.actor) → In d (past C c.deps)) }
{}

/// The inserts of a sound list are a tree: no identifier is that of two, and each reference is there and smaller.
#[tactic(auto, using(crate::proofs::TreeLaws::inserts_tree))]
pub fn inserts_are_a_tree()
    ensures { (C : List ChangeParts) → Sound C → IsTree (inserts C) }
{}

/// Each insert of a change that fits can be made after the inserts of the list and those before it in the change.
pub fn each_insert_can_be_made()
    ensures { (C : List ChangeParts) (c : ChangeParts) → Sound C → defect C c ≡ None
        → (xs : List Op) (id : OpId) (after : Place) (ch : ℕ) (ys : List Op)
        → ops_of c ≡ xs ++ op_of.Insert id after ch ∷ ys
        → CanInsert (inserts C ++ inserts_in xs) id after }
{}

/// The target of each delete of a change that fits is among the inserts of the list and those before it in the change.
pub fn each_target_is_there()
    ensures { (C : List ChangeParts) (c : ChangeParts) → defect C c ≡ None
        → (xs : List Op) (id target : OpId) (ys : List Op)
        → ops_of c ≡ xs ++ op_of.Delete id target ∷ ys
        → IsThere (inserts C ++ inserts_in xs) target }
{}

/// An insert of the list by the actor of a change that fits has a counter below the change's.
pub fn own_inserts_are_below()
    ensures { (C : List ChangeParts) (c : ChangeParts) → Sound C → defect C c ≡ None
        → (x : element_of.Insert) → In x (inserts C) → x.id.actor ≡ c.actor
        → x.id.counter < c.start }
{}

/// A place is among those of a past exactly where the change at it is in the past, and the places rise.
#[tactic(auto, using(crate::proofs::LawRules::places))]
pub fn places_are_the_past()
    ensures { (C : List ChangeParts) (H : List Hash) → Sound C → IsRising nat_cmp (past_places C H)
        × ((i : ℕ) (c : ChangeParts) → slice_get C i ≡ Some c → In i (past_places C H)
        ↔ In c (past C H)) }
{}

/// A change is outside the past of hashes exactly where it is in the list and not in the past.
#[tactic(auto, using(crate::proofs::LawRules::places))]
pub fn since_is_the_rest()
    ensures { (C : List ChangeParts) (H : List Hash) (c : ChangeParts) → Sound C → In c C
        → (In c (past C H) ⊎ In c (since C H)) × (In c (past C H) → In c (since C H) → ⊥) }
{}
