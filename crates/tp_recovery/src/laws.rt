//! Laws of journals: public functions whose contract is the law and whose body is empty.

ghost use Rattle.std.specs.Prelude.{◌≡◌, ◌↔◌, ℕ, ◌<◌, ◌≤◌, List, [], ◌∷◌, ◌++◌, length, take, slice_index, Some};
ghost use Rattle.tp_layout.specs.declared.parts.ChangeParts.{ChangeParts};
ghost use Rattle.tp_layout.specs.Limits.{AllChanges};
ghost use Rattle.tp_opid.specs.declared.doc_id.DocId.{DocId};
ghost use Rattle.tp_store.specs.declared.error.StoreError.{StoreError};
ghost use Rattle.tp_recovery.specs.Layout.{IsDocId, record_of, bytes_of_records, journal};
ghost use Rattle.tp_recovery.specs.Recovery.{IsHistory, Recovers, recovery_of};
ghost use Rattle.tp_recovery.specs.Refusals.{IsJournalFault};
ghost use Rattle.tp_recovery.specs.Laws.{RecoversCut};

/// Bytes recover to one document, in one way.
pub fn one_recovery()
    ensures { (bytes : List ℕ) (id also : DocId) (C D : List ChangeParts) (keep kept : ℕ)
        → Recovers bytes id C keep → Recovers bytes also D kept
        → (id ≡ also) × (C ≡ D) × (keep ≡ kept) }
{}

/// The function gives exactly what bytes recover to.
pub fn recovered_is_what_recovers()
    ensures gives { (bytes : List ℕ) (id : DocId) (C : List ChangeParts) (keep : ℕ)
        → Recovers bytes id C keep → recovery_of bytes ≡ Some (id, C, keep) }
    ensures only { (bytes : List ℕ) (id : DocId) (C : List ChangeParts) (keep : ℕ)
        → ((i : ℕ) → slice_index bytes i < 256)
        → recovery_of bytes ≡ Some (id, C, keep) → Recovers bytes id C keep }
{}

/// Bytes are refused for one cause.
pub fn one_refusal()
    ensures { (bytes : List ℕ) (e f : StoreError)
        → IsJournalFault bytes e → IsJournalFault bytes f → e ≡ f }
{}

/// Bytes that recover aren't refused.
pub fn refused_or_recovered()
    ensures { (bytes : List ℕ) (id : DocId) (C : List ChangeParts) (keep : ℕ) (e : StoreError)
        → Recovers bytes id C keep → IsJournalFault bytes e → ⊥ }
{}

/// A journal grows by the record of each change that enters.
pub fn journals_grow()
    ensures one { (id : DocId) (C : List ChangeParts) (c : ChangeParts)
        → journal id (C ++ c ∷ []) ≡ journal id C ++ record_of c }
    ensures more { (id : DocId) (C D : List ChangeParts)
        → journal id (C ++ D) ≡ journal id C ++ bytes_of_records D }
{}

/// A journal is bytes.
pub fn journals_are_bytes()
    ensures { (id : DocId) (C : List ChangeParts) → IsDocId id → AllChanges C
        → (i : ℕ) → slice_index (journal id C) i < 256 }
{}

/// Where some of the records of `new` are cut short after the journal of C, the bytes recover to C and those changes
/// of `new` whose records are whole.
pub fn cut_appends_recover()
    ensures { (id : DocId) (C new : List ChangeParts) (k : ℕ)
        → IsDocId id → IsHistory (C ++ new) → RecoversCut id C new k }
{}

/// Each beginning of a journal that has its header recovers to a beginning of its changes.
pub fn beginnings_recover()
    ensures { (id : DocId) (C : List ChangeParts) (n : ℕ) → IsDocId id → IsHistory C → 24 ≤ n
        → (D : List ChangeParts) × (E : List ChangeParts) × (C ≡ D ++ E)
        × Recovers (take n (journal id C)) id D (length (journal id D)) }
{}
