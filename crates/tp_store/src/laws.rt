//! Laws of saved files, each as a function that does nothing and whose contract is the law.
//!
//! By the contracts of [`save`](crate::save) and [`load`](crate::load) they are laws of what these give.

ghost use Rattle.std.specs.Prelude.{◌≡◌, ◌↔◌, ℕ, suc, ◌+◌, ◌<◌, ◌^◌, List, ◌∷◌, ◌++◌, length, map, slice_index, Some, Ok, Err};
ghost use Rattle.std.specs.List.{flat_map, AllByRecursion};
ghost use Rattle.sha2.specs.Sha256.{sha256};
ghost use Rattle.tp_opid.specs.declared.doc_id.DocId.{DocId};
ghost use Rattle.tp_layout.specs.declared.parts.ChangeParts.{ChangeParts};
ghost use Rattle.tp_layout.specs.declared.error.ChangeError.{ChangeError};
ghost use Rattle.tp_layout.specs.Limits.{IsChange};
ghost use Rattle.tp_layout.specs.Reading.{change_at};
ghost use Rattle.tp_layout.specs.Spelling.{spelling, framed_change};
ghost use Rattle.tp_history.specs.declared.error.GraphError.{GraphError};
ghost use Rattle.tp_history.specs.Fit.{cause};
ghost use Rattle.tp_store.specs.declared.saved.TheConstants.{MAGIC, HEADER_LEN, DIGEST_LEN};
ghost use Rattle.tp_store.specs.declared.error.StoreError.TheVariants.{BadMagic, Truncated, BadDigest, Damaged, Refused};
ghost use Rattle.tp_store.specs.Loading.{document_of_bytes};
ghost use Rattle.tp_store.specs.Saved.{body, saved_file, IsPiece, laid_out, CanBeSaved, IsSaved};

/// No bytes are the saved file of two identifiers or of two lists of changes.
pub fn one_saved_file()
    ensures { (id other : DocId) (C D : List ChangeParts) → CanBeSaved id C → CanBeSaved other D
        → saved_file id C ≡ saved_file other D → (id ≡ other) × (C ≡ D) }
{}

/// What was saved loads with its identifier and its applied changes.
pub fn what_was_saved_loads()
    ensures { (id : DocId) (C : List ChangeParts) → CanBeSaved id C
        → document_of_bytes (saved_file id C) ≡ Ok (id, C) }
{}

/// Bytes load exactly where they are a saved file, and as what was saved.
pub fn saved_files_alone_load()
    ensures { (bytes : List ℕ) (id : DocId) (C : List ChangeParts)
        → ((i : ℕ) → slice_index bytes i < 256) → (document_of_bytes bytes ≡ Ok (id, C)) ↔ IsSaved bytes id C }
{}

/// Bytes that differ from the magic at one of its places are refused as `BadMagic`, whatever follows.
pub fn another_magic_is_bad()
    ensures { (bytes : List ℕ) (i : ℕ) → i < length MAGIC → i < length bytes
        → (slice_index bytes i ≡ slice_index MAGIC i → ⊥) → document_of_bytes bytes ≡ Err BadMagic }
{}

/// A saved file that is cut, wherever it is, is refused as `Truncated`.
pub fn a_cut_is_truncated()
    ensures { (id : DocId) (C : List ChangeParts) (prefix more : List ℕ) → CanBeSaved id C
        → ((i : ℕ) → slice_index prefix i < 256) → saved_file id C ≡ prefix ++ more → 0 < length more
        → document_of_bytes prefix ≡ Err Truncated }
{}

/// Bytes after a saved file are refused as `Damaged` at the first of them.
pub fn what_follows_is_damaged()
    ensures { (id : DocId) (C : List ChangeParts) (more : List ℕ)
        → CanBeSaved id C → 0 < length more
        → document_of_bytes (saved_file id C ++ more) ≡ Err (Damaged (length (saved_file id C))) }
{}

/// A saved file with 32 other bytes in place of its digest is refused as `BadDigest`.
pub fn another_digest_is_bad()
    ensures { (id : DocId) (C : List ChangeParts) (digest : List ℕ) → CanBeSaved id C
        → length digest ≡ DIGEST_LEN → (digest ≡ sha256 (body id C) → ⊥)
        → document_of_bytes (body id C ++ digest) ≡ Err BadDigest }
{}

/// Where the layout and the digest have no fault, bytes that are no change, after changes that enter, are `Damaged`
/// at the offset of their length.
pub fn what_is_no_change_is_damaged()
    ensures { (id : DocId) (C : List ChangeParts) (bytes : List ℕ) (more : List (List ℕ))
        (e : ChangeError) → CanBeSaved id C → AllByRecursion IsPiece (bytes ∷ more)
        → length C + length (bytes ∷ more) < 2 ^ 32 → change_at bytes ≡ Err e
        → document_of_bytes (laid_out id (map spelling C ++ bytes ∷ more))
        ≡ Err (Damaged (HEADER_LEN + length (flat_map framed_change C))) }
{}

/// Where the layout and the digest have no fault, a change that can't enter after those before it is refused with
/// its cause.
pub fn what_does_not_fit_is_refused()
    ensures { (id : DocId) (C : List ChangeParts) (c : ChangeParts) (more : List (List ℕ))
        (e : GraphError) → CanBeSaved id C → IsChange c → AllByRecursion IsPiece more
        → length C + suc (length more) < 2 ^ 32 → cause C c ≡ Some e
        → document_of_bytes (laid_out id (map spelling C ++ spelling c ∷ more)) ≡ Err (Refused e) }
{}
