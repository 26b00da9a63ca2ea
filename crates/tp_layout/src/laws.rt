//! Laws of the layout, each as a function that does nothing and whose contract is the law.
//!
//! Bytes are a change's in one way, a change's bytes begin no other change's, and a refusal other than `Short` and
//! `NoRun` is about a prefix of the bytes, whatever follows it. By the contract of
//! [`read_change`](crate::read_change) they are laws of what it answers.

ghost use Rattle.std.specs.Prelude.{◌≡◌, ◌↔◌, ℕ, ◌<◌, ◌≤◌, List, [], ◌++◌, length, slice_index, Err};
ghost use Rattle.tp_layout.specs.declared.limits.TheConstants.{MAX_BYTES};
ghost use Rattle.tp_layout.specs.declared.parts.ChangeParts.{ChangeParts};
ghost use Rattle.tp_layout.specs.declared.error.ChangeError.{ChangeError};
ghost use Rattle.tp_layout.specs.declared.error.ChangeError.TheVariants.{Short, NoRun};
ghost use Rattle.tp_layout.specs.Faults.{HasFaultyPrefix, IsVersion2WithoutRun};
ghost use Rattle.tp_layout.specs.Limits.{IsChange};
ghost use Rattle.tp_layout.specs.Reading.{change_at};
ghost use Rattle.tp_layout.specs.Spelling.{spelling};

/// No bytes spell two changes.
pub fn one_spelling()
    ensures { (c d : ChangeParts) → IsChange c → IsChange d → spelling c ≡ spelling d → c ≡ d }
{}

/// The bytes of a change begin no other change's bytes.
pub fn nothing_begins_another()
    ensures { (c d : ChangeParts) (more : List ℕ) → IsChange c → IsChange d
        → spelling d ≡ spelling c ++ more → (c ≡ d) × (more ≡ []) }
{}

/// A change has from 1 to 4,194,304 bytes.
pub fn sizes()
    ensures { (c : ChangeParts) → IsChange c → (1 ≤ length (spelling c))
        × (length (spelling c) ≤ MAX_BYTES) }
{}

/// Where bytes within the size limit are refused for another reason than missing bytes or a missing run of deletes,
/// a prefix of them is to blame: no change's bytes begin with it, each shorter prefix is a change or only misses bytes
/// or a run, and all bytes within the limit that begin with it are refused for the same reason.
pub fn a_prefix_is_faulty()
    ensures { (bytes : List ℕ) (e : ChangeError) → ((i : ℕ) → slice_index bytes i < 256)
        → length bytes ≤ MAX_BYTES → change_at bytes ≡ Err e → (e ≡ Short → ⊥)
        → (e ≡ NoRun → ⊥) → HasFaultyPrefix bytes e }
{}

/// Bytes are refused as `NoRun` exactly where they are those of a change without a run of deletes but for the
/// version, which is 2 in place of 1.
pub fn no_run_says_the_version_alone()
    ensures { (bytes : List ℕ) → ((i : ℕ) → slice_index bytes i < 256)
        → (change_at bytes ≡ Err NoRun) ↔ IsVersion2WithoutRun bytes }
{}

/// Where bytes within the size limit are refused as `Short`, nothing is wrong with any prefix of them but that bytes
/// are missing.
pub fn short_says_missing_alone()
    ensures { (prefix more : List ℕ) → ((i : ℕ) → slice_index prefix i < 256)
        → length (prefix ++ more) ≤ MAX_BYTES → change_at (prefix ++ more) ≡ Err Short
        → change_at prefix ≡ Err Short }
{}
