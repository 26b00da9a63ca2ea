//! Whether bytes of any origin carry changes that were made, and no others.

ghost use Rattle.std.specs.Prelude.{◌≡◌, IfOk, IsOkUnless, MatchBool};
ghost use Rattle.tp_list.specs.Members.{In, AllIn};
ghost use Rattle.tp_layout.specs.Limits.{IsChange};
ghost use Rattle.tp_layout.specs.Spelling.{spelling};
ghost use Rattle.tp_history.specs.Named.{HashesApart};
ghost use Rattle.tp_headline.specs.declared.error.WorldError.TheVariants.{OutOfMemory};
ghost use Rattle.tp_peer.specs.Laws.{changes_in};

use std::alloc::Global;
use tp_change::Change;
use tp_headline::WorldError;
use tp_sync::{Message, SyncError};

// The bytes of a change.
fn bytes_of(change: &Change) -> Result<Vec<u8>, WorldError>
    ensures bytes { IfOk result (λ bytes. bytes.items ≡ spelling change.now) }
    ensures limits { IsChange change.now }
    ensures err { IsOkUnless result OutOfMemory }
{
    let _hash = change.hash();
    match change.encode() {
        Ok(bytes) => Ok(bytes),
        Err(_) => Err(WorldError::OutOfMemory),
    }
}

// Whether the two changes are one, by their bytes.
fn is_same(one: &Change, other: &Change) -> Result<bool, WorldError>
    ensures ok { IfOk result (λ same. MatchBool same (one.now ≡ other.now)
        (one.now ≡ other.now → ⊥)) }
    ensures err { IsOkUnless result OutOfMemory }
{
    let these = bytes_of(one)?;
    let those = bytes_of(other)?;
    Ok(these.as_slice() == those.as_slice())
}

// Whether the change is one of those that were made. Of these no two have one hash.
fn is_made(made: &[Change], change: &Change) -> Result<bool, WorldError>
    requires { HashesApart made.now }
    ensures ok { IfOk result (λ is. MatchBool is (In change.now made.now)
        (In change.now made.now → ⊥)) }
    ensures err { IsOkUnless result OutOfMemory }
{
    let hash = change.hash();
    for other in made {
        if other.hash().is(&hash) {
            return is_same(other, change);
        }
    }
    Ok(false)
}

// Whether each of the changes is one of those that were made.
fn are_made(made: &[Change], changes: &[Change]) -> Result<bool, WorldError>
    requires { HashesApart made.now }
    ensures ok { IfOk result (λ all. MatchBool all (AllIn changes.now made.now)
        (AllIn changes.now made.now → ⊥)) }
    ensures err { IsOkUnless result OutOfMemory }
{
    for change in changes {
        let known = is_made(made, change)?;
        if !known {
            return Ok(false);
        }
    }
    Ok(true)
}

/// Whether each change that the bytes carry is one of those that were made, where no two of these have one hash. Bytes
/// that are no message carry none. The only refusal is `OutOfMemory`.
///
/// The bytes are decoded. Each change that they carry takes one pass over the hashes of those that were made; where one
/// has its hash, both are written out and compared.
pub(crate) fn carry_made(alloc: Global, bytes: &[u8], made: &[Change]) -> Result<bool, WorldError>
    requires { HashesApart made.now }
    ensures ok { IfOk result (λ all. MatchBool all (AllIn (changes_in bytes.now) made.now)
        (AllIn (changes_in bytes.now) made.now → ⊥)) }
    ensures err { IsOkUnless result OutOfMemory }
{
    match Message::decode(alloc, bytes) {
        Ok(message) => are_made(made, message.changes()),
        Err(error) => match error {
            SyncError::OutOfMemory => Err(WorldError::OutOfMemory),
            _ => Ok(true),
        },
    }
}
