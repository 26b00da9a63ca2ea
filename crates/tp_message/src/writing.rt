//! The bytes of a message, written from first to last.

ghost use Rattle.std.specs.Prelude.{◌≡◌, ◌<◌, ◌≤◌, ◌^◌, ◌++◌, length, map, IfOk, OnOk, IsOkUnless};
ghost use Rattle.tp_message.specs.Common.{flat_map, In, IsRising, hash_cmp, ChangeParts, IsChange, Hash};
ghost use Rattle.tp_message.specs.declared.error.SyncError.TheVariants.{OutOfMemory};
ghost use Rattle.tp_message.specs.Message.{IsMessage, message_of_parts};
ghost use Rattle.tp_message.specs.Spelling.{spelling_of_hashes, spelling_of_known, message_spelling};
ghost use Rattle.tp_layout.specs.Spelling.{framed_change};

use crate::error::SyncError;
use crate::limits::{MAX_CHANGES, MAX_HASHES, MAX_KNOWN};
use crate::message::{Message, VERSION, of_hashes};
use std::alloc::{AllocError, Global};
use tp_change::Change;
use tp_opid::Hash;

// How many bytes the changes have with their lengths, or `usize::MAX`.
fn entries_len(changes: &[Change]) -> usize {
    let mut total: usize = 0;
    for change in changes {
        total = total.saturating_add(change.encoded_len().saturating_add(4));
    }
    total
}

// Puts the hashes, one after another.
fn put_each(out: &mut Vec<u8>, hashes: &[Hash]) -> Result<(), AllocError>
    ensures { OnOk result
        (out.new.items ≡ out.old.items ++ flat_map (λ (h : Hash). h.0) hashes.now) }
{
    for hash in hashes {
        out.extend_from_slice(&hash.0)?;
    }
    Ok(())
}

// Puts how many hashes there are, and the hashes.
fn put_hashes(out: &mut Vec<u8>, hashes: &[Hash]) -> Result<(), AllocError>
    requires { length hashes.now < 2 ^ 32 }
    ensures { OnOk result (out.new.items ≡ out.old.items ++ spelling_of_hashes hashes.now) }
{
    out.extend_from_slice(&(hashes.len() as u32).to_be_bytes())?;
    put_each(out, hashes)
}

// Puts the hashes of known changes, which version 2 has alone.
#[tactic(auto, unfolding(crate::specs::Spelling::spelling_of_known))]
fn put_known(out: &mut Vec<u8>, version: u8, known: &[Hash]) -> Result<(), AllocError>
    requires { length known.now < 2 ^ 32 }
    ensures { OnOk result (out.new.items ≡ out.old.items ++ spelling_of_known version known.now) }
{
    if version == 2 {
        return put_hashes(out, known);
    }
    Ok(())
}

// The bytes with those of a change and their length after them.
fn with_change(mut out: Vec<u8>, change: &Change) -> Result<Vec<u8>, SyncError>
    ensures bytes { IfOk result (λ v. v.items ≡ out.items ++ framed_change change.now) }
    ensures err { IsOkUnless result OutOfMemory }
{
    let _hash = change.hash();
    let len = change.encoded_len() as u32;
    out.extend_from_slice(&len.to_be_bytes())?;
    match change.encode_after(out) {
        Ok(out) => Ok(out),
        Err(_) => Err(SyncError::OutOfMemory),
    }
}

// The bytes with those of the changes and their lengths after them.
fn with_changes(out: Vec<u8>, changes: &[Change]) -> Result<Vec<u8>, SyncError>
    ensures bytes { IfOk result (λ v. v.items ≡ out.items ++ flat_map framed_change changes.now) }
    ensures err { IsOkUnless result OutOfMemory }
{
    let mut whole = out;
    for change in changes {
        whole = with_change(whole, change)?;
    }
    Ok(whole)
}

// The bytes with those of the borrowed changes and their lengths after them.
fn with_each(out: Vec<u8>, changes: &[&Change]) -> Result<Vec<u8>, SyncError>
    ensures bytes { IfOk result
        (λ v. v.items ≡ out.items ++ flat_map framed_change (map (λ c. c.now) changes.now)) }
    ensures err { IsOkUnless result OutOfMemory }
{
    let mut whole = out;
    for change in changes {
        whole = with_change(whole, change)?;
    }
    Ok(whole)
}

/// The bytes of the message of version 2 of these parts, which are within the limits: those that
/// [`encode`](Message::encode) gives of the message that [`Message::new`] makes. They are written once, and no change is
/// copied. The only refusal is `OutOfMemory`.
///
/// The changes have `bytes` bytes, for which memory is reserved once; another number costs memory or time, and no more.
pub fn encode_parts(
    alloc: Global,
    heads: &[Hash],
    wants: &[Hash],
    known: &[Hash],
    changes: &[&Change],
    bytes: usize,
) -> Result<Vec<u8>, SyncError>
    requires heads { IsRising hash_cmp heads.now × (length heads.now ≤ MAX_HASHES) }
    requires wants { IsRising hash_cmp wants.now × (length wants.now ≤ MAX_HASHES) }
    requires known { IsRising hash_cmp known.now × (length known.now ≤ MAX_KNOWN) }
    requires changes { ((c : ChangeParts) → In c (map (λ c. c.now) changes.now) → IsChange c)
        × (length (map (λ c. c.now) changes.now) ≤ MAX_CHANGES) }
    ensures limits { IsMessage
        (message_of_parts heads.now wants.now known.now (map (λ c. c.now) changes.now)) }
    ensures bytes { IfOk result (λ v. v.items ≡ message_spelling
        (message_of_parts heads.now wants.now known.now (map (λ c. c.now) changes.now))) }
    ensures err { IsOkUnless result OutOfMemory }
{
    of_hashes(heads);
    of_hashes(wants);
    of_hashes(known);
    let hashes = 32 * (heads.len() + wants.len() + known.len());
    let len = bytes.saturating_add(17 + hashes + 4 * changes.len());
    let mut out = Vec::with_capacity(alloc, len)?;
    out.push(VERSION)?;
    put_hashes(&mut out, heads)?;
    put_hashes(&mut out, wants)?;
    put_known(&mut out, VERSION, known)?;
    out.extend_from_slice(&(changes.len() as u32).to_be_bytes())?;
    let whole = with_each(out, changes)?;
    Ok(whole)
}

impl Message {
    /// The bytes of the message, as docs/FORMATS.md lays them out. They are written once, into memory that is reserved
    /// once. The only refusal is `OutOfMemory`: a message is always within its limits.
    pub fn encode(&self) -> Result<Vec<u8>, SyncError>
        ensures bytes { IfOk result
            (λ v. IsMessage self.now × (v.items ≡ message_spelling self.now)) }
        ensures err { IsOkUnless result OutOfMemory }
    {
        let heads = self.heads();
        let wants = self.wants();
        let known = self.known();
        let changes = self.changes();
        let hashes = 32 * (heads.len() + wants.len() + known.len());
        let len = entries_len(changes).saturating_add(17 + hashes);
        let mut out = Vec::with_capacity(*self.changes.allocator(), len)?;
        out.push(self.version)?;
        put_hashes(&mut out, heads)?;
        put_hashes(&mut out, wants)?;
        put_known(&mut out, self.version, known)?;
        out.extend_from_slice(&(changes.len() as u32).to_be_bytes())?;
        let whole = with_changes(out, changes)?;
        Ok(whole)
    }
}
