//! Hashes as C gives and takes them: their bytes, one after another.

ghost use Rattle.std.specs.Prelude.{◌≡◌, ◌⊎◌, IfOk, IfErr};
ghost use Rattle.tp_c.specs.Heads.{hash_bytes, EndsInHash};

use crate::status::{BAD_LENGTHS, DOC_OUT_OF_MEMORY};
use std::alloc::{AllocError, Global};
use tp_opid::Hash;

/// How many bytes a hash has.
const HASH_LEN: usize = 32;

/// The bytes of the hashes, one after another.
pub(crate) fn bytes_of(alloc: Global, hashes: &[Hash]) -> Result<Vec<u8>, AllocError>
    ensures { IfOk result (λ v. v.items ≡ hash_bytes hashes.now) }
{
    let mut bytes = Vec::new(alloc);
    for hash in hashes {
        bytes.extend_from_slice(&hash.0)?;
    }
    Ok(bytes)
}

/// The hashes that the bytes are; 5 where a part of one is left over, and 109 where memory was refused.
pub(crate) fn hashes_of(alloc: Global, bytes: &[u8]) -> Result<Vec<Hash>, u32>
    ensures ok { IfOk result (λ hashes. hash_bytes hashes.items ≡ bytes.now) }
    ensures err { IfErr result
        (λ status. ((status ≡ 5) × EndsInHash bytes.now) ⊎ (status ≡ 109)) }
{
    let mut hashes = Vec::new(alloc);
    let mut rest = bytes;
    while let Some((hash, beyond)) = rest.split_first_chunk::<HASH_LEN>() {
        match hashes.push(Hash(*hash)) {
            Ok(()) => {}
            Err(_) => return Err(DOC_OUT_OF_MEMORY),
        }
        rest = beyond;
    }
    if rest.is_empty() {
        Ok(hashes)
    } else {
        Err(BAD_LENGTHS)
    }
}
