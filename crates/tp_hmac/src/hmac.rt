//! The code of a text under a key.

ghost use Rattle.std.specs.Prelude.{◌≡◌, map, bit_xor};
ghost use Rattle.tp_hmac.specs.Hmac.{hmac, key_block};

use sha2::{Digest, Sha256};

// A block of SHA-256 has this many bytes.
const BLOCK: usize = 64;

// The key as a block: the key, or its digest where the key is longer than a block, and zeros after it.
fn block_of(key: &[u8]) -> [u8; BLOCK]
    ensures { result ≡ key_block key.now }
{
    let mut block = [0; BLOCK];
    if key.len() > BLOCK {
        block[..32].copy_from_slice(&Sha256::digest(key));
    } else {
        block[..key.len()].copy_from_slice(key);
    }
    block
}

// The block, each of whose bytes is exclusive-ored with the pad.
fn padded_with(block: &[u8; BLOCK], pad: u8) -> [u8; BLOCK]
    ensures { result ≡ map (λ byte. bit_xor byte pad) block.now }
{
    let mut out = [0; BLOCK];
    for i in 0..BLOCK {
        out[i] = block[i] ^ pad;
    }
    out
}

/// The code that the key gives for the text, as RFC 2104 says: SHA-256 twice, over the text once. No memory, and no refusal.
pub fn hmac_sha256(key: &[u8], text: &[u8]) -> [u8; 32]
    ensures { result ≡ hmac key.now text.now }
{
    let block = block_of(key);
    let mut inner = Sha256::new();
    inner.update(&padded_with(&block, 0x36));
    inner.update(text);
    let mut outer = Sha256::new();
    outer.update(&padded_with(&block, 0x5c));
    outer.update(&inner.finalize());
    outer.finalize()
}
