//! A message and its padding as blocks (FIPS 180-4, 5.1.1).
ghost use Rattle.std.specs.Prelude.{◌≡◌, ◌<◌, ◌*◌, ◌≤◌, ◌+◌, ◌-◌, ◌/◌, ◌%◌, ◌^◌, ◌++◌, ℕ, drop, length, take};
ghost use Rattle.sha2.specs.Sha256.{padded_message, padding};
ghost use Rattle.tp_digest.specs.Blocks.{block_of, tail_of};

/// A message as blocks of 64 bytes: its whole ones where they are, and one or two that end with its length.
#[derive(Drop)]
pub(crate) struct Padded<'a> {
    message: &'a [u8],
    tail: [u8; 128],
    blocks: usize,
    ghost counted: { 64 * blocks ≡ length (padded_message message.now) },
    ghost few: { blocks < 2 ^ 60 },
    ghost ends: { take (64 * blocks - length message.now / 64 * 64) tail ≡ tail_of message.now },
}

/// How many blocks hold the last bytes, of which there are fewer than a block, and the padding.
#[inline(always)]
fn blocks_after(left: usize) -> usize
    requires { left < 64 }
    ensures { 64 * result ≡ left + (9 + (119 - left) % 64) }
{
    if left < 56 { 1 } else { 2 }
}

/// The last bytes of a message, of which there are fewer than a block, with its padding.
#[inline(always)]
fn padded_tail(left: &[u8], end: usize, bytes: usize) -> [u8; 128]
    requires left { length left.now ≡ bytes % 64 }
    requires end { end ≡ length left.now + (9 + (119 - length left.now) % 64) }
    ensures { take end result ≡ left.now ++ padding bytes }
{
    let mut tail = [0; 128];
    tail[..left.len()].copy_from_slice(left);
    tail[left.len()] = 0x80;
    let bits = (bytes as u64).wrapping_mul(8);
    tail[end - 8..end].copy_from_slice(&bits.to_be_bytes());
    tail
}

#[inline(always)]
fn array_of(bytes: &[u8]) -> [u8; 64]
    requires { length bytes.now ≡ 64 }
    ensures { result ≡ bytes.now }
{
    let mut copy = [0; 64];
    copy.copy_from_slice(bytes);
    copy
}

impl<'a> Padded<'a> {
    pub(crate) fn new(message: &'a [u8]) -> Padded<'a>
        ensures { result.message ≡ message.entry }
    {
        let whole = message.len() / 64;
        let left = &message[64 * whole..];
        let beyond = blocks_after(left.len());
        Padded {
            message,
            tail: padded_tail(left, 64 * beyond, message.len()),
            blocks: whole + beyond,
        }
    }

    #[inline(always)]
    pub(crate) fn blocks(&self) -> usize
        ensures count { 64 * result ≡ length (padded_message self.now.message.now) }
        ensures few { result < 2 ^ 60 }
    {
        self.blocks
    }

    /// The block at an index, and past the end any block.
    #[inline(always)]
    pub(crate) fn block(&self, index: usize) -> [u8; 64]
        ensures { 64 * index < length (padded_message self.now.message.now)
            → result ≡ block_of self.now.message.now index }
    {
        let whole = self.message.len() / 64;
        if index < whole {
            array_of(&self.message[64 * index..64 * index + 64])
        } else if index < self.blocks {
            let at = 64 * (index - whole);
            array_of(&self.tail[at..at + 64])
        } else {
            [0; 64]
        }
    }
}
