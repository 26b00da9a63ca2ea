//! A change from its bytes, and its bytes.

ghost use Rattle.std.specs.Prelude.{◌≡◌, ◌++◌, length, Ok, IfOk, IsOkUnless};
ghost use Rattle.tp_codec.specs.Gives.{Gives};
ghost use Rattle.tp_layout.specs.Limits.{IsChange};
ghost use Rattle.tp_layout.specs.Reading.{change_at};
ghost use Rattle.tp_layout.specs.Spelling.{spelling};
ghost use Rattle.tp_layout.specs.declared.error.ChangeError.TheVariants.{OutOfMemory};
ghost use Rattle.tp_layout.specs.declared.parts.ChangeParts.{ChangeParts};

use crate::change::Change;
use std::alloc::Global;
use tp_digest::Ahead;
use tp_layout::{ChangeError, body_len, put_change, read_change};
use tp_opid::Hash;

impl Change {
    /// The change that the bytes are, all of them, with their SHA-256 as its hash.
    ///
    /// Takes one pass over the bytes. Refuses with the first fault from the start, as docs/FORMATS.md orders them,
    /// and with `OutOfMemory` where a growth was refused.
    pub fn decode(alloc: Global, bytes: &[u8]) -> Result<Change, ChangeError>
        ensures found { IfOk result (λ c. IsChange c × (bytes.now ≡ spelling c)) }
        ensures only { (c : ChangeParts) → IsChange c → bytes.now ≡ spelling c
            → Gives OutOfMemory (λ d. d) result (Ok c) }
        ensures exact { Gives OutOfMemory (λ c. c) result (change_at bytes.now) }
    {
        Change::decode_ahead(alloc, bytes, &mut Ahead::none())
    }

    /// As [`decode`](Change::decode), with the digest of the bytes from those of the changes that are expected, where
    /// these bytes are the next of them. It is asked for only where the bytes are a change.
    pub fn decode_ahead(
        alloc: Global,
        bytes: &[u8],
        ahead: &mut Ahead<'_>,
    ) -> Result<Change, ChangeError>
        ensures found { IfOk result (λ c. IsChange c × (bytes.now ≡ spelling c)) }
        ensures only { (c : ChangeParts) → IsChange c → bytes.now ≡ spelling c
            → Gives OutOfMemory (λ d. d) result (Ok c) }
        ensures exact { Gives OutOfMemory (λ c. c) result (change_at bytes.now) }
    {
        let body = read_change(alloc, bytes)?;
        let hash = Hash(ahead.digest(bytes));
        Ok(Change { alloc, body, hash })
    }

    /// How many bytes [`encode`](Change::encode) gives, at most 4,194,304. No memory; the cost is that of going
    /// over the dependencies and the records, and not over their texts.
    pub fn encoded_len(&self) -> usize
        ensures { result ≡ length (spelling self.now) }
    {
        body_len(&self.body)
    }

    /// The bytes of the change, as docs/FORMATS.md lays them out. They are written once, into memory that is
    /// reserved once. The only refusal is `OutOfMemory`.
    pub fn encode(&self) -> Result<Vec<u8>, ChangeError>
        ensures bytes { IfOk result (λ bytes. bytes.items ≡ spelling self.now) }
        ensures err { IsOkUnless result OutOfMemory }
    {
        self.encode_after(Vec::with_capacity(self.alloc, self.encoded_len())?)
    }

    /// The bytes that are given, and after them those of the change, as [`encode`](Change::encode) gives them. Room is
    /// made for them at once. The only refusal is `OutOfMemory`; it lets the bytes go.
    pub fn encode_after(&self, mut out: Vec<u8>) -> Result<Vec<u8>, ChangeError>
        ensures bytes { IfOk result (λ bytes. bytes.items ≡ out.items ++ spelling self.now) }
        ensures err { IsOkUnless result OutOfMemory }
    {
        out.reserve(self.encoded_len())?;
        put_change(&mut out, &self.body)?;
        Ok(out)
    }
}
