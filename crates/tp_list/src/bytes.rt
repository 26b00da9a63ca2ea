//! What the type of an array says.

ghost use Rattle.std.specs.Prelude.{◌≡◌};
ghost use Rattle.tp_list.specs.Bytes.{IsBytes};

/// How many bytes an array has. Whoever calls it may rely on what the type says: there are `N`, and each is a byte.
pub fn array_len<const N: usize>(bytes: [u8; N]) -> usize
    ensures count { result ≡ N }
    ensures bytes { IsBytes N bytes.entry }
{
    bytes.len()
}
