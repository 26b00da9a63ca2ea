//! Whether two codes are the same.

ghost use Rattle.std.specs.Prelude.{◌≡◌, ◌↔◌, IsTrue};

/// Whether two codes are the same. It reads all 32 bytes of both wherever they differ first, so that the time it takes doesn't
/// say where; a contract says nothing of time.
pub fn is_equal(one: &[u8; 32], other: &[u8; 32]) -> bool
    ensures { IsTrue result ↔ (one.now ≡ other.now) }
{
    let mut apart: u32 = 0;
    for i in 0..32 {
        apart += u32::from(one[i].abs_diff(other[i]));
    }
    apart == 0
}
