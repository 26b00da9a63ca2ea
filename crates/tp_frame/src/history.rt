//! The bytes that came, for proofs alone.

ghost use Rattle.std.specs.Prelude.{◌≡◌};
ghost use Rattle.tp_frame.specs.Reading.{after_frame};

use tp_ghost::GhostBytes;

/// Of the bytes that came, those after the frame at their front, which was given.
pub fn bytes_after_frame(_came: &GhostBytes) -> GhostBytes
    ensures { result.bytes ≡ after_frame _came.now.bytes }
{
    GhostBytes {}
}
