//! Frames out of a stream that comes in any pieces.

ghost use Rattle.std.specs.Prelude.{◌≡◌, [], ◌++◌, IfOk, IfSome, OnOk, OnErr, IsOkUnless};
ghost use Rattle.tp_frame.specs.declared.error.FrameError.TheVariants.{OutOfMemory};
ghost use Rattle.tp_frame.specs.Frame.{frame_spelling, IsFrame};
ghost use Rattle.tp_frame.specs.Stream.{NextFrame};

use crate::error::FrameError;
use crate::frame::Frame;
use crate::joining::Joiner;
use std::alloc::Global;
use std::marker::Model;

/// Takes a stream of bytes in whatever pieces it comes, and gives its frames: the parts of a
/// [`PartFramer`](crate::PartFramer), joined.
///
/// Contracts see the bytes that were fed and are in no frame that was given. They are held, but for those of a frame
/// that is refused, which are only counted. No more memory is kept for them than what growing by doubling asks for: a
/// length takes none before its bytes are there.
pub struct Framer {
    joiner: Joiner,
}

impl Drop for Framer {
    fn drop(self) {
        let Framer { joiner: _ } = self;
    }
}

impl Model for Framer {
    ghost use Rattle.std.specs.Prelude.{List, ℕ};

    ghost Value = { List ℕ };

    ghost use Rattle.tp_frame.specs.Joining.{JoinerInvariant};

    ghost view = { λ f. f.joiner.came.bytes };

    ghost invariant = { λ f. JoinerInvariant f.joiner };
}

impl Framer {
    /// A framer that holds nothing. No memory.
    pub fn new(alloc: Global) -> Framer
        ensures { result ≡ [] }
    {
        Framer {
            joiner: Joiner::new(alloc),
        }
    }

    /// Takes the next bytes of the stream. The only refusal is `OutOfMemory`, which takes none of them.
    ///
    /// The cost is that of copying the bytes once, and now and then what is held, as often as a `Vec` that grows does.
    pub fn feed(&mut self, bytes: &[u8]) -> Result<(), FrameError>
        ensures ok { OnOk result (self.new ≡ self.old ++ bytes.now) }
        ensures err { OnErr result (self.new ≡ self.old) }
        ensures memory { IsOkUnless result OutOfMemory }
    {
        self.joiner.feed(bytes)
    }

    /// The next frame, or `None` where it isn't whole yet and shows no fault.
    ///
    /// `TooLong` for a length past 16,777,216, and `BadKind` for a length of 0, once the 4 bytes of the length are
    /// there; `BadKind` for a kind past 3 once its byte is there; and once the body is whole, `BadHello` for a hello of
    /// another length than 18, and `BadKind` for a done of another length than 1 and a refusal of another than 2. Every
    /// later call answers the same then. `OutOfMemory` is answered at a whole sync
    /// frame alone, and changes nothing.
    ///
    /// No byte of a body is copied, but for a hello's document: the bytes of a sync frame are a part of the framer's
    /// block, which is kept as long as they are. What is taken is a count of the block's owners.
    pub fn next(&mut self) -> Result<Option<Frame>, FrameError>
        ensures frame { IfOk result (λ next. IfSome next
            (λ f. IsFrame f × (self.old ≡ frame_spelling f ++ self.new))) }
        ensures exact { NextFrame self.old result self.new }
    {
        self.joiner.next()
    }
}
