//! What a side does about a frame.

ghost use Rattle.std.specs.Prelude.{◌≡◌};
ghost use Rattle.tp_session.specs.NetError.{refusal_of};

use crate::error::NetError;
use tp_frame::Frame;

/// What a side does about a frame that it took.
#[derive(Debug, PartialEq, Eq, Drop)]
pub struct Turn {
    /// The frame that it sends, if there is one to send.
    pub send: Option<Frame>,
    /// Whether the session has ended, both sides having said done.
    pub ended: bool,
}

/// How a session ended before both sides had said done.
#[derive(Debug, PartialEq, Eq, Drop)]
pub struct Ended {
    /// Why.
    pub error: NetError,
    /// The refusal that the other is due, if there is one.
    pub send: Option<Frame>,
}

impl Ended {
    /// An end with the refusal that is due for it.
    pub fn new(error: NetError) -> Ended
        ensures error { result.error ≡ error }
        ensures send { result.send ≡ refusal_of error }
    {
        Ended {
            error,
            send: error.refusal(),
        }
    }
}

impl From<Ended> for NetError {
    ghost from_gives = { λ ended e. e ≡ ended.error };

    fn from(ended: Ended) -> NetError {
        ended.error
    }
}
