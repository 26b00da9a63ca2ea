//! Sessions over streams, and the server and the client over sockets.
//!
//! [`run_session`] holds one session over a reader and a writer: it reads frames, has a session answer them, and sends
//! the answers, until both sides have said done or the session breaks off. [`serve`] holds sessions over the connections
//! that it accepts, on the seats of a served peer, and [`connect`] holds one as the client. [`hold_alone`] and
//! [`connect_alone`] hold one of a peer that nobody else has.
#![tactic(auto)]

mod alone;
mod connecting;
mod gate;
mod holding;
mod patience;
mod reading;
mod run;
mod seated;
mod serving;
mod tally;
mod writing;

pub use alone::{connect_alone, hold_alone, hold_alone_on};
pub use connecting::{Unreached, connect, reach};
pub use gate::{AlwaysOpen, Gate, Report};
pub use holding::hold_over;
pub use run::run_session;
pub use seated::SeatedHost;
pub use serving::{Interrupted, serve};
pub use tally::Tally;
