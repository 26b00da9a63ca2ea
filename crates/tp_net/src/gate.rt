//! What a server does round each session.

use crate::tally::Tally;
use std::net::SocketAddr;
use tp_session::NetError;

/// What a session of a server came to.
#[derive(Clone, Copy)]
pub struct Report {
    /// Its number.
    pub session: u64,
    /// Where the client is.
    pub client: SocketAddr,
    /// How many changes it moved, also where it was broken off.
    pub tally: Tally,
    /// `None` where it ended well, and else why it was broken off.
    pub error: Option<NetError>,
}

/// What a server calls before and after each session, from the thread of the worker that holds it.
///
/// Sessions are numbered from 1, in the order in which their connections were accepted. For as long as a call doesn't
/// return, the worker holds no session.
pub trait Gate {
    /// The session is about to begin: nothing was read or sent yet.
    fn before(&self, session: u64);

    /// The session has ended, well or not.
    fn after(&self, report: &Report);
}

/// A gate that lets each session begin at once.
#[derive(Clone, Copy, Debug, PartialEq, Eq)]
pub struct AlwaysOpen;

impl Gate for AlwaysOpen {
    fn before(&self, _session: u64) {}

    fn after(&self, _report: &Report) {}
}
