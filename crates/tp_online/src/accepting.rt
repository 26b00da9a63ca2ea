//! On which places connections are accepted, and what is said where a listener ends.

use std::io;
use std::net::SocketAddr;
use tp_patient::Witness;
use tp_web::MOST_OPEN;

/// A server has this many places, for connections and for the further handle that each session has: some 700 of the 1,024
/// descriptors that a process usually has.
pub(crate) const SERVE_PLACES: u64 = 700;

/// A page and the sessions beside it have this many places together.
pub(crate) const WEB_PLACES: u64 = 960;

/// This many sessions are held at once beside a page.
pub(crate) const SESSIONS: usize = 15;

/// Sessions beside a page leave it all places that it may take, and have one each for a further handle.
pub(crate) const KEPT: u64 = MOST_OPEN + SESSIONS as u64;

/// Says on the standard error why a listener accepts no more. Where memory is short, the line is missing.
#[derive(Clone, Copy)]
pub(crate) struct Teller;

impl<R: Eprint + AllocGlobal> Witness<R> for Teller {
    fn report_end(&self, rt: &R, at: io::Result<SocketAddr>, error: &io::Error) {
        let line = match at {
            Ok(at) => format!(in rt.alloc(); "{at} accepts no more: {error}\n"),
            Err(_) => format!(in rt.alloc(); "a listener accepts no more: {error}\n"),
        };
        if let Ok(line) = line {
            let _ = rt.eprint(line);
        }
    }
}
