//! Where a server is.

use std::fmt;
use std::net::SocketAddr;

/// Where a server listens. A name is borrowed from the words of the command line.
#[derive(Clone, Copy)]
pub enum Address<'a> {
    /// An IP address and a port.
    Socket(SocketAddr),
    /// A host, whose addresses are looked up as the command runs.
    Host {
        /// The name, of letters, digits, `-`, `_` and `.`; it isn't of digits and dots alone.
        name: &'a str,
        /// The port.
        port: u16,
    },
}

impl fmt::Display for Address<'_> {
    fn fmt<W: fmt::Write>(&self, f: &mut fmt::Formatter<W>) -> fmt::Result {
        match self {
            Address::Socket(addr) => write!(f, "{addr}"),
            Address::Host { name, port } => write!(f, "{name}:{port}"),
        }
    }
}
