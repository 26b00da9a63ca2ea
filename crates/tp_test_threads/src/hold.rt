//! Gates and listeners of the tests.

use std::io;
use std::io::ErrorKind;
use std::net::{OpenListener, SocketAddr, TcpStream};
use std::sync::atomic::{AtomicU64, Ordering};
use tp_net::{Gate, Report};
use tp_session::NetError;

// So often the gate looks before it gives up.
const LOOKS: u64 = 1_000_000_000;

/// A gate that holds the first session until the second has ended.
#[derive(Drop)]
pub struct Hold {
    ended: AtomicU64,
    gave_up: AtomicU64,
}

impl Hold {
    /// The gate, before all sessions.
    pub fn new() -> Hold {
        Hold {
            ended: AtomicU64::new(0),
            gave_up: AtomicU64::new(0),
        }
    }

    /// Whether the second session didn't end while the first was held.
    pub fn gave_up(&self) -> bool {
        self.gave_up.load(Ordering::SeqCst) != 0
    }
}

impl Gate for Hold {
    fn before(&self, session: u64) {
        if session != 1 {
            return;
        }
        for _ in 0..LOOKS {
            if self.ended.load(Ordering::SeqCst) != 0 {
                return;
            }
        }
        self.gave_up.store(1, Ordering::SeqCst);
    }

    fn after(&self, report: &Report) {
        if report.session == 2 {
            self.ended.store(1, Ordering::SeqCst);
        }
    }
}

/// A gate that adds up what sessions came to.
#[derive(Drop)]
pub struct Counts {
    entered: AtomicU64,
    sent: AtomicU64,
    broken: AtomicU64,
}

impl Counts {
    /// The gate, before all sessions.
    pub fn new() -> Counts {
        Counts {
            entered: AtomicU64::new(0),
            sent: AtomicU64::new(0),
            broken: AtomicU64::new(0),
        }
    }

    /// How many changes entered, how many were sent, and how many sessions were broken off for `Io`.
    pub fn all(&self) -> (u64, u64, u64) {
        (
            self.entered.load(Ordering::SeqCst),
            self.sent.load(Ordering::SeqCst),
            self.broken.load(Ordering::SeqCst),
        )
    }
}

impl Gate for Counts {
    fn before(&self, _session: u64) {}

    fn after(&self, report: &Report) {
        self.entered
            .fetch_add(report.tally.entered, Ordering::SeqCst);
        self.sent.fetch_add(report.tally.sent, Ordering::SeqCst);
        if let Some(NetError::Io) = report.error {
            self.broken.fetch_add(1, Ordering::SeqCst);
        }
    }
}

/// A listener that accepts nothing.
#[derive(Drop)]
pub struct Broken;

impl OpenListener for Broken {
    type Stream = TcpStream;

    fn accept(&self) -> io::Result<(TcpStream, SocketAddr)> {
        Err(io::Error::from(ErrorKind::ConnectionAborted))
    }
}
