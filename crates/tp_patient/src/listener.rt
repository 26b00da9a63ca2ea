//! The listener.

ghost use Rattle.std.specs.Prelude.{◌≡◌, false, IfErr};
ghost use Rattle.std.specs.IoError.{raw_os_error};
ghost use Rattle.tp_patient.specs.Refusals.{passes};

use crate::placed::Placed;
use crate::places::Places;
use crate::refusals::is_passing;
use std::net::{OpenListener, SocketAddr};
use std::sync::Wait;
use std::sync::ledger::Ledger;
use std::time::{Clock, Duration};
use std::{io, thread};

// After a refusal that may pass it waits this many milliseconds.
const MOMENT: u64 = 20;

/// Who learns why a listener accepts nothing more.
pub trait Witness<R> {
    /// The system refused for a reason that doesn't pass. The listener is at the address, as far as the system says.
    fn report_end(&self, rt: &R, at: io::Result<SocketAddr>, error: &io::Error);
}

/// A listener over another one, which accepts while more places are free than are kept back for further handles of its streams.
#[derive(Drop)]
pub struct Patient<'a, L: OpenListener, K: Ledger, R: Wait + Clock, W: Witness<R>> {
    rt: &'a R,
    listener: &'a L,
    places: &'a Places<K>,
    kept: u64,
    witness: &'a W,
}

impl<'a, L: OpenListener, K: Ledger, R: Wait + Clock, W: Witness<R>> Patient<'a, L, K, R, W> {
    /// Over the listener, on these places, of which that many are kept back. Several listeners may have the same places.
    pub fn new(
        rt: &'a R,
        listener: &'a L,
        places: &'a Places<K>,
        kept: u64,
        witness: &'a W,
    ) -> Patient<'a, L, K, R, W> {
        Patient {
            rt,
            listener,
            places,
            kept,
            witness,
        }
    }

    // The next connection, whatever passes meanwhile.
    fn accept_next(&self) -> io::Result<(L::Stream, SocketAddr)>
        ensures { IfErr result (λ e. passes (raw_os_error e) ≡ false) }
    {
        for _ in self.rt.forever() {
            match self.listener.accept() {
                Ok(accepted) => return Ok(accepted),
                Err(error) => {
                    if !is_passing(&error) {
                        self.witness
                            .report_end(self.rt, self.listener.local_addr(), &error);
                        return Err(error);
                    }
                }
            }
            thread::sleep(self.rt, Duration::from_millis(MOMENT));
        }
        unreachable!()
    }
}

/// It waits for a place, and then for a connection. Where the system refuses for a reason that may pass, it waits 20 milliseconds
/// and asks again, for as long as that lasts. The only refusal is one that doesn't pass, which was reported to the witness.
impl<'a, L: OpenListener, K: Ledger, R: Wait + Clock, W: Witness<R>> OpenListener
    for Patient<'a, L, K, R, W> {
    type Stream = Placed<'a, L::Stream, K, R>;

    fn accept(&self) -> io::Result<(Placed<'a, L::Stream, K, R>, SocketAddr)>
        ensures gives_up { IfErr result (λ e. passes (raw_os_error e) ≡ false) }
    {
        let place = self.places.wait(self.rt, self.kept);
        let (stream, client) = self.accept_next()?;
        Ok((Placed::new(stream, place), client))
    }

    fn local_addr(&self) -> io::Result<SocketAddr> {
        self.listener.local_addr()
    }
}
