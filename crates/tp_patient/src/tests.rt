//! Over a listener that answers by a list, and streams that say nothing.

ghost use Rattle.std.specs.Prelude.{◌≡◌};

use crate::{Patient, Places, Witness};
use std::cell::Cell;
use std::io;
use std::io::{ErrorKind, Read, Write};
use std::marker::Brand;
use std::net::{OpenListener, OpenStream, SocketAddr};
use std::sync::Wait;
use std::sync::ledger::{Blank, Ledger};
use std::test::Fail;
use std::time::{Clock, Duration};

// A stream on which one byte has come. It keeps which bound was set for its reads.
#[derive(Drop)]
struct Quiet<'a> {
    bound: &'a Cell<Option<Duration>>,
}

impl Read for Quiet<'_> {
    fn read(&mut self, _buf: &mut [u8]) -> io::Result<usize> {
        Ok(0)
    }
}

impl Write for Quiet<'_> {
    fn write(&mut self, _buf: &[u8]) -> io::Result<usize> {
        Ok(0)
    }

    fn flush(&mut self) -> io::Result<()> {
        Ok(())
    }
}

impl OpenStream for Quiet<'_> {
    fn set_read_timeout(&self, dur: Option<Duration>) -> io::Result<()> {
        self.bound.set(dur);
        Ok(())
    }

    fn peek(&self, _buf: &mut [u8]) -> io::Result<usize> {
        Ok(0)
    }

    fn try_clone(&self) -> io::Result<Self> {
        Ok(Quiet { bound: self.bound })
    }
}

// Accepts a stream at each third call, and refuses before it for want of descriptors, and since the client is gone. After
// `most` calls it refuses for good.
#[derive(Drop)]
struct Scarce<'a> {
    bound: &'a Cell<Option<Duration>>,
    calls: Cell<u64>,
    most: u64,
}

impl<'a> OpenListener for Scarce<'a> {
    type Stream = Quiet<'a>;

    fn accept(&self) -> io::Result<(Quiet<'a>, SocketAddr)> {
        let calls = self.calls.get();
        self.calls.set(calls.saturating_add(1));
        if calls >= self.most {
            return Err(io::Error::from_raw_os_error(22));
        }
        match calls % 3 {
            0 => Err(io::Error::from_raw_os_error(24)),
            1 => Err(io::Error::from_raw_os_error(103)),
            _ => Ok((
                Quiet { bound: self.bound },
                SocketAddr::from(([127, 0, 0, 1], 1)),
            )),
        }
    }
}

// Keeps for what the listener ended.
#[derive(Drop)]
struct Heard(Cell<Option<i32>>);

impl<R> Witness<R> for Heard {
    fn report_end(&self, _rt: &R, _at: io::Result<SocketAddr>, error: &io::Error) {
        self.0.set(error.raw_os_error());
    }
}

// What was seen of a listener with three places, of which one is kept back.
#[derive(Debug, PartialEq, Eq, Drop)]
struct Seen {
    // Whether the first bytes were waited for longer than ten seconds, where thirty were asked for, and where no end was.
    waits_long: bool,
    waits_for_ever: bool,
    // The bound that was set, in seconds, once bytes had come.
    then: Option<u64>,
    // Whether there was a place for each of two further handles.
    handles: (bool, bool),
    // And after one of them was closed.
    after: bool,
    // Why it ended, and what was reported to the witness.
    ended: Option<i32>,
    reported: Option<i32>,
}

fn is_long(bound: Option<Duration>) -> bool {
    match bound {
        Some(bound) => bound > Duration::from_secs(10),
        None => true,
    }
}

fn see<K: Ledger, R: Wait + Clock>(rt: &R, blank: Blank) -> io::Result<Seen>
    requires name { blank.name ≡ K.name }
    requires parts { blank.parts ≡ K.parts }
    requires places { blank.parts ≡ 3 }
{
    let bound = Cell::new(None);
    let heard = Heard(Cell::new(None));
    let listener = Scarce {
        bound: &bound,
        calls: Cell::new(0),
        most: 3,
    };
    let places = Places::<K>::new(blank, 3);
    let patient = Patient::new(rt, &listener, &places, 1, &heard);
    let (mut stream, _) = patient.accept()?;
    stream.set_read_timeout(Some(Duration::from_secs(30)))?;
    let waits_long = is_long(bound.get());
    stream.set_read_timeout(None)?;
    let waits_for_ever = is_long(bound.get());
    stream.read(&mut [0])?;
    stream.set_read_timeout(Some(Duration::from_secs(30)))?;
    let then = bound.get().map(|bound| bound.as_secs());
    let one = stream.try_clone();
    let other = stream.try_clone();
    let full = match stream.try_clone() {
        Ok(_) => true,
        Err(error) => error.kind() != ErrorKind::ResourceBusy,
    };
    let handles = (one.is_ok() && other.is_ok(), full);
    drop(one);
    let after = stream.try_clone().is_ok();
    drop(other);
    let ended = patient
        .accept()
        .err()
        .and_then(|error| error.raw_os_error());
    Ok(Seen {
        waits_long,
        waits_for_ever,
        then,
        handles,
        after,
        ended,
        reported: heard.0.get(),
    })
}

#[test]
fn places_and_refusals(rt: HostRuntime) -> Result<(), Fail> {
    let seen = see::<Brand, HostRuntime>(&rt, Blank::new(3))?;
    let wanted = Seen {
        waits_long: false,
        waits_for_ever: false,
        then: Some(30),
        handles: (true, false),
        after: true,
        ended: Some(22),
        reported: Some(22),
    };
    assert_eq!(rt; seen, wanted);
    Ok(())
}

fn free_three<K: Ledger, R: Wait + AllocGlobal>(rt: &R, blank: Blank) -> Result<bool, Fail>
    requires name { blank.name ≡ K.name }
    requires parts { blank.parts ≡ K.parts }
    requires places { blank.parts ≡ 3 }
{
    let places = Places::<K>::new(blank, 3);
    let mut held = Vec::new(rt.alloc());
    for _ in 0..4 {
        if let Some(place) = places.take(rt) {
            held.push(place)?;
        }
    }
    let is_full = held.len() == 3;
    places.free_all(rt, held);
    Ok(is_full && places.take(rt).is_some())
}

#[test]
fn all_are_freed(rt: HostRuntime) -> Result<(), Fail> {
    let freed = free_three::<Brand, HostRuntime>(&rt, Blank::new(3))?;
    assert!(rt; freed);
    Ok(())
}
