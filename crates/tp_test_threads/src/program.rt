//! A server and its clients as runs of the program, in threads of one process.

use crate::disk::{Disk as Device, OverDisk};
use crate::runs::{
    Place, Ran, all_read, begin, copy_all, ends, follow, insert, run_over, serve, sync,
    sync_beside_silence, sync_once,
};
use crate::strangers::{Answered, Pace, UNKNOWN, first_other};
use std::fs;
use std::net::{Net, SocketAddr};
use std::rt::Files;
use std::sync::Wait;
use std::test::Fail;
use std::thread::{Threads, join};
use std::time::Clock;
use tp_disk::Disk;

// Ann serves her journal to two clients, one after the other: Ben brings a change, and Cat gets it. Meanwhile another edit of
// hers finds the journal taken. Then all three read one text.
#[test]
fn a_server_and_two_clients(rt: HostRuntime) -> Result<(), Fail> {
    assert!(rt; begin(&rt, "ann", "Hello world", &["ben", "cat"]));
    assert!(rt; insert(&rt, "ben", "5", ",").status == 0);
    let place = Place::free(&rt)?;
    let (served, (ben, ann, cat)) = join(
        &rt,
        || serve(&rt, "ann", place.as_str(), "2"),
        || {
            let ben = sync(&rt, "ben", place.as_str());
            let ann = insert(&rt, "ann", "0", "no");
            (ben, ann, sync_once(&rt, "cat", place.as_str()))
        },
    );
    assert!(rt; ben.has_printed("applied 0\n"));
    assert!(rt; ann.was_refused("", "textpeer: Busy\n"));
    assert!(rt; cat.has_printed("applied 1\n"));
    assert!(rt; served.has_printed(place.output_with(rt.alloc(), "served 2\n")?.as_str()));
    assert!(rt; all_read(&rt, &["ann", "ben", "cat"], "Hello, world\n"));
    Ok(())
}

// The hello of a side that has Dora's document.
const HELLO: &[u8] =
    b"\x00\x00\x00\x12\x00\x02\xad\xe0\xb8\x76\x90\x3d\xf1\xa0\xe5\x6a\x5d\x40\x28\xbd\x86\x53";

// Hellos of another version, and about another document.
const HELLOS: [Answered; 2] = [
    (
        b"\x00\x00\x00\x12\x00\x01\xad\xe0\xb8\x76\x90\x3d\xf1\xa0\xe5\x6a\x5d\x40\x28\xbd\x86\x53",
        b"\x00\x00\x00\x02\x03\x02",
    ),
    (
        b"\x00\x00\x00\x12\x00\x02\xad\xe0\xb8\x76\x90\x3d\xf1\xa0\xe5\x6a\x5d\x40\x28\xbd\x86\x54",
        b"\x00\x00\x00\x02\x03\x01",
    ),
];

// What clients send after Dora's hello. The second and the third leave within a frame, the third within one of sixteen
// megabytes. An answer is due at the last byte, not before.
const BEHIND: [Answered; 6] = [
    (b"", b""),
    (b"\x01\x00\x00", b""),
    (b"\x01\x00\x00\x00\x01\x02\x00\x00", b""),
    (HELLO, b"\x00\x00\x00\x02\x03\x03"),
    (b"\x00\x00\x00\x02\x01\xff", b"\x00\x00\x00\x02\x03\x03"),
    (b"\x00\x00\x00\x01\x02", b"\x00\x00\x00\x01\x02"),
];

// One says done twice, at once: it is answered by the one done that ends its session.
const TWICE: [Answered; 1] = [(
    b"\x00\x00\x00\x01\x02\x00\x00\x00\x01\x02",
    b"\x00\x00\x00\x01\x02",
)];

// The clients that keep to no rule, one after another: what the first one sent that was answered otherwise.
fn first_unruly<R: Net + Clock + AllocGlobal>(rt: &R, addr: SocketAddr) -> Option<&'static [u8]> {
    let unknown = first_other(rt, addr, b"", &UNKNOWN, Pace::ByteByByte);
    let hellos = first_other(rt, addr, b"", &HELLOS, Pace::ByteByByte);
    let beyond = first_other(rt, addr, HELLO, &BEHIND, Pace::ByteByByte);
    let twice = first_other(rt, addr, HELLO, &TWICE, Pace::AtOnce);
    unknown.or(hellos).or(beyond).or(twice)
}

// The session of each ends alone: Eve, who keeps to the rules, is served after them all, and the texts are what they
// were.
#[test]
fn clients_that_keep_to_no_rule(rt: HostRuntime) -> Result<(), Fail> {
    assert!(rt; begin(&rt, "dora", "dora", &["eve"]));
    let place = Place::free(&rt)?;
    let (served, (other, eve)) = join(
        &rt,
        || serve(&rt, "dora", place.as_str(), "19"),
        || {
            let other = first_unruly(&rt, place.addr);
            (other, sync_once(&rt, "eve", place.as_str()))
        },
    );
    assert_eq!(rt; other, None);
    assert!(rt; eve.has_printed("applied 0\n"));
    assert!(rt; served.has_printed(place.output_with(rt.alloc(), "served 19\n")?.as_str()));
    assert!(rt; all_read(&rt, &["dora", "eve"], "dora\n"));
    Ok(())
}

// A client that says nothing holds one of the two workers until the session of another one has gone on beside it to its
// end. Were there one worker alone, the silent one would lose its patience first.
#[test]
fn a_silent_client_holds_one_worker(rt: HostRuntime) -> Result<(), Fail> {
    assert!(rt; begin(&rt, "fay", "", &["gus"]));
    assert!(rt; insert(&rt, "gus", "0", "gus").status == 0);
    let place = Place::free(&rt)?;
    let (served, beside) = join(
        &rt,
        || serve(&rt, "fay", place.as_str(), "2"),
        || sync_beside_silence(&rt, "gus", &place),
    );
    let (was_silent, gus) = beside.ok_or("a connection")?;
    assert!(rt; was_silent);
    assert!(rt; gus.has_printed("applied 0\n"));
    assert!(rt; served.has_printed(place.output_with(rt.alloc(), "served 2\n")?.as_str()));
    assert!(rt; all_read(&rt, &["fay", "gus"], "gus\n"));
    Ok(())
}

// Ned serves his journal to three sessions, and Oda follows him in the last two: her changes enter there, and none here.
#[test]
fn a_client_that_follows(rt: HostRuntime) -> Result<(), Fail> {
    assert!(rt; begin(&rt, "ned", "Hello", &["oda"]));
    assert!(rt; insert(&rt, "oda", "5", "!").status == 0);
    let place = Place::free(&rt)?;
    let (served, (first, then)) = join(
        &rt,
        || serve(&rt, "ned", place.as_str(), "3"),
        || {
            let first = sync(&rt, "oda", place.as_str());
            let edited = insert(&rt, "oda", "0", "> ").status == 0;
            (
                first,
                edited.then(|| follow(&rt, "oda", place.as_str(), "2")),
            )
        },
    );
    assert!(rt; first.has_printed("applied 0\n"));
    assert!(rt; then.ok_or("an edit")?.has_printed(""));
    assert!(rt; served.has_printed(place.output_with(rt.alloc(), "served 3\n")?.as_str()));
    assert!(rt; all_read(&rt, &["ned", "oda"], "> Hello!\n"));
    Ok(())
}

// Lou and Max, each with a change, hold one session over their standard streams.
#[test]
fn a_session_over_the_standard_streams(rt: HostRuntime) -> Result<(), Fail> {
    assert!(rt; begin(&rt, "lou", "Hello world", &["max"]));
    assert!(rt; insert(&rt, "max", "5", ",").status == 0);
    assert!(rt; insert(&rt, "max", "12", "!").status == 0);
    assert!(rt; insert(&rt, "lou", "0", "> ").status == 0);
    let (near, far) = ends(&rt)?;
    let (lou, max) = join(
        &rt,
        || run_over(&rt, &["textpeer", "session", "lou"], far),
        || run_over(&rt, &["textpeer", "session", "max", "--client"], near),
    );
    assert!(rt; lou.ok_or("a connection")?.has_said("applied 2\n"));
    assert!(rt; max.ok_or("a connection")?.has_said("applied 1\n"));
    assert!(rt; all_read(&rt, &["lou", "max"], "> Hello, world!\n"));
    Ok(())
}

// What each run answered.
#[derive(Drop)]
struct Letters {
    hal: Ran,
    ida: Ran,
    joe: Ran,
}

impl Letters {
    // Whether Ida's change was taken, and no other one, by a server that began with this line.
    fn is_of_ida_alone(&self, listening: &str) -> bool {
        self.ida.has_printed("applied 0\n")
            && self.joe.was_refused("", "textpeer: RefusedByOther\n")
            && self.hal.was_refused(listening, "textpeer: JournalFailed\n")
    }
}

// Ida's session with the server, once it listens, and then Joe's.
fn sync_both<R: Disk + Net + Threads + Wait + Clock + Eprint + AllocGlobal + Sync>(
    rt: &R,
    place: &Place,
) -> (Ran, Ran)
where
    R::File: Send,
    R::New: Send,
    R::Listener: Sync,
    R::Stream: Send,
{
    let ida = sync(rt, "ida", place.as_str());
    let joe = sync_once(rt, "joe", place.as_str());
    (ida, joe)
}

// Removes the files, where they are there.
fn remove_all<R: Files>(rt: &R, files: &[&str]) {
    for file in files {
        let _ = fs::remove_file(rt, *file);
    }
}

// Hal's disk fails while he serves his journal: it takes Ida's change, and of Joe's nothing, a part, or all, but doesn't
// bring that to its ground. Joe's session is refused, and as it is the last, the serving ends with the error. Hal's
// journal has what was answered to Ida; once Hal has a disk again, Joe's change enters, if it didn't.
#[test]
fn a_journal_fails_while_it_is_served(rt: HostRuntime) -> Result<(), Fail> {
    let rows = [
        (Device::new(1, 0, 9), "ida hal\n"),
        (Device::new(1, 40, 9), "ida hal\n"),
        (Device::new(9, 0, 2), "ida hal joe\n"),
    ];
    assert!(rt; begin(&rt, "first", "hal", &[]));
    let copies = ["hal", "ida", "joe"];
    for (disk, text) in rows {
        remove_all(&rt, &copies);
        assert!(rt; copy_all(&rt, "first", &copies));
        assert!(rt; insert(&rt, "ida", "0", "ida ").status == 0);
        assert!(rt; insert(&rt, "joe", "3", " joe").status == 0);
        let place = Place::free(&rt)?;
        let (hal, (ida, joe)) = join(
            &rt,
            || {
                let over = OverDisk {
                    rt: &rt,
                    disk: &disk,
                };
                serve(&over, "hal", place.as_str(), "2")
            },
            || sync_both(&rt, &place),
        );
        let reported = Letters { hal, ida, joe };
        assert!(rt; reported.is_of_ida_alone(place.output_with(rt.alloc(), "")?.as_str()));
        assert!(rt; all_read(&rt, &["hal"], text));
        assert!(rt; all_read(&rt, &["joe"], "ida hal joe\n"));
        let again = Place::free(&rt)?;
        let (served, joe) = join(
            &rt,
            || serve(&rt, "hal", again.as_str(), "1"),
            || sync(&rt, "joe", again.as_str()),
        );
        assert!(rt; served.status == 0 && joe.has_printed("applied 0\n"));
        assert!(rt; all_read(&rt, &["hal"], "ida hal joe\n"));
    }
    Ok(())
}
