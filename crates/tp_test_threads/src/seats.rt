//! Seats of served peers: two threads that edit by turns; a thread that holds the peer; calls that wait.

ghost use Rattle.std.specs.Prelude.{◌≡◌};

use crate::gate::{Gate, GatedJournal};
use crate::peers::{at_start, peer_on};
use crate::room::{Room, meet_in, peer_of, read_by_each, room_of};
use std::alloc::Global;
use std::sync::{Arc, Wait};
use std::test::Fail;
use std::thread::{Threads, join};
use tp_change::Change;
use tp_journal::{Journal, MemJournal};
use tp_served::{Seat, Served, ServedError};

// A new peer, served with three seats.
fn seat_new<J: Journal>(alloc: Global, journal: J, actor: u8) -> Option<Room<J>> {
    room_of(alloc, peer_on(alloc, journal, actor)?)
}

// Makes an edit of one character at the start for each number from the first on, below the last: its time is the number.
fn write_all<R: Wait>(
    rt: &R,
    served: &Served<MemJournal>,
    seat: Seat,
    text: &str,
    first: u64,
    last: u64,
) -> Seat
    requires { seat.served ≡ served.now.served }
    ensures { result.served ≡ served.now.served }
{
    let mut seat = seat;
    for time in first..last {
        let _made = served.edit(rt, &mut seat, &[at_start(text)], time, text);
    }
    seat
}

// Two threads make edits, each with its own seat and its own character.
fn write_by_two<R: Threads + Wait + Sync>(
    rt: &R,
    room: Room<MemJournal>,
    first: u64,
    last: u64,
) -> Room<MemJournal> {
    let Room {
        served,
        one,
        two,
        third,
    } = room;
    let shared = &served;
    let (one, two) = join(
        rt,
        move || -> Seat
            requires { one.served ≡ shared.now.served }
            ensures { result.served ≡ shared.entry.now.served }
        { write_all(rt, shared, one, "a", first, last) },
        move || -> Seat
            requires { two.served ≡ shared.now.served }
            ensures { result.served ≡ shared.entry.now.served }
        { write_all(rt, shared, two, "b", first, last) },
    );
    Room {
        served,
        one,
        two,
        third,
    }
}

// How many of the edits with this text are in the order of their times, which go from 0 on.
fn in_order(changes: &[Change], text: &str) -> u64 {
    let mut next = 0u64;
    for change in changes {
        if change.message() == text && change.time() == next {
            next = next.wrapping_add(1);
        }
    }
    next
}

// How many characters each of three seats reads, and how many changes of each thread the peer has in order in the end.
fn count_in(alloc: Global, room: Room<MemJournal>) -> Option<([usize; 3], [u64; 2])> {
    let (room, lens) = read_by_each(room);
    let peer = peer_of(alloc, room)?;
    let changes = peer.document().changes();
    Some((lens, [in_order(changes, "a"), in_order(changes, "b")]))
}

// Two threads make 100 edits each: what is counted then.
fn edited_by_two<R: Threads + Wait + Sync>(
    rt: &R,
    alloc: Global,
) -> Option<([usize; 3], [u64; 2])> {
    let room = seat_new(alloc, MemJournal::new(Vec::new(alloc)), 1)?;
    count_in(alloc, write_by_two(rt, room, 0, 100))
}

// Two threads make 100 edits each, and their seats meet half-way: what is counted then.
fn edited_by_two_that_meet<R: Threads + Wait + Sync>(
    rt: &R,
    alloc: Global,
) -> Option<([usize; 3], [u64; 2])> {
    let room = seat_new(alloc, MemJournal::new(Vec::new(alloc)), 1)?;
    let room = write_by_two(rt, room, 0, 50);
    count_in(alloc, write_by_two(rt, meet_in(room), 50, 100))
}

#[test]
fn two_threads_edit_by_turns(rt: HostRuntime) -> Result<(), Fail> {
    let apart = edited_by_two(&rt, rt.alloc()).ok_or("memory")?;
    let met = edited_by_two_that_meet(&rt, rt.alloc()).ok_or("memory")?;
    assert_eq!(rt; apart, ([200, 200, 200], [100, 100]));
    assert_eq!(rt; met, ([200, 200, 200], [100, 100]));
    Ok(())
}

fn is_busy<T: Drop>(answer: Result<T, ServedError>) -> bool {
    match answer {
        Err(ServedError::Busy) => true,
        _ => false,
    }
}

// Whether each of the five forms that don't wait is busy.
fn are_busy<J: Journal>(served: &Served<J>, seat: &mut Seat) -> bool
    requires { seat.old.served ≡ served.now.served }
    ensures { seat.new.served ≡ seat.old.served }
{
    let read = is_busy(served.try_read(seat));
    let edit = is_busy(served.try_edit(seat, &[], 0, ""));
    let receive = is_busy(served.try_receive(seat, &[]));
    let generate = is_busy(served.try_generate(seat));
    let forget = is_busy(served.try_forget(seat));
    read && edit && receive && generate && forget
}

// Makes an edit, at whose append the thread is held.
fn edit_held(served: &Served<GatedJournal>, seat: Seat) -> Seat
    requires { seat.served ≡ served.now.served }
    ensures { result.served ≡ served.now.served }
{
    let mut seat = seat;
    let _made = served.try_edit(&mut seat, &[at_start("x")], 0, "");
    seat
}

// Tries each form while another thread is held, and lets it go on. Whether a thread was held, and each form busy.
fn try_beside(served: &Served<GatedJournal>, seat: Seat, gate: &Gate) -> (Seat, bool)
    requires { seat.served ≡ served.now.served }
    ensures { result.0.served ≡ served.now.served }
{
    let mut seat = seat;
    let is_held = gate.holds_one();
    let are_busy = are_busy(served, &mut seat);
    gate.open();
    (seat, is_held && are_busy)
}

// One thread is held within an edit, and another one tries each form: whether each was busy.
fn hold<R: Threads + Sync>(
    rt: &R,
    room: Room<GatedJournal>,
    gate: &Gate,
) -> (Room<GatedJournal>, bool) {
    let Room {
        served,
        one,
        two,
        third,
    } = room;
    let shared = &served;
    let (one, (two, are_busy)) = join(
        rt,
        move || -> Seat
            requires { one.served ≡ shared.now.served }
            ensures { result.served ≡ shared.entry.now.served }
        { edit_held(shared, one) },
        move || -> (Seat, bool)
            requires { two.served ≡ shared.now.served }
            ensures { result.0.served ≡ shared.entry.now.served }
        { try_beside(shared, two, gate) },
    );
    let room = Room {
        served,
        one,
        two,
        third,
    };
    (room, are_busy)
}

// Whether each form is busy while another thread is within an edit, and how many characters each seat reads afterwards.
fn tried_while_held<R: Threads + Sync>(rt: &R, alloc: Global) -> Option<(bool, [usize; 3])> {
    let gate = Arc::new(alloc, Gate::new()).ok()?;
    let journal = GatedJournal {
        memory: MemJournal::new(Vec::new(alloc)),
        gate: Arc::try_clone(&gate).ok()?,
    };
    let room = seat_new(alloc, journal, 1)?;
    gate.close();
    let (room, are_busy) = hold(rt, room, &gate);
    let (_room, lens) = read_by_each(room);
    Some((are_busy, lens))
}

#[test]
fn each_form_is_busy_while_the_peer_is_held(rt: HostRuntime) -> Result<(), Fail> {
    let (are_busy, lens) = tried_while_held(&rt, rt.alloc()).ok_or("memory")?;
    assert!(rt; are_busy);
    assert_eq!(rt; lens, [1, 1, 1]);
    Ok(())
}

// Passes the next message from one served peer to another one. Whether there was one, and it was received.
fn pass<R: Wait>(
    rt: &R,
    from: &Served<MemJournal>,
    seat: &mut Seat,
    to: &Served<MemJournal>,
    other: &mut Seat,
) -> bool
    requires from { seat.old.served ≡ from.now.served }
    requires to { other.old.served ≡ to.now.served }
    ensures from { seat.new.served ≡ seat.old.served }
    ensures to { other.new.served ≡ other.old.served }
{
    match from.generate(rt, seat) {
        Ok(Some(sent)) => to.receive(rt, other, sent.bytes.as_slice()).is_ok(),
        _ => false,
    }
}

// Three messages pass between two served peers, and one then forgets the link: the texts of both.
fn exchange_three<R: Wait>(
    rt: &R,
    left: Room<MemJournal>,
    right: Room<MemJournal>,
) -> Option<(String, String)> {
    let Room {
        served: left,
        one,
        two: _,
        third: _,
    } = left;
    let Room {
        served: right,
        one: other,
        two: _,
        third: _,
    } = right;
    let mut one = write_all(rt, &left, one, "abc", 0, 1);
    let mut other = write_all(rt, &right, other, "q", 0, 1);
    let first = pass(rt, &left, &mut one, &right, &mut other);
    let second = pass(rt, &right, &mut other, &left, &mut one);
    let last = pass(rt, &left, &mut one, &right, &mut other);
    let forgot = left.forget(rt, &mut one).is_ok();
    if !(first && second && last && forgot) {
        return None;
    }
    let text = left.read(rt, &mut one).ok()?;
    Some((text, right.read(rt, &mut other).ok()?))
}

#[test]
fn calls_that_wait(rt: HostRuntime) -> Result<(), Fail> {
    let left = seat_new(rt.alloc(), MemJournal::new(Vec::new(rt.alloc())), 1).ok_or("memory")?;
    let right = seat_new(rt.alloc(), MemJournal::new(Vec::new(rt.alloc())), 2).ok_or("memory")?;
    let (left, right) = exchange_three(&rt, left, right).ok_or("no exchange")?;
    assert_eq!(rt; left.as_str(), "qabc");
    assert_eq!(rt; right.as_str(), "qabc");
    Ok(())
}
