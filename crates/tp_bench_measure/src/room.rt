//! A served peer with four seats, and threads on them.

ghost use Rattle.std.specs.Prelude.{◌≡◌};

use crate::load::Load;
use std::alloc::Global;
use std::sync::Wait;
use std::thread::{Threads, join};
use tp_journal::MemJournal;
use tp_peer::Peer;
use tp_served::{Seat, Served};

/// By how many threads calls are made.
#[derive(Clone, Copy)]
pub enum Crowd {
    /// One thread.
    One,
    /// Two threads.
    Two,
    /// Four threads.
    Four,
}

/// A served peer and its four seats.
#[derive(Drop)]
pub struct Room {
    served: Served<MemJournal>,
    first: Seat,
    second: Seat,
    third: Seat,
    fourth: Seat,
    ghost first_is: { first.served ≡ served.served },
    ghost second_is: { second.served ≡ served.served },
    ghost third_is: { third.served ≡ served.served },
    ghost fourth_is: { fourth.served ≡ served.served },
}

// Two threads make a half of the calls each. How many were done.
fn by_two<R: Threads + Wait + Sync>(
    rt: &R,
    served: &Served<MemJournal>,
    one: Seat,
    other: Seat,
    load: Load,
) -> usize
    requires one { one.served ≡ served.now.served }
    requires other { other.served ≡ served.now.served }
{
    let half = load.half();
    let (first, second) = join(
        rt,
        move || -> usize
            requires { one.served ≡ served.now.served }
        { half.on_seat(rt, served, one) },
        move || -> usize
            requires { other.served ≡ served.now.served }
        { half.on_seat(rt, served, other) },
    );
    first.saturating_add(second)
}

impl Room {
    /// The peer, served; `None` where there is no memory for that.
    pub fn open(alloc: Global, peer: Peer<MemJournal>) -> Option<Room> {
        let Ok((served, mut seats)) = Served::open(alloc, peer, 4) else {
            return None;
        };
        let fourth = seats.pop()?;
        let third = seats.pop()?;
        let second = seats.pop()?;
        let first = seats.pop()?;
        Some(Room {
            served,
            first,
            second,
            third,
            fourth,
        })
    }

    /// The threads of the crowd make an equal part of the calls each. How many were done.
    pub fn work<R: Threads + Wait + Sync>(self, rt: &R, crowd: Crowd, load: Load) -> usize {
        let Room {
            served,
            first,
            second,
            third,
            fourth,
        } = self;
        let shared = &served;
        match crowd {
            Crowd::One => load.on_seat(rt, shared, first),
            Crowd::Two => by_two(rt, shared, first, second, load),
            Crowd::Four => {
                let half = load.half();
                let (one, other) = join(
                    rt,
                    move || -> usize
                        requires first { first.served ≡ shared.now.served }
                        requires second { second.served ≡ shared.now.served }
                    { by_two(rt, shared, first, second, half) },
                    move || -> usize
                        requires third { third.served ≡ shared.now.served }
                        requires fourth { fourth.served ≡ shared.now.served }
                    { by_two(rt, shared, third, fourth, half) },
                );
                one.saturating_add(other)
            }
        }
    }
}
