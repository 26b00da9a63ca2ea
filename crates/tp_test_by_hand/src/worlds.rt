//! Worlds: schedules of every event, with their replies and the one list in the end.

use std::alloc::{AllocError, Global};
use std::test::Fail;
use tp_edit::Splice;
use tp_opid::{Actor, DocId};
use tp_world::{Answer, Call, Event, Link, PeerCall, PeerReply, Reply, World};

const ANN: Actor = Actor([1; 16]);

const BEN: Actor = Actor([2; 16]);

// A message that carries nothing.
const QUIET: [u8; 13] = [1, 0, 0, 0, 0, 0, 0, 0, 0, 0, 0, 0, 0];

// A part of it.
const CUT: [u8; 12] = [1, 0, 0, 0, 0, 0, 0, 0, 0, 0, 0, 0];

// A message with the one change by which the actor 00..01 inserts `abc` into an empty text.
const FOREIGN: [u8; 75] = [
    1, 0, 0, 0, 0, 0, 0, 0, 0, 0, 0, 0, 1, 0, 0, 0, 58, 1, 0, 0, 0, 0, 0, 0, 0, 0, 0, 0, 0, 0, 0,
    0, 0, 1, 0, 0, 0, 0, 0, 0, 0, 1, 0, 0, 0, 0, 0, 0, 0, 1, 0, 0, 0, 0, 0, 0, 0, 0, 0, 0, 0, 0, 0,
    0, 0, 1, 1, 0, 0, 0, 0, 3, 97, 98, 99,
];

// What was replied, as one line.
fn line_of_reply(alloc: Global, reply: &Reply) -> Result<String, AllocError> {
    match reply {
        Reply::Peer(n) => format!(in alloc; "peer {n}"),
        Reply::Wire(n) => format!(in alloc; "wire {n}"),
        Reply::Reopened => String::from_str(alloc, "reopened"),
        Reply::Armed => String::from_str(alloc, "armed"),
        Reply::Answered(Answer::Merged(applied)) => {
            format!(in alloc; "applied {}", applied.applied.len())
        }
        Reply::Answered(Answer::Alone(reply)) => reported_own(alloc, reply),
        Reply::Refused(why) => format!(in alloc; "refused {why}"),
    }
}

// What a peer answered, as one line.
fn reported_own(alloc: Global, reply: &PeerReply) -> Result<String, AllocError> {
    match reply {
        PeerReply::Made(Some(_)) => String::from_str(alloc, "made"),
        PeerReply::Made(None) => String::from_str(alloc, "nothing"),
        PeerReply::Received(received) => {
            format!(in alloc; "delivered {}", received.applied.applied.len())
        }
        PeerReply::Generated(_) => String::from_str(alloc, "quiet"),
        PeerReply::Forgotten => String::from_str(alloc, "forgotten"),
        PeerReply::Text(text) => format!(in alloc; "text {text}"),
        PeerReply::Refused(error) => format!(in alloc; "refused {error}"),
    }
}

// The characters of the one list.
fn listed_text(alloc: Global, world: &World) -> Result<String, Fail> {
    let mut text = String::new(alloc);
    for (_, ch) in &world.order()? {
        text.push(*ch)?;
    }
    Ok(text)
}

// Whether the last message that was sent is one of the peer, and has bytes.
fn ends_with_a_message_of(world: &World, peer: usize) -> bool {
    match world.wire().last() {
        Some(entry) => entry.sender() == peer && !entry.bytes().is_empty(),
        None => false,
    }
}

// The replies to the events, one after another or in one run.
fn replies_to(
    alloc: Global,
    world: &mut World,
    rows: &[(Event, &str)],
    in_one_run: bool,
) -> Result<Vec<Reply>, Fail> {
    let mut events = Vec::new(alloc);
    for (event, _) in rows {
        events.push(*event)?;
    }
    if in_one_run {
        return Ok(world.run(events)?);
    }
    let mut replies = Vec::new(alloc);
    for event in &events {
        replies.push(world.step(*event))?;
    }
    Ok(replies)
}

// The first reply that isn't the one beside its event, or nothing where there is none.
fn first_other(
    alloc: Global,
    replies: &[Reply],
    rows: &[(Event, &str)],
) -> Result<String, AllocError> {
    for (reply, (_, answer)) in replies.iter().zip(rows) {
        let reply = line_of_reply(alloc, reply)?;
        if reply.as_str() != *answer {
            return Ok(reply);
        }
    }
    Ok(String::new(alloc))
}

const ONE_TWO: [Splice<'static>; 1] = [Splice {
    at: 0,
    del: 0,
    text: "12",
}];

const THREE_FOUR: [Splice<'static>; 1] = [Splice {
    at: 0,
    del: 0,
    text: "34",
}];

// Past the end.
const FAR: [Splice<'static>; 1] = [Splice {
    at: 9,
    del: 0,
    text: "x",
}];

const NONE: [Splice<'static>; 1] = [Splice {
    at: 0,
    del: 0,
    text: "",
}];

const MORE: [Splice<'static>; 1] = [Splice {
    at: 2,
    del: 0,
    text: "x",
}];

const EDIT_ONE_TWO: Call<'static> = Call::Alone(PeerCall::Edit {
    splices: &ONE_TWO,
    time: 0,
    message: "",
});

const EDIT_THREE_FOUR: Call<'static> = Call::Alone(PeerCall::Edit {
    splices: &THREE_FOUR,
    time: 0,
    message: "",
});

const EDIT_FAR: Call<'static> = Call::Alone(PeerCall::Edit {
    splices: &FAR,
    time: 0,
    message: "",
});

const EDIT_NONE: Call<'static> = Call::Alone(PeerCall::Edit {
    splices: &NONE,
    time: 0,
    message: "",
});

const EDIT_MORE: Call<'static> = Call::Alone(PeerCall::Edit {
    splices: &MORE,
    time: 0,
    message: "",
});

const SEND_TO_ANN: Call<'static> = Call::Alone(PeerCall::Generate { link: Link(0) });

const SEND_TO_BEN: Call<'static> = Call::Alone(PeerCall::Generate { link: Link(1) });

const SEND_TO_NOBODY: Call<'static> = Call::Alone(PeerCall::Generate { link: Link(7) });

const READ: Call<'static> = Call::Alone(PeerCall::Read);

const READ_AT_NONE: Call<'static> = Call::Alone(PeerCall::ReadAt { hashes: &[] });

const RECEIVE_QUIET: Call<'static> = Call::Alone(PeerCall::Receive {
    link: Link(1),
    bytes: &QUIET,
});

const RECEIVE_CUT: Call<'static> = Call::Alone(PeerCall::Receive {
    link: Link(1),
    bytes: &CUT,
});

const RECEIVE_FOREIGN: Call<'static> = Call::Alone(PeerCall::Receive {
    link: Link(1),
    bytes: &FOREIGN,
});

const FORGET_BEN: Call<'static> = Call::Alone(PeerCall::Forget { link: Link(1) });

// A peer makes a call.
macro_rules! call {
    ($peer:expr, $call:expr) => {
        Event::Call {
            peer: $peer,
            call: $call,
        }
    };
}

// Events with their replies, and what the world then has.
struct Schedule {
    rows: &'static [(Event<'static>, &'static str)],
    // The characters of the one list.
    list: &'static str,
    // How many messages were sent, and by whom the last one.
    messages: usize,
    sender: usize,
    reads: usize,
}

const EDITS: [(Event<'static>, &str); 25] = [
    (Event::Start { actor: ANN }, "peer 0"),
    (Event::Start { actor: BEN }, "peer 1"),
    (call!(0, EDIT_ONE_TWO), "made"),
    (call!(1, EDIT_THREE_FOUR), "made"),
    (call!(0, Call::Merge { from: 1 }), "applied 1"),
    (call!(0, READ), "text 3412"),
    (call!(0, SEND_TO_BEN), "wire 0"),
    (call!(1, SEND_TO_ANN), "wire 1"),
    (call!(0, SEND_TO_NOBODY), "refused NoPeer"),
    (call!(0, Call::Merge { from: 0 }), "applied 0"),
    (Event::Start { actor: ANN }, "refused ActorUsed"),
    (call!(7, READ), "refused NoPeer"),
    (call!(0, EDIT_FAR), "refused OutOfRange"),
    (call!(0, EDIT_NONE), "nothing"),
    (
        Event::Crash {
            peer: 1,
            during: None,
            kept: 0,
            actor: Actor([3; 16]),
        },
        "reopened",
    ),
    (call!(1, READ), "text 34"),
    (
        Event::Crash {
            peer: 1,
            during: Some(EDIT_MORE),
            kept: 10,
            actor: Actor([4; 16]),
        },
        "reopened",
    ),
    (call!(1, READ), "text 34"),
    (
        Event::Crash {
            peer: 1,
            during: Some(EDIT_MORE),
            kept: 1000,
            actor: Actor([5; 16]),
        },
        "reopened",
    ),
    (call!(1, READ), "text 34x"),
    (
        Event::Fork {
            of: 1,
            actor: Actor([6; 16]),
        },
        "peer 2",
    ),
    (call!(2, READ), "text 34x"),
    (
        Event::Crash {
            peer: 0,
            during: Some(Call::Merge { from: 1 }),
            kept: 1000,
            actor: Actor([7; 16]),
        },
        "reopened",
    ),
    (call!(0, READ), "text 34x12"),
    (call!(0, READ_AT_NONE), "text "),
];

const DELIVERIES: [(Event<'static>, &str); 27] = [
    (Event::Start { actor: ANN }, "peer 0"),
    (Event::Start { actor: BEN }, "peer 1"),
    (call!(0, EDIT_ONE_TWO), "made"),
    (call!(1, EDIT_THREE_FOUR), "made"),
    (call!(0, SEND_TO_BEN), "wire 0"),
    (call!(1, Call::Deliver { entry: 0 }), "delivered 0"),
    (call!(1, SEND_TO_ANN), "wire 1"),
    (call!(0, Call::Deliver { entry: 1 }), "delivered 1"),
    (call!(0, READ), "text 3412"),
    (call!(0, SEND_TO_BEN), "wire 2"),
    (
        Event::Crash {
            peer: 1,
            during: Some(Call::Deliver { entry: 2 }),
            kept: 10,
            actor: Actor([3; 16]),
        },
        "reopened",
    ),
    (call!(1, READ), "text 34"),
    (
        Event::Crash {
            peer: 1,
            during: Some(Call::Deliver { entry: 2 }),
            kept: 1000,
            actor: Actor([4; 16]),
        },
        "reopened",
    ),
    (call!(1, READ), "text 3412"),
    (call!(1, Call::Deliver { entry: 2 }), "delivered 0"),
    (
        Event::Start {
            actor: Actor([5; 16]),
        },
        "peer 2",
    ),
    (call!(2, Call::Deliver { entry: 2 }), "delivered 1"),
    (call!(2, READ), "text 12"),
    (call!(2, Call::Deliver { entry: 1 }), "delivered 1"),
    (call!(2, READ), "text 3412"),
    (call!(0, Call::Deliver { entry: 3 }), "refused NoEntry"),
    (call!(3, Call::Deliver { entry: 0 }), "refused NoPeer"),
    (
        Event::Crash {
            peer: 0,
            during: Some(Call::Deliver { entry: 3 }),
            kept: 0,
            actor: Actor([6; 16]),
        },
        "refused NoEntry",
    ),
    (call!(0, RECEIVE_QUIET), "delivered 0"),
    (call!(0, RECEIVE_CUT), "refused BadMessage"),
    (call!(0, RECEIVE_FOREIGN), "refused ForeignChange"),
    (call!(0, FORGET_BEN), "forgotten"),
];

const SCHEDULES: [Schedule; 2] = [
    Schedule {
        rows: &EDITS,
        list: "34x12",
        messages: 2,
        sender: 1,
        reads: 7,
    },
    Schedule {
        rows: &DELIVERIES,
        list: "3412",
        messages: 3,
        sender: 0,
        reads: 5,
    },
];

#[test]
fn schedules(rt: HostRuntime) -> Result<(), Fail> {
    for schedule in SCHEDULES.iter() {
        for in_one_run in [false, true] {
            let mut world = World::new(rt.alloc(), DocId([0; 16]));
            let replies = replies_to(rt.alloc(), &mut world, schedule.rows, in_one_run)?;
            let other = first_other(rt.alloc(), &replies, schedule.rows)?;
            let list = listed_text(rt.alloc(), &world)?;
            assert_eq!(rt; (replies.len(), other.as_str()), (schedule.rows.len(), ""));
            assert_eq!(rt; list.as_str(), schedule.list);
            assert_eq!(rt;
                (world.wire().len(), world.reads().len()),
                (schedule.messages, schedule.reads)
            );
            assert!(rt; ends_with_a_message_of(&world, schedule.sender));
        }
    }
    Ok(())
}
