//! Sessions over TCP, in threads of one process.

use crate::hold::{Broken, Counts, Hold};
use crate::sides::{client, patience, server, server_without_seats};
use crate::strangers::{Answered, Pace, UNKNOWN, connect_once_there, first_other, leaves};
use std::net::{Ipv4Addr, OpenListener, SocketAddr, TcpListener};
use std::test::Fail;
use std::thread::join;
use std::time::Duration;
use tp_net::AlwaysOpen;

// A port of this machine that is free.
fn here() -> SocketAddr {
    SocketAddr::from((Ipv4Addr::LOCALHOST, 0))
}

// The document `abc` of actor 1 and the document `q` of actor 2 are one text afterwards: the greater of two actors is
// first where both begin.
#[test]
fn both_sides_read_one_text(rt: HostRuntime) -> Result<(), Fail> {
    let listener = TcpListener::bind(&rt, here())?;
    let addr = listener.local_addr()?;
    let gate = Counts::new();
    let (served, synced) = join(
        &rt,
        || server(&rt, &listener, 2, 1, patience(), &gate),
        || client(&rt, addr, 2, "q"),
    );
    let (applied, text) = synced.ok_or("the client")?;
    assert_eq!(rt; served.ok_or("the server")?.as_str(), "qabc");
    assert_eq!(rt; text.as_str(), "qabc");
    assert_eq!(rt; applied, 1);
    assert_eq!(rt; gate.all(), (1, 1, 0));
    Ok(())
}

// The first session is held until the second has ended, so they go on side by side. Whichever client's is the second gets
// the server's change, and the other one gets both that it lacks.
#[test]
fn sessions_go_on_side_by_side(rt: HostRuntime) -> Result<(), Fail> {
    let listener = TcpListener::bind(&rt, here())?;
    let addr = listener.local_addr()?;
    let gate = Hold::new();
    let (served, (two, three)) = join(
        &rt,
        || server(&rt, &listener, 2, 2, patience(), &gate),
        || {
            join(
                &rt,
                || client(&rt, addr, 2, "q"),
                || client(&rt, addr, 3, "r"),
            )
        },
    );
    let (two, three) = (two.ok_or("a client")?, three.ok_or("a client")?);
    let both = ((two.0, two.1.as_str()), (three.0, three.1.as_str()));
    assert!(rt; both == ((1, "qabc"), (2, "rqabc")) || both == ((2, "rqabc"), (1, "rabc")));
    assert_eq!(rt; served.ok_or("the server")?.as_str(), "rqabc");
    assert!(rt; !gate.gave_up());
    Ok(())
}

// Hellos of another version, and about another document.
const HELLOS: [Answered; 2] = [
    (
        b"\x00\x00\x00\x12\x00\x01\x00\x00\x00\x00\x00\x00\x00\x00\x00\x00\x00\x00\x00\x00\x00\x00",
        b"\x00\x00\x00\x02\x03\x02",
    ),
    (
        b"\x00\x00\x00\x12\x00\x02\x07\x00\x00\x00\x00\x00\x00\x00\x00\x00\x00\x00\x00\x00\x00\x00",
        b"\x00\x00\x00\x02\x03\x01",
    ),
];

// Each client's session ends alone: the last client, which keeps to the rules, is served on the same seat.
#[test]
fn strangers_are_refused(rt: HostRuntime) -> Result<(), Fail> {
    let listener = TcpListener::bind(&rt, here())?;
    let addr = listener.local_addr()?;
    let (served, (first, second, last)) = join(
        &rt,
        || server(&rt, &listener, 1, 12, patience(), &AlwaysOpen),
        || {
            let first = first_other(&rt, addr, b"", &UNKNOWN, Pace::AtOnce);
            let second = first_other(&rt, addr, b"", &HELLOS, Pace::AtOnce);
            (first, second, client(&rt, addr, 2, "q"))
        },
    );
    assert_eq!(rt; (first, second), (None, None));
    let (applied, text) = last.ok_or("the last client")?;
    assert_eq!(rt; (applied, text.as_str()), (1, "qabc"));
    assert_eq!(rt; served.ok_or("the server")?.as_str(), "qabc");
    Ok(())
}

// What a client whose document is empty sends first: its hello, and its first message.
const FIRST: &[u8] =
    b"\x00\x00\x00\x12\x00\x02\x00\x00\x00\x00\x00\x00\x00\x00\x00\x00\x00\x00\x00\x00\x00\x00\
    \x00\x00\x00\x12\x01\x02\x00\x00\x00\x00\x00\x00\x00\x00\x00\x00\x00\x00\x00\x00\x00\x00";

// The session of a client that closes its connection after its first message ends alone: another client is served on
// the same seat.
#[test]
fn a_client_leaves(rt: HostRuntime) -> Result<(), Fail> {
    let listener = TcpListener::bind(&rt, here())?;
    let addr = listener.local_addr()?;
    let (served, (was_sent, last)) = join(
        &rt,
        || server(&rt, &listener, 1, 2, patience(), &AlwaysOpen),
        || (leaves(&rt, addr, FIRST), client(&rt, addr, 2, "q")),
    );
    assert!(rt; was_sent);
    let (applied, text) = last.ok_or("the last client")?;
    assert_eq!(rt; (applied, text.as_str()), (1, "qabc"));
    assert_eq!(rt; served.ok_or("the server")?.as_str(), "qabc");
    Ok(())
}

// The session of a client that says nothing ends alone, once the patience is over: the next one is served on the same seat
// meanwhile the silent one is still connected.
#[test]
fn a_silent_client_ends(rt: HostRuntime) -> Result<(), Fail> {
    let listener = TcpListener::bind(&rt, here())?;
    let addr = listener.local_addr()?;
    let gate = Counts::new();
    let short = Some(Duration::from_millis(200));
    let (served, (was_connected, last)) = join(
        &rt,
        || server(&rt, &listener, 1, 2, short, &gate),
        || {
            let silent = connect_once_there(&rt, addr);
            let last = client(&rt, addr, 2, "q");
            (silent.is_some(), last)
        },
    );
    assert!(rt; was_connected);
    let (applied, text) = last.ok_or("the last client")?;
    assert_eq!(rt; (applied, text.as_str()), (1, "qabc"));
    assert_eq!(rt; served.ok_or("the server")?.as_str(), "qabc");
    assert_eq!(rt; gate.all(), (1, 1, 1));
    Ok(())
}

// A listener that fails ends the server, but where nothing is to be accepted.
#[test]
fn a_listener_fails(rt: HostRuntime) {
    assert!(rt; server(&rt, &Broken, 2, 1, patience(), &AlwaysOpen).is_none());
    assert!(rt; server(&rt, &Broken, 2, 0, patience(), &AlwaysOpen).is_some());
    assert_eq!(rt; server_without_seats(&rt, &Broken, 1), Some(0));
}
