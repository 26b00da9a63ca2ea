//! A window, from its request to its end.

ghost use Rattle.std.specs.Prelude.{◌≡◌};
ghost use Rattle.tp_web.specs.Visiting.{Attends};
ghost use Rattle.tp_window.specs.Windows.{MayEdit};

use crate::greeting::{Welcome, greet};
use crate::head::accept;
use crate::living::{QUIET, next_message};
use crate::responding::send_nothing;
use crate::timed::Timed;
use std::alloc::{AllocError, Global};
use std::io::{Read, Write};
use std::net::OpenStream;
use std::sync::Wait;
use std::time::{Clock, SystemTime};
use tp_journal::Journal;
use tp_peer::Peer;
use tp_served::{Seat, Served, Visitor};
use tp_window::{Said, Window};
use tungstenite::{Message, NoMask, Role, WebSocket, WebSocketConfig};

// An answer may take this many seconds to be taken.
const PATIENCE: u64 = 120;

// A request of a window has at most this many bytes.
const MOST_REQUEST: usize = 1 << 20;

// Now, in seconds after 1970 began; 0 where the clock doesn't say.
fn now<R: Clock>(rt: &R) -> u64 {
    match SystemTime::now(rt) {
        Ok(now) => match now.duration_since(SystemTime::UNIX_EPOCH) {
            Ok(since) => since.as_secs(),
            Err(_) => 0,
        },
        Err(_) => 0,
    }
}

// A request that came in a window, at a time.
#[derive(Drop)]
struct Asked<'a> {
    alloc: Global,
    window: &'a Window,
    time: u64,
    request: &'a str,
}

/// A window that is asked for, the bytes that begin with its request, and what its page has to know.
#[derive(Drop)]
pub(crate) struct Candidate {
    /// The window, should its page be admitted.
    pub window: Window,
    /// The request.
    pub request: Vec<u8>,
    /// The page's key.
    pub key: [u8; 16],
    /// The program's challenge.
    pub challenge: [u8; 16],
}

// A window whose page has shown that it knows the key.
#[derive(Drop)]
struct Admitted {
    window: Window,
    welcome: Welcome,
}

impl<J: Journal> Visitor<J> for Asked<'_> {
    ghost use Rattle.std.proofs.Common.{refl};
    ghost use Rattle.tp_window.proofs.KeepLaws.{edits_keep};

    type Answer = Result<Said, AllocError>;

    ghost does = { λ asked p p'. MayEdit asked.window.now.actor p p' };

    fn visit(&self, peer: &mut Peer<J>) -> Result<Said, AllocError> {
        self.window
            .answer(self.alloc, peer, self.time, self.request)
    }

    ghost serves = { λ asked p p' done n. let k = edits_keep asked.window.now.actor p p' done in record { id = k.1.id; actor = k.1.actor; new = k.1.new; applied = k.1.applied; links = λ m other. k.1.others m refl } };
}

// Asks whether the peer still runs, for a window.
#[derive(Drop)]
struct Pulse<'a> {
    window: &'a Window,
}

impl<J: Journal> Visitor<J> for Pulse<'_> {
    ghost use Rattle.std.proofs.Common.{refl};
    ghost use Rattle.tp_window.proofs.KeepLaws.{edits_keep};

    type Answer = bool;

    ghost does = { λ pulse p p'. MayEdit pulse.window.now.actor p p' };

    fn visit(&self, peer: &mut Peer<J>) -> bool {
        !peer.is_stopped()
    }

    ghost serves = { λ pulse p p' done n. let k = edits_keep pulse.window.now.actor p p' done in record { id = k.1.id; actor = k.1.actor; new = k.1.new; applied = k.1.applied; links = λ m other. k.1.others m refl } };
}

// Whether the peer still runs, which is asked on a turn of the seat.
fn runs<R: Wait, J: Journal>(rt: &R, window: &Window, served: &Served<J>, seat: &mut Seat) -> bool
    requires { seat.old.served ≡ served.now.served }
    ensures { Attends seat.old seat.new }
{
    served.visit(rt, seat, &Pulse { window })
}

// Answers one request on a turn of the seat. `None` where there is no memory for an answer.
fn answer<R: Wait + Clock, J: Journal>(
    rt: &R,
    alloc: Global,
    window: &Window,
    request: &str,
    served: &Served<J>,
    seat: &mut Seat,
) -> Option<Said>
    requires { seat.old.served ≡ served.now.served }
    ensures { Attends seat.old seat.new }
{
    let asked = Asked {
        alloc,
        window,
        time: now(rt),
        request,
    };
    match served.visit(rt, seat, &asked) {
        Ok(said) => Some(said),
        Err(_) => None,
    }
}

// Sends what is said, and says whether the window goes on. Its heads are kept before: a page may name them by their number. A
// refusal is written on the standard error too, but for those of a peer that has stopped, which said so when it did.
fn send<R: Eprint, S: Read + Write + Drop>(
    rt: &R,
    alloc: Global,
    socket: &mut WebSocket<S, NoMask>,
    window: &mut Window,
    said: Said,
) -> bool {
    let Said {
        text,
        heads,
        refusal,
    } = said;
    if let Some(heads) = heads {
        if window.remember(heads).is_err() {
            return false;
        }
    }
    let Ok(message) = Message::text(alloc, &text) else {
        return false;
    };
    if socket.send(message).is_err() {
        return false;
    }
    match refusal {
        Some(refusal) => {
            if !refusal.is_stopped() {
                let _ = eprintln!(rt; "window {refusal}");
            }
            let _ = socket.close(None);
            false
        }
        None => true,
    }
}

// Reads one message, and answers it if it is a request. Whether the window goes on: not once the peer has stopped.
#[tactic(auto, using(crate::proofs::Attending::stays))]
fn answer_next<R: Wait + Clock + Eprint, S: Read + Write + OpenStream + Drop, J: Journal>(
    rt: &R,
    alloc: Global,
    socket: &mut WebSocket<Timed<'_, S, R>, NoMask>,
    window: &mut Window,
    served: &Served<J>,
    seat: &mut Seat,
) -> bool
    requires { seat.old.served ≡ served.now.served }
    ensures { Attends seat.old seat.new }
{
    let Some(message) = next_message(socket) else {
        return false;
    };
    let Message::Text(request) = &message else {
        return runs(rt, window, served, seat);
    };
    match answer(rt, alloc, window, request.as_str(), served, seat) {
        Some(said) => send(rt, alloc, socket, window, said),
        None => false,
    }
}

// The requests of a window whose page was admitted, one after another, until it ends.
#[tactic(auto, using(crate::proofs::Attending::stays, crate::proofs::Attending::joins))]
fn show<R: Wait + Clock + Eprint, S: Read + Write + OpenStream + Drop, J: Journal>(
    rt: &R,
    alloc: Global,
    socket: WebSocket<Timed<'_, S, R>, NoMask>,
    admitted: Admitted,
    served: &Served<J>,
    seat: &mut Seat,
)
    requires { seat.old.served ≡ served.now.served }
    ensures { Attends seat.old seat.new }
{
    let mut socket = socket;
    let Admitted {
        mut window,
        welcome: _,
    } = admitted;
    for _ in rt.forever() {
        if !answer_next(rt, alloc, &mut socket, &mut window, served, seat) {
            break;
        }
    }
}

// What a window's socket takes: texts of `MOST_REQUEST` bytes at most.
fn config() -> WebSocketConfig {
    WebSocketConfig::default()
        .max_message_size(Some(MOST_REQUEST))
        .max_frame_size(Some(MOST_REQUEST))
}

/// Makes a window of the connection, where its request asks for a WebSocket and its page shows that it knows the key, and answers
/// its requests until it ends. However it ends, it ends alone.
#[tactic(auto, using(crate::proofs::Attending::stays))]
pub(crate) fn begin<R: Wait + Clock + Eprint, S: Read + Write + OpenStream + Drop, J: Journal>(
    rt: &R,
    alloc: Global,
    stream: Timed<'_, S, R>,
    candidate: Candidate,
    served: &Served<J>,
    seat: &mut Seat,
)
    requires { seat.old.served ≡ served.now.served }
    ensures { Attends seat.old seat.new }
{
    let mut stream = stream;
    let Candidate {
        window,
        request,
        key,
        challenge,
    } = candidate;
    let Some(accepted) = accept(alloc, &request) else {
        let _ = send_nothing(alloc, &mut stream);
        return;
    };
    stream.limit_writes(PATIENCE);
    stream.extend(QUIET, false);
    if stream.write_all(&accepted.response).is_err() {
        return;
    }
    let mut socket = WebSocket::from_partially_read(
        alloc,
        stream,
        NoMask,
        accepted.beyond,
        Role::Server,
        Some(config()),
    );
    let Some(welcome) = greet(alloc, &mut socket, &key, &challenge) else {
        return;
    };
    let admitted = Admitted { window, welcome };
    show(rt, alloc, socket, admitted, served, seat);
}
