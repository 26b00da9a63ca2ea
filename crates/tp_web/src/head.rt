//! The head of a request, as it comes.

ghost use Rattle.std.specs.Prelude.{◌≡◌, ◌≤◌, ℕ, true, false, List, length, IfNone, IfSome};
ghost use Rattle.httparse.specs.Grammar.{HasNoRequest, ReadsRequest, RequestHead};
ghost use Rattle.httparse.specs.Spans.{RequestOverflows};
ghost use Rattle.tp_web.specs.Sites.{BeginsWithHead, IsWantedBy, NamesActor, wanted_by_head};
ghost use Rattle.tp_web.specs.Upgrades.{IsAcceptance};

use crate::site::{Site, Wanted};
use httparse::spans::{EMPTY_HEADER_SPAN, parse_request};
use httparse::{EMPTY_HEADER, Request, Status};
use std::alloc::Global;
use std::io::Read;
use tp_opid::Actor;
use websocket::handshake::server::{check_request, write_response};

// A head has at most this many fields.
const MOST_FIELDS: usize = 64;

// This many bytes are read at once.
const PIECE: usize = 4096;

// A head has to come in at most this many reads.
const MOST_READS: usize = 64;

/// The answer that makes a WebSocket of the connection.
#[derive(Drop)]
pub(crate) struct Accepted {
    /// What is sent.
    pub response: Vec<u8>,
    /// What came after the request.
    pub beyond: Vec<u8>,
}

// Whether the bytes begin with a whole head, or `None` where they never will.
fn is_whole(bytes: &[u8]) -> Option<bool>
    ensures whole { result ≡ Some true → BeginsWithHead MOST_FIELDS bytes.now }
    ensures begun { result ≡ Some false → HasNoRequest bytes.now }
    ensures never { IfNone result (RequestOverflows MOST_FIELDS bytes.now) }
{
    match parse_request(bytes, &mut [EMPTY_HEADER_SPAN; MOST_FIELDS]) {
        Ok(Status::Complete(_)) => Some(true),
        Ok(Status::Partial) => Some(false),
        Err(_) => None,
    }
}

/// The bytes of a request up to the end of its head, with what came right after it. `None` where the stream ends or
/// fails before, where they are no head or come in too many pieces, and where memory runs out.
pub(crate) fn read_head<S: Read>(alloc: Global, stream: &mut S) -> Option<Vec<u8>>
    ensures { IfSome result (λ bytes. BeginsWithHead MOST_FIELDS bytes.items) }
{
    let mut bytes = Vec::new(alloc);
    for _ in 0..MOST_READS {
        let mut piece = [0; PIECE];
        let count = stream.read(&mut piece).ok()?;
        if count == 0 {
            return None;
        }
        bytes.extend_from_slice(&piece[..count]).ok()?;
        if is_whole(&bytes)? {
            return Some(bytes);
        }
    }
    None
}

/// What the request whose head the bytes begin with is for.
pub(crate) fn wanted_by(site: &Site, bytes: &[u8]) -> Wanted
    ensures head { (head : RequestHead) (rest : List ℕ) → ReadsRequest bytes.now head rest
        → length head.fields ≤ MOST_FIELDS → result ≡ wanted_by_head site.now head }
    ensures only { IsWantedBy site.now bytes.now result }
{
    let mut fields = [EMPTY_HEADER; MOST_FIELDS];
    let mut request = Request::new(&mut fields);
    match request.parse(bytes) {
        Ok(Status::Complete(_)) => site.classify(
            request.method.unwrap_or(""),
            request.path.unwrap_or(""),
            request.headers,
        ),
        _ => Wanted::Foreign,
    }
}

/// The actor that the request for a window names, whose head the bytes begin with: that of its page, before it was cut off.
pub(crate) fn earlier_actor(bytes: &[u8]) -> Option<Actor>
    ensures { IfSome result (NamesActor bytes.now) }
{
    let mut fields = [EMPTY_HEADER; MOST_FIELDS];
    let mut request = Request::new(&mut fields);
    let Ok(Status::Complete(_)) = request.parse(bytes) else {
        return None;
    };
    let digits = request.path?.strip_prefix("/socket/")?;
    Actor::from_text(digits).ok()
}

/// The answer to a request for a WebSocket, whose head the bytes begin with. `None` where it isn't one.
pub(crate) fn accept(alloc: Global, bytes: &[u8]) -> Option<Accepted>
    ensures { IfSome result (IsAcceptance bytes.now) }
{
    let mut spans = [EMPTY_HEADER_SPAN; MOST_FIELDS];
    let Ok(Status::Complete(request)) = parse_request(bytes, &mut spans) else {
        return None;
    };
    let key = check_request(bytes, &request, &spans).ok()?;
    let mut response = Vec::new(alloc);
    write_response(&key, &[], &mut response).ok()?;
    let beyond = Vec::from_slice(alloc, &bytes[request.len..]).ok()?;
    Some(Accepted { response, beyond })
}
