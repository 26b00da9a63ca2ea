//! How a page and the program show each other that they know the key.
//!
//! The program sends a challenge. The page answers with a challenge of its own and the code of both under the key; the
//! program with the code under another name, and only then the page sends anything else. So neither learns the key of the
//! other side, and no code serves twice.

ghost use Rattle.std.specs.Prelude.{◌≡◌, ◌↔◌, ◌++◌, IfOk, IfSome, IsSome, codes};
ghost use Rattle.tp_hmac.specs.Hmac.{hmac};
ghost use Rattle.tp_web.specs.Greetings.{page_code, program_code};

use hex::FromHex;
use serde::{Deserialize, Serialize};
use std::alloc::{AllocError, Global};
use std::io::{Read, Write};
use tp_hmac::{hmac_sha256, is_equal};
use tungstenite::{Message, NoMask, WebSocket};

// With what the texts begin of which the sides take the codes.
const PAGE: &str = "textpeer page";

const PROGRAM: &str = "textpeer program";

/// What a page says to show that it knows the key.
#[derive(Clone, Copy, Debug)]
pub(crate) struct Claim {
    /// Its challenge.
    pub challenge: [u8; 16],
    /// The code of both challenges.
    pub code: [u8; 32],
}

/// A page that has shown that it knows the key. Only [`admits`] gives one.
#[derive(Clone, Copy, Debug)]
pub(crate) struct Welcome {
    // The code by which the program shows the same.
    code: [u8; 32],
}

// What a page says, as it is written. Challenges and codes are their hexadecimal digits.
#[derive(Debug, Drop, Deserialize)]
#[serde(rename_all = "lowercase", deny_unknown_fields)]
enum Claimed {
    Key { challenge: String, code: String },
}

// What the program says before it answers any request.
#[derive(Debug, Drop, Serialize)]
#[serde(rename_all = "lowercase")]
enum Greeting {
    Challenge(String),
    Known { code: String },
    Refused { reason: &'static str },
}

// The code of both challenges under the key, for the side with the name.
fn code_of(
    alloc: Global,
    key: &[u8; 16],
    side: &str,
    ours: &[u8; 16],
    theirs: &[u8; 16],
) -> Result<[u8; 32], AllocError>
    ensures { IfOk result (λ code. code ≡ hmac key.now (side.now ++ ours.now ++ theirs.now)) }
{
    let mut text = Vec::from_slice(alloc, side.as_bytes())?;
    text.extend_from_slice(ours)?;
    text.extend_from_slice(theirs)?;
    Ok(hmac_sha256(key, &text))
}

/// Whether the claim shows that its page knows the key, where the program's challenge is `ours`: exactly where it has the page's
/// code. The only error is that there is no memory for the texts.
pub(crate) fn admits(
    alloc: Global,
    key: &[u8; 16],
    ours: &[u8; 16],
    claim: &Claim,
) -> Result<Option<Welcome>, AllocError>
    ensures admitted { IfOk result (λ w. IsSome w
        ↔ (claim.now.code ≡ page_code key.now ours.now claim.now.challenge)) }
    ensures answered { IfOk result (λ w. IfSome w
        (λ w. w.code ≡ program_code key.now ours.now claim.now.challenge)) }
{
    let wanted = code_of(alloc, key, PAGE, ours, &claim.challenge)?;
    if !is_equal(&claim.code, &wanted) {
        return Ok(None);
    }
    let code = code_of(alloc, key, PROGRAM, ours, &claim.challenge)?;
    Ok(Some(Welcome { code }))
}

// The claim that the JSON text is.
fn claim_of(alloc: Global, text: &str) -> Option<Claim> {
    let Ok(Claimed::Key { challenge, code }) = serde_json::from_str(alloc, text) else {
        return None;
    };
    Some(Claim {
        challenge: <[u8; 16] as FromHex>::from_hex(challenge.as_str()).ok()?,
        code: <[u8; 32] as FromHex>::from_hex(code.as_str()).ok()?,
    })
}

// Sends what the program says.
fn send<S: Read + Write + Drop>(
    alloc: Global,
    socket: &mut WebSocket<S, NoMask>,
    greeting: &Greeting,
) -> Option<()> {
    let text = serde_json::to_string(alloc, greeting).ok()?;
    socket.send(Message::text(alloc, &text).ok()?).ok()
}

// Sends the program's code.
fn welcome_page<S: Read + Write + Drop>(
    alloc: Global,
    socket: &mut WebSocket<S, NoMask>,
    welcome: &Welcome,
) -> Option<()> {
    let code = hex::encode(alloc, &welcome.code).ok()?;
    send(alloc, socket, &Greeting::Known { code })
}

/// Greets the page at the other end of the socket. `None` where it doesn't show that it knows the key: nothing but the challenge
/// and that it is refused was sent then, and the socket is to be dropped.
pub(crate) fn greet<S: Read + Write + Drop>(
    alloc: Global,
    socket: &mut WebSocket<S, NoMask>,
    key: &[u8; 16],
    ours: &[u8; 16],
) -> Option<Welcome> {
    let challenge = hex::encode(alloc, ours).ok()?;
    send(alloc, socket, &Greeting::Challenge(challenge))?;
    let message = socket.read().ok()?;
    let Message::Text(text) = &message else {
        return None;
    };
    let claim = claim_of(alloc, text.as_str())?;
    match admits(alloc, key, ours, &claim).ok()? {
        Some(welcome) => {
            welcome_page(alloc, socket, &welcome)?;
            Some(welcome)
        }
        None => {
            send(alloc, socket, &Greeting::Refused { reason: "WrongKey" })?;
            let _ = socket.close(None);
            None
        }
    }
}
