//! Answers to requests that aren't for a window.

use crate::page::{PAGE, SCRIPT, STYLE};
use crate::site::Part;
use std::alloc::Global;
use std::io;
use std::io::Write;

// Nothing of the page comes from elsewhere, and nothing else may show it.
const POLICY: &str =
    "default-src 'none'; script-src 'self'; style-src 'self'; connect-src 'self'; base-uri 'none'; form-action 'none'; frame-ancestors 'none'";

// Answers a request, and says that the connection ends then.
fn respond<W: Write>(
    alloc: Global,
    status: &str,
    kind: &str,
    body: &str,
    out: &mut W,
) -> io::Result<()> {
    let len = body.len();
    let head = format!(in alloc;
        "HTTP/1.1 {status}\r\nContent-Type: {kind}; charset=utf-8\r\nContent-Length: {len}\r\nContent-Security-Policy: {POLICY}\r\nX-Content-Type-Options: nosniff\r\nReferrer-Policy: no-referrer\r\nCache-Control: no-store\r\nConnection: close\r\n\r\n"
    )?;
    out.write_all(head.as_bytes())?;
    out.write_all(body.as_bytes())?;
    out.flush()
}

/// Answers with a part of the page.
pub(crate) fn send_part<W: Write>(alloc: Global, part: Part, out: &mut W) -> io::Result<()> {
    match part {
        Part::Page => respond(alloc, "200 OK", "text/html", PAGE, out),
        Part::Style => respond(alloc, "200 OK", "text/css", STYLE, out),
        Part::Script => respond(alloc, "200 OK", "text/javascript", SCRIPT, out),
    }
}

/// Answers that there is no such thing.
pub(crate) fn send_nothing<W: Write>(alloc: Global, out: &mut W) -> io::Result<()> {
    respond(alloc, "404 Not Found", "text/plain", "no such page\n", out)
}

/// Answers that as many ask here as may, and that the browser is to try again in ten seconds.
pub(crate) fn send_busy<W: Write>(alloc: Global, out: &mut W) -> io::Result<()> {
    respond(
        alloc,
        "503 Service Unavailable\r\nRetry-After: 10\r\nRefresh: 10",
        "text/plain",
        "too many ask at once\n",
        out,
    )
}

/// Answers that the request comes from elsewhere.
pub(crate) fn send_refusal<W: Write>(alloc: Global, out: &mut W) -> io::Result<()> {
    respond(
        alloc,
        "403 Forbidden",
        "text/plain",
        "the page of this address alone may ask here\n",
        out,
    )
}
