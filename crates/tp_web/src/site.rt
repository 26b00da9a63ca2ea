//! Which requests are answered, and how.

ghost use Rattle.std.specs.Prelude.{◌≡◌, List, IfOk, map};
ghost use Rattle.httparse.specs.Borrowed.{header_parts};
ghost use Rattle.std.specs.String.{string_bytes};
ghost use Rattle.tp_web.specs.Sites.{fields_are_among, has_field, hosts_at, is_field_named, is_text_among, is_window_path, origins_at, site_hosts, site_origins, wanted_of};

use crate::secret::Secret;
use httparse::Header;
use std::alloc::{AllocError, Global};
use std::net::SocketAddr;

/// Where the page is: under which name of a host it is asked for, and from which origin its windows come. Others are
/// refused, so that a page of another site can't read or write here, whatever name it gives this machine. And what its
/// windows have to know.
#[derive(Drop)]
pub struct Site {
    hosts: Vec<String>,
    origins: Vec<String>,
    secret: Secret,
}

/// What a request is for.
#[derive(Clone, Copy, Debug, PartialEq, Eq)]
pub(crate) enum Wanted {
    /// The page, or a part of it.
    Part(Part),
    /// A window.
    Window,
    /// Something that isn't there.
    Nothing,
    /// It comes from elsewhere.
    Foreign,
}

/// A part of the page.
#[derive(Clone, Copy, Debug, PartialEq, Eq)]
pub(crate) enum Part {
    Page,
    Style,
    Script,
}

// Whether the text is one of the texts.
fn is_one_of(value: &[u8], texts: &[String]) -> bool
    ensures { result ≡ is_text_among (map string_bytes texts.now) value.now }
{
    texts.iter().any(|text| text.as_bytes() == value)
}

// Whether the field has the name, in letters of either case.
fn has_name(field: &Header, name: &str) -> bool
    ensures { result ≡ is_field_named name.now (header_parts field.now) }
{
    field.name.eq_ignore_ascii_case(name)
}

// Whether each field with the name, in letters of either case, has one of the texts as its value.
fn all_are(fields: &[Header], name: &str, texts: &[String]) -> bool
    ensures { result ≡ fields_are_among name.now (map string_bytes texts.now) (map header_parts fields.now) }
{
    fields.iter().all(|field| !has_name(field, name) || is_one_of(field.value, texts))
}

// Whether a field has the name, in letters of either case.
fn is_there(fields: &[Header], name: &str) -> bool
    ensures { result ≡ has_field name.now (map header_parts fields.now) }
{
    fields.iter().any(|field| has_name(field, name))
}

// Whether windows are at the path. A page that was cut off names its actor after it.
fn is_window(path: &str) -> bool
    ensures { result ≡ is_window_path path.now }
{
    path == "/socket" || path.as_bytes().starts_with(b"/socket/")
}

impl Site {
    /// The page at this address, which has no other name: whoever serves a page by another, as `localhost`, would read the key
    /// there.
    pub fn at(alloc: Global, addr: SocketAddr, secret: Secret) -> Result<Site, AllocError>
        ensures named { IfOk result (λ site. (site_hosts site ≡ hosts_at addr)
            × (site_origins site ≡ origins_at addr)) }
        ensures keyed { IfOk result (λ site. site.secret ≡ secret) }
    {
        let hosts = vec![in alloc; format!(in alloc; "{addr}")?]?;
        let origins = vec![in alloc; format!(in alloc; "http://{addr}")?]?;
        Ok(Site {
            hosts,
            origins,
            secret,
        })
    }

    /// What its windows have to know.
    pub(crate) fn secret(&self) -> Secret
        ensures { result ≡ self.now.secret }
    {
        self.secret
    }

    /// What the request with this method, path and fields is for. Only one that names the site as its host is for the page or
    /// a window, and where it says from which page it comes, that is the site; a window's has to say so.
    pub(crate) fn classify(&self, method: &str, path: &str, fields: &[Header]) -> Wanted
        ensures { result ≡ wanted_of self.now method.now path.now (map header_parts fields.now) }
    {
        let is_own = is_there(fields, "Host")
            && all_are(fields, "Host", &self.hosts)
            && all_are(fields, "Origin", &self.origins);
        if !is_own {
            return Wanted::Foreign;
        }
        match (method, path) {
            ("GET", "/") => Wanted::Part(Part::Page),
            ("GET", "/page.css") => Wanted::Part(Part::Style),
            ("GET", "/page.js") => Wanted::Part(Part::Script),
            ("GET", other) => {
                if !is_window(other) {
                    return Wanted::Nothing;
                }
                if is_there(fields, "Origin") {
                    Wanted::Window
                } else {
                    Wanted::Foreign
                }
            }
            _ => Wanted::Nothing,
        }
    }
}
