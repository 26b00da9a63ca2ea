//! Hashes, keys and addresses of their texts.

ghost use Rattle.std.specs.Prelude.{◌≡◌, ◌⊎◌, ℕ, List, Any, IfOk, IfErr, MatchOption, map};
ghost use Rattle.std.specs.List.{list_all, list_any};
ghost use Rattle.std.specs.Net.Grammar.{IsSocketText};
ghost use Rattle.tp_opid.specs.HexText.{IsHexOf};
ghost use Rattle.tp_command_line.specs.declared.error.ValueError.TheVariants.{BadAddress, BadHex, BadPage, OutOfMemory};
ghost use Rattle.tp_command_line.specs.Values.{AreHexOf, IsAddressText, IsHostText, IsNoAddress, IsNoHash, IsNoPage, IsOfThisMachine, is_host_name as host_name_test, is_of_host as host_test, is_of_name as name_test};

use crate::address::Address;
use crate::error::ValueError;
use std::alloc::Global;
use std::net::SocketAddr;
use tp_opid::Hash;

/// The hashes that the texts are, in their order. A text that isn't 64 hexadecimal digits is refused as `BadHex`; the only
/// other refusal is `OutOfMemory`.
pub(crate) fn hashes_in(alloc: Global, texts: &[&str]) -> Result<Vec<Hash>, ValueError>
    ensures ok { IfOk result (λ hashes. AreHexOf (map (λ t. t.now) texts.now) hashes.items) }
    ensures err { IfErr result (λ e. (e ≡ OutOfMemory)
        ⊎ ((e ≡ BadHex) × Any IsNoHash (map (λ t. t.now) texts.now))) }
{
    let mut hashes = Vec::with_capacity(alloc, texts.len())?;
    for text in texts {
        hashes.push(Hash::from_text(text)?)?;
    }
    Ok(hashes)
}

/// The 32 bytes that 64 hexadecimal digits are; else `BadHex`.
pub(crate) fn digits_in(text: &str) -> Result<[u8; 32], ValueError>
    ensures ok { IfOk result (IsHexOf text.now) }
    ensures err { IfErr result (λ e. (e ≡ BadHex) × IsNoHash text.now) }
{
    let Hash(key) = Hash::from_text(text)?;
    Ok(key)
}

// Whether a byte of a host's name can be this one, which no address in digits has.
fn is_of_name(byte: u8) -> bool
    ensures { result ≡ name_test byte }
{
    byte.is_ascii_alphabetic() || byte == b'-' || byte == b'_'
}

// Whether a byte of a host's name can be this one.
fn is_of_host(byte: u8) -> bool
    ensures { result ≡ host_test byte }
{
    is_of_name(byte) || byte.is_ascii_digit() || byte == b'.'
}

// Whether each byte can be one of a host's name.
fn are_of_host(bytes: &[u8]) -> bool
    ensures { result ≡ list_all host_test bytes.now }
{
    bytes.iter().all(|b| is_of_host(*b))
}

// Whether some byte is one that no address in digits has.
fn has_of_name(bytes: &[u8]) -> bool
    ensures { result ≡ list_any name_test bytes.now }
{
    bytes.iter().any(|b| is_of_name(*b))
}

// Whether a host's name can be this: it has something else than digits and dots.
fn is_host_name(name: &str) -> bool
    ensures { result ≡ host_name_test name.now }
{
    are_of_host(name.as_bytes()) && has_of_name(name.as_bytes())
}

// The name and the port, where the text is `HOST:PORT`.
fn host_in<'a>(text: &'a str) -> Option<(&'a str, u16)>
    ensures { MatchOption result
        ((name : List ℕ) (port : ℕ) → IsHostText text.entry.now name port → ⊥)
        (λ host. IsHostText text.entry.now host.0.now host.1) }
{
    match text.split_once(':') {
        Some((name, port)) => {
            if !is_host_name(name) {
                return None;
            }
            match port.parse::<u16>() {
                Ok(port) => Some((name, port)),
                Err(_) => None,
            }
        }
        None => None,
    }
}

/// The address that the text is, `IP:PORT` or `HOST:PORT`; else `BadAddress`. No name is looked up.
pub(crate) fn address_in<'a>(text: &'a str) -> Result<Address<'a>, ValueError>
    ensures ok { IfOk result (IsAddressText text.entry.now) }
    ensures err { IfErr result (λ e. (e ≡ BadAddress) × IsNoAddress text.entry.now) }
{
    match (text.parse::<SocketAddr>(), host_in(text)) {
        (Ok(addr), _) => Ok(Address::Socket(addr)),
        (Err(_), Some((name, port))) => Ok(Address::Host { name, port }),
        (Err(_), None) => Err(ValueError::BadAddress),
    }
}

/// The address that the text is, `IP:PORT` of this machine; else `BadPage`.
pub(crate) fn page_in(text: &str) -> Result<SocketAddr, ValueError>
    ensures ok { IfOk result (λ addr. IsSocketText text.now addr × IsOfThisMachine addr) }
    ensures err { IfErr result (λ e. (e ≡ BadPage) × IsNoPage text.now) }
{
    match text.parse::<SocketAddr>() {
        Ok(addr) => {
            if addr.ip().is_loopback() {
                Ok(addr)
            } else {
                Err(ValueError::BadPage)
            }
        }
        Err(_) => Err(ValueError::BadPage),
    }
}
