//! HMAC-SHA-256 (RFC 2104): the code by which two sides show each other that they know a key.
#![tactic(auto)]

mod equal;
mod hmac;

pub use equal::is_equal;
pub use hmac::hmac_sha256;

#[cfg(test)]
mod tests;
