//! Saved files: a document's identifier and its applied changes as bytes, with a digest, and back.
//!
//! docs/FORMATS.md has every byte and each refusal. A saved file has one spelling, and what is loaded is what was
//! saved.
#![tactic(auto)]

mod error;
pub mod laws;
mod layout;
mod loading;
mod saved;

pub use error::StoreError;
pub use loading::load;
pub use saved::save;
