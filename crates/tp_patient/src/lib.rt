//! A listener that accepts only while places are free, and that no shortage ends which may pass.
//!
//! A [`Patient`] lies over another listener. Each stream that it accepts has one of [`Places`], and so has each further handle of
//! the stream; it is free again once that is dropped. So no more are open at once than there are places: the tokens of a ledger
//! count them. Where the system refuses to accept for a reason that may pass, as for want of descriptors, it is asked again. The
//! first bytes of a connection have ten seconds, whatever patience is asked for ([`Placed`]).
#![tactic(auto)]

mod first;
mod listener;
mod placed;
mod places;
mod refusals;
mod room;
#[cfg(test)]
mod tests;

pub use listener::{Patient, Witness};
pub use placed::Placed;
pub use places::{Place, Places};
