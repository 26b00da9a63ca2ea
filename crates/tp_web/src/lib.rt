//! The page of a document and its windows, over sockets of this machine: HTTP for the page, a WebSocket for each window.
//!
//! [`serve_windows`] takes connections on the seats of a served peer. A request for the page is answered with it; one for a
//! window, where it comes from the page itself, becomes a WebSocket. Once its page has shown that it knows the key, each
//! request on it is one turn of the seat. What the requests and answers are is in tp_window. Connections that ask for no window
//! are counted apart from windows, and have ten seconds; a window that gives no sign of life ends.
#![tactic(auto)]

mod actors;
mod greeting;
mod head;
mod limit;
mod living;
mod page;
mod responding;
mod secret;
mod serving;
mod site;
mod timed;
mod visiting;
mod windowing;

pub use secret::Secret;
pub use serving::{MOST_OPEN, serve_windows};
pub use site::Site;
