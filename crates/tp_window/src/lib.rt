//! A window on a document: what a page that shows its text may ask, and what it is answered.
//!
//! A page has a text and the heads at which this is the text. It edits that text, and is sent the differences to the
//! text now; it never merges. What each edit becomes, and why the page then shows the text at the heads that it names,
//! is stated in specs/Windows and proved of [`Window::edit`] and [`News::since`]. What the value of a request asks is
//! done, and the value of an answer shows what that came to: this is stated in specs/Requests, Refusing and Outcomes,
//! and proved of what [`Window::answer`] calls. How requests and answers are written, as JSON, is in docs/FORMATS.md.
#![tactic(auto)]

mod answer;
mod answering;
mod error;
mod first;
mod laws;
mod memory;
mod news;
mod outcome;
mod reading;
mod request;
mod resuming;
mod showing;
mod window;
mod writing;

pub use answering::Said;
pub use error::WindowError;
pub use laws::{a_count_means_its_heads, a_number_means_its_heads, a_page_follows};
pub use news::News;
pub use showing::made_on;
pub use window::{Edited, Window};
