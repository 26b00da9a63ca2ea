//! Lists as the layers above speak of them: a `Vec` that contracts see as a plain list, and the laws on
//! members and rising lists that every layer needs.
#![tactic(auto)]

mod bytes;
mod items;
mod room;
mod text;

pub use bytes::array_len;
pub use items::Items;
pub use room::{copy_with_room, with_room};
pub use text::{Text, char_count};
