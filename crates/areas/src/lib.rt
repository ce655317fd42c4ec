// The memory of a part as its addresses name it: the areas, the words in them, and the bytes of a word.
#![tactic(auto)]

mod bytes;
mod map;

pub use bytes::bytes_of;
pub use map::{Area, addressable, place_of};
