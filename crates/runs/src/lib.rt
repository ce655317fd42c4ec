// Lists of events, done to a loader over any flash, and the answers written down.
#![tactic(auto)]

mod events;
mod playing;

pub use events::{Event, Row, Said};
pub use playing::{do_event, play};
