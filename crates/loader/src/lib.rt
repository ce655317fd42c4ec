// The loader over any flash.
#![tactic(auto)]

mod answer_buffer;
mod answers;
mod faults;
mod loader;
mod portions;
mod progress;
mod putting;
mod running;
mod ticket;

pub use answers::{Answer, Received, Worked};
pub use loader::Loader;
pub use loader::calls::{off, reset, start};
pub use running::Running;
pub use ticket::Ticket;
