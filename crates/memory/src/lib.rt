// The memory behind a loader, over any flash: one portion of work at a time. It knows no protocol.
#![tactic(auto)]

mod fault;
mod portions;
mod reading;
mod reports;

pub use fault::MemoryFault;
pub use portions::{erase, option_words, program, replace_options};
pub use reading::{copy_words, feed_words};
