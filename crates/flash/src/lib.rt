// Flash memory: one interface with exact effects. FLASH.md is its guide.
#![tactic(auto)]

mod fault;
mod interface;
mod laws;
mod ranges;

pub use fault::{Asked, Cause, FlashFault};
pub use interface::Flash;
pub use laws::laws_of_writes_hold;
pub use ranges::{Erased, erase_range};
