// The part: definitions of what it does for every byte, call, reset and power cut, and the laws over whole runs.
#![tactic(auto)]

mod identity;
mod laws;
mod report;

pub use identity::Identity;
pub use laws::{locked_twins, openings, rows, whole_checks};
pub use report::CommandFault;
