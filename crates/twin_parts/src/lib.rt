// Two parts, over any two kinds of flash, side by side.
#![tactic(auto)]

mod flashes;
mod receivers;
mod twins;

pub use flashes::same_but_words;
pub use receivers::same_reception;
pub use twins::locked_twins;
