// Two kinds of flash in lent tables. FLASH.md is its guide.
#![tactic(auto)]

mod calls;
mod laws;
mod options;
mod pair_flash;
mod record;
mod tables;
mod word_flash;

pub use laws::laws_hold;
pub use pair_flash::PairFlash;
pub use record::PageRecord;
pub use word_flash::WordFlash;
