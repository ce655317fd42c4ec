// The commands of the CIU32 SPI boot loader protocol: their bytes, the codes of answers, the protection level, and the rules for
// lengths and parameters, on numbers.
#![tactic(auto)]

mod codes;
mod kinds;
mod refusing;
mod rules;

pub use codes::{Code, Local, NoCode, Refusal};
pub use kinds::{
    EraseMode, Information, Kind, Level, NoCommand, NoInformation, NoMode, SUPPORTED, supported,
};
pub use rules::{
    aligned, erase_known, erase_within, in_one_page, some_words, whole_words, wrong_length,
};
