// The host's side of the CIU32 SPI boot loader protocol: it writes command frames, reads answer frames, and judges frames.
#![tactic(auto)]

mod answer;
mod reader;
mod request;
mod verdicts;
mod writer;

pub use answer::Answer;
pub use reader::read_answer;
pub use request::Request;
pub use verdicts::verdict;
pub use writer::write_request;
