// The frames of the CIU32 SPI boot loader protocol: layout, and where a frame is stopped.
#![tactic(auto)]

mod command;
mod flaws;
mod judging;
mod layout;
mod opening;
mod write_data;
mod writing;

pub use command::Command;
pub use judging::judge;
pub use layout::{Content, Flaw};
pub use opening::{belongs, frame_size, open_frame};
pub use write_data::WriteData;
pub use writing::put_frame;
