// How a portion ended.
use receiver::BoundedTask;

// How a portion ended that the flash did not refuse.
#[derive(Clone, Copy, PartialEq, Eq, Debug)]
pub enum Progress {
    // there is more to do
    Going(BoundedTask),
    // that was the last portion
    Done,
    // that was the last portion, and the option words were written
    DoneWithTicket,
    // a checksum that is not the one to compare with
    Differs,
}
