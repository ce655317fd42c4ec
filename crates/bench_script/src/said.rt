// What a bench says.
use part::CommandFault;

// What a bench says, but for the bytes of an answer.
#[derive(Clone, Copy)]
pub enum Said {
    // the frame was taken up, and is answered by a work call
    Taken,
    // a work call found no command in hand
    Idle,
    // a work call left the command in hand before its end
    Going,
    // the ticket was spent, and the part started again
    Reset,
    // no ticket is out to reset by
    NoTicket,
    // the line is no form
    BadLine,
    // the last fault report, if there is one
    Fault { report: Option<CommandFault> },
}
