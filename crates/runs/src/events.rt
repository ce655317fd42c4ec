// Events and what they are answered with.
use part::CommandFault;

// What can be done to a part. The room is the length of the buffer that the call is given.
#[derive(Clone, Copy)]
pub enum Event {
    Byte { byte: u8, room: usize },
    Work { room: usize },
    AskFault,
    // spends the ticket, if it is out
    Reset,
}

// What an event is answered with.
#[derive(Drop)]
pub enum Said {
    // no answer: a reset
    Nothing,
    SmallBuffer,
    Silent,
    Accepted,
    Resting,
    Ongoing,
    Bytes(Vec<u8>),
    BytesAndTicket(Vec<u8>),
    Fault(Option<CommandFault>),
}

// One place of a list: the answer, and the fault report that stands then.
#[derive(Drop)]
pub struct Row {
    pub said: Said,
    pub report: Option<CommandFault>,
}
