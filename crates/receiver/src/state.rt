// Where a receiver stands, and what comes of a byte and of a frame.
use crate::bounded_task::BoundedTask;
use areas::Area;
use commands::{Code, Information};

// Where a receiver stands.
#[derive(Clone, Copy)]
pub enum State {
    Unconnected,
    // connected, between frames
    Between,
    // in a frame: its head, command and length
    Header,
    // in a frame: its data
    Data,
    // in a frame: its checksum
    Crc,
    // a command is in hand, or the ticket is out
    Busy(BoundedTask),
}

// What a byte leads to.
#[derive(Clone, Copy)]
pub enum Reception {
    // nothing
    Quiet,
    // the connection byte is answered
    Greet,
    // a length field above the limit is answered
    TooLong,
    // the frame is whole
    Whole,
}

// What a whole frame asks for.
#[derive(Clone, Copy)]
pub enum Order {
    // nothing: it is no frame
    Ignore,
    // the answer of a refusal
    Refuse(Code),
    // what Get tells
    Tell(Information),
    // so many words of an area, from a number on
    Show { area: Area, first: u32, count: u32 },
    // a command that takes work calls
    Take(BoundedTask),
}
