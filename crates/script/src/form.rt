// What a line of the frame tool asks for.
use codec::Request;

// The word that a line begins with.
#[derive(Clone, Copy)]
pub enum Verb {
    Get,
    Read,
    Write,
    Crc,
    Erase,
    Protect,
    Unprotect,
    Answer,
    Verdict,
}

// A request that owns its bytes.
pub type Order = Request<Vec<u8>>;

// A line: a request to be written as a frame, an answer frame to be read, or a frame to be judged.
#[derive(Drop)]
pub enum Form {
    Request(Order),
    Answer {
        bytes: Vec<u8>,
    },
    Verdict {
        level: u32,
        pages: u32,
        bytes: Vec<u8>,
    },
}
