// What a line asks a bench for.

// The word that a line begins with.
#[derive(Clone, Copy)]
pub enum Verb {
    In,
    Work,
    Reset,
    Fault,
}

// A line: bytes that the part receives, so many work calls, a reset, or a look at the last fault report.
#[derive(Drop)]
pub enum Form {
    In { bytes: Vec<u8> },
    Work { calls: u32 },
    Reset,
    Fault,
}
