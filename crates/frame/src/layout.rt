// The layout of frames, the same for commands and answers.

// What keeps some bytes from being one whole frame.
#[derive(Clone, Copy)]
pub enum Flaw {
    WrongHead,
    WrongTotal,
    TooLong,
    Damaged,
}

// What a frame holds: its tag (a command or a code), and its data as a part of the frame, with the place where they begin.
#[derive(Clone, Copy)]
pub struct Content<'a> {
    pub tag: u8,
    pub at: usize,
    pub bytes: &'a [u8],
}
