// What a part answered.
use commands::Code;

// An answer frame taken apart: its code, and its data as a part of the input, with the place where they begin.
#[derive(Clone, Copy)]
pub struct Answer<'a> {
    pub code: Code,
    pub at: usize,
    pub bytes: &'a [u8],
}
