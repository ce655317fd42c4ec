use crate::options::OptionWords;
use crate::record::PageRecord;

// A flash in lent memory: a table of words and a table of page records.
#[derive(Drop)]
pub struct WordFlash<'a> {
    words: &'a mut [u32],
    records: &'a mut [PageRecord],
    options: OptionWords,
}

pub(crate) mod calls;
mod parts;
