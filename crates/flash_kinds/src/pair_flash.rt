use crate::options::OptionWords;
use crate::record::PageRecord;

// A flash of two 16-bit chips in lent memory, one with the low half of each word and one with the high half. Each
// chip has page records of its own.
#[derive(Drop)]
pub struct PairFlash<'a> {
    low: &'a mut [u16],
    high: &'a mut [u16],
    low_records: &'a mut [PageRecord],
    high_records: &'a mut [PageRecord],
    options: OptionWords,
}

pub(crate) mod calls;
mod parts;
