ghost use Rattle.flash_kinds.specs.Pair.{pair_lent, pair_meaning};

use crate::calls::Tables;
use crate::pair_flash::PairFlash;
use crate::tables::{at, count_erase, fill_page, filled, left};

// The table work of each call, for words and pages that are there.
impl<'a> Tables for PairFlash<'a> {
    ghost meaning = { pair_meaning };

    ghost lent = { pair_lent };

    fn page_count(&self) -> u32 {
        let low = filled(self.low.len(), self.low_records.len());
        let high = filled(self.high.len(), self.high_records.len());
        low.min(high) / 8 * 8
    }

    fn read(&self, i: u32) -> u32 {
        let low = at(self.low, i);
        let high = at(self.high, i);
        low as u32 + 65536 * high as u32
    }

    fn left(&self, page: u32) -> u32 {
        let low = left(self.low_records, page);
        let high = left(self.high_records, page);
        low.min(high)
    }

    fn set(&mut self, i: u32, value: u32) {
        self.low[i as usize] = (value % 65536) as u16;
        self.high[i as usize] = (value / 65536) as u16;
    }

    fn clear(&mut self, page: u32) {
        count_erase(self.low_records, page);
        count_erase(self.high_records, page);
        fill_page(self.low, page, 0xFFFF);
        fill_page(self.high, page, 0xFFFF);
    }
}
