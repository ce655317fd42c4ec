ghost use Rattle.flash_kinds.specs.Word.{word_lent, word_meaning};

use crate::calls::Tables;
use crate::tables::{at, count_erase, fill_page, filled, left};
use crate::word_flash::WordFlash;

// The table work of each call, for words and pages that are there.
impl<'a> Tables for WordFlash<'a> {
    ghost meaning = { word_meaning };

    ghost lent = { word_lent };

    fn page_count(&self) -> u32 {
        filled(self.words.len(), self.records.len()) / 8 * 8
    }

    fn read(&self, i: u32) -> u32 {
        at(self.words, i)
    }

    fn left(&self, page: u32) -> u32 {
        left(self.records, page)
    }

    fn set(&mut self, i: u32, value: u32) {
        self.words[i as usize] = value;
    }

    fn clear(&mut self, page: u32) {
        count_erase(self.records, page);
        fill_page(self.words, page, 0xFFFF_FFFF);
    }
}
