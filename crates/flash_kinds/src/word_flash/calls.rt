ghost use Rattle.flash_kinds.specs.Sounds.{word_sound};
ghost use Rattle.flash_kinds.specs.Tables.{Fill, Greatest};
ghost use Rattle.flash_kinds.specs.Word.{word_lent, word_lent_from, word_meaning, word_meaning_from};
ghost use Rattle.std.specs.Prelude.{◌≡◌, length};

use crate::calls::{self, Tables};
use crate::options::OptionWords;
use crate::record::PageRecord;
use crate::word_flash::WordFlash;
use flash::{Flash, FlashFault};

impl<'a> WordFlash<'a> {
    // A flash over lent tables. It has as many pages as both tables fill, in whole blocks of 8 and at most 1024;
    // what the tables hold beyond that is no part of it.
    pub fn new(
        words: &'a mut [u32],
        records: &'a mut [PageRecord],
        options: [u32; 4],
        option_writes: u32,
    ) -> WordFlash<'a>
        ensures meaning { word_meaning result ≡ word_meaning_from words.old records.old options option_writes }
        ensures greatest { Greatest (Fill (length words.old) (length records.old)) (word_meaning result).pages }
        ensures loans { word_lent result ≡ word_lent_from words.entry.ghost_name records.entry.ghost_name words.old records.old }
    {
        WordFlash {
            words,
            records,
            options: OptionWords {
                words: options,
                writes_left: option_writes,
            },
        }
    }

    // Ends the flash. Its tables go back to the lender as they are.
    pub fn give_up(self)
        ensures words { self.exit.0.now ≡ self.entry.words.now }
        ensures records { self.exit.1.0.now ≡ self.entry.records.now }
    {}
}

impl<'a> Flash for WordFlash<'a> {
    ghost meaning = { word_meaning };

    ghost sound = { word_sound };

    ghost lent = { word_lent };

    fn pages(&self) -> u32 {
        self.page_count()
    }

    fn word(&self, i: u32) -> Result<u32, FlashFault> {
        calls::word(self, i)
    }

    fn option_word(&self, i: u32) -> Result<u32, FlashFault> {
        self.options.word(i)
    }

    fn erases_left(&self, page: u32) -> Result<u32, FlashFault> {
        calls::erases_left(self, page)
    }

    fn option_writes_left(&self) -> u32 {
        self.options.writes_left
    }

    fn program(&mut self, i: u32, value: u32) -> Result<(), FlashFault> {
        calls::program(self, i, value)
    }

    fn erase(&mut self, page: u32) -> Result<(), FlashFault> {
        calls::erase(self, page)
    }

    fn write_options(&mut self, words: [u32; 4]) -> Result<(), FlashFault> {
        self.options.write(words)
    }
}
