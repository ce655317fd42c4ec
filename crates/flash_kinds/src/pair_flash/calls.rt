ghost use Rattle.flash_kinds.specs.Pair.{pair_lent, pair_lent_from, pair_meaning, pair_meaning_from};
ghost use Rattle.flash_kinds.specs.Sounds.{pair_sound};
ghost use Rattle.flash_kinds.specs.Tables.{Fill, Greatest};
ghost use Rattle.std.specs.Prelude.{◌≡◌, length};

use crate::calls::{self, Tables};
use crate::options::OptionWords;
use crate::pair_flash::PairFlash;
use crate::record::PageRecord;
use flash::{Flash, FlashFault};

impl<'a> PairFlash<'a> {
    // A flash over the lent tables of two chips. It has as many pages as all four tables fill, in whole blocks of 8
    // and at most 1024; what the tables hold beyond that is no part of it.
    pub fn new(
        low: &'a mut [u16],
        high: &'a mut [u16],
        low_records: &'a mut [PageRecord],
        high_records: &'a mut [PageRecord],
        options: [u32; 4],
        option_writes: u32,
    ) -> PairFlash<'a>
        ensures meaning { pair_meaning result ≡ pair_meaning_from low.old high.old low_records.old high_records.old options option_writes }
        ensures greatest { Greatest (λ q. Fill (length low.old) (length low_records.old) q × Fill (length high.old) (length high_records.old) q) (pair_meaning result).pages }
        ensures loans { pair_lent result ≡ pair_lent_from low.entry.ghost_name high.entry.ghost_name low_records.entry.ghost_name high_records.entry.ghost_name low.old high.old low_records.old high_records.old }
    {
        PairFlash {
            low,
            high,
            low_records,
            high_records,
            options: OptionWords {
                words: options,
                writes_left: option_writes,
            },
        }
    }

    // Ends the flash. Its tables go back to the lender as they are.
    pub fn give_up(self)
        ensures low { self.exit.0.now ≡ self.entry.low.now }
        ensures high { self.exit.1.0.now ≡ self.entry.high.now }
        ensures low_records { self.exit.1.1.0.now ≡ self.entry.low_records.now }
        ensures high_records { self.exit.1.1.1.0.now ≡ self.entry.high_records.now }
    {}
}

impl<'a> Flash for PairFlash<'a> {
    ghost meaning = { pair_meaning };

    ghost sound = { pair_sound };

    ghost lent = { pair_lent };

    fn pages(&self) -> u32 {
        self.page_count()
    }

    fn word(&self, i: u32) -> Result<u32, FlashFault> {
        calls::word(self, i)
    }

    fn option_word(&self, i: u32) -> Result<u32, FlashFault> {
        self.options.word(i)
    }

    fn erases_left(&self, page: u32) -> Result<u32, FlashFault> {
        calls::erases_left(self, page)
    }

    fn option_writes_left(&self) -> u32 {
        self.options.writes_left
    }

    fn program(&mut self, i: u32, value: u32) -> Result<(), FlashFault> {
        calls::program(self, i, value)
    }

    fn erase(&mut self, page: u32) -> Result<(), FlashFault> {
        calls::erase(self, page)
    }

    fn write_options(&mut self, words: [u32; 4]) -> Result<(), FlashFault> {
        self.options.write(words)
    }
}
