#![tactic(auto)]

ghost use Rattle.std.specs.Prelude.{◌≡◌, ◌*◌, length, drop};
ghost use Rattle.flash.specs.Effects.{program_leaves};
ghost use Rattle.flash.specs.Ranges.{erase_range_leaves};
ghost use Rattle.flash_kinds.specs.Word.{word_meaning_from, word_pages};

use flash::{Flash, erase_range};
use flash_kinds::{PageRecord, WordFlash};

// What a lender learns: the tables that come back mean what the flash meant when it was given up, and what they
// hold beyond the pages is as it was.
pub fn lend(words: &mut [u32], records: &mut [PageRecord], options: [u32; 4], i: u32, value: u32)
    ensures meaning { word_meaning_from words.new records.new options 0 ≡ program_leaves (word_meaning_from words.old records.old options 0) i value }
    ensures beyond { drop (128 * word_pages (length words.old) (length records.old)) words.new ≡ drop (128 * word_pages (length words.old) (length records.old)) words.old }
{
    let mut flash = WordFlash::new(words, records, options, 0);
    let _ = flash.program(i, value);
    flash.give_up();
}

// The same where a function over any flash did the work.
pub fn lend_on(
    words: &mut [u32],
    records: &mut [PageRecord],
    options: [u32; 4],
    first: u32,
    count: u32,
)
    ensures { (word_meaning_from words.new records.new options 0).words ≡ (erase_range_leaves (word_meaning_from words.old records.old options 0) first count).words }
{
    let mut flash = WordFlash::new(words, records, options, 0);
    let _ = erase_range(&mut flash, first, count);
    flash.give_up();
}

#[cfg(test)]
mod tests;
