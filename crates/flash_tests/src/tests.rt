ghost use Rattle.std.specs.Prelude.{◌+◌, ◌^◌, ◌<◌};

use flash::{Asked, Cause, Erased, Flash, FlashFault, erase_range};
use flash_kinds::{PageRecord, PairFlash, WordFlash};

const NEW: PageRecord = PageRecord {
    made: 0,
    allowed: 3,
};

const BLANK: u32 = 0xFFFF_FFFF;

// What is kept of a page, of which so many erases were made and so many are allowed.
fn record(made: u32, allowed: u32) -> PageRecord {
    PageRecord { made, allowed }
}

// The tables of a word flash, to lend.
#[derive(Drop)]
struct WordTables<const W: usize, const R: usize> {
    words: [u32; W],
    records: [PageRecord; R],
}

impl<const W: usize, const R: usize> WordTables<W, R> {
    // Tables that hold the same word and the same record throughout.
    fn of(word: u32, record: PageRecord) -> WordTables<W, R>
        requires { W + R < 2 ^ 40 }
    {
        WordTables {
            words: [word; W],
            records: [record; R],
        }
    }

    // A flash over them, with no option write left.
    fn lend(&mut self) -> WordFlash<'_> {
        WordFlash::new(&mut self.words, &mut self.records, [0; 4], 0)
    }
}

// The tables of the two chips of a pair flash, to lend.
#[derive(Drop)]
struct PairTables<const L: usize, const H: usize, const M: usize, const N: usize> {
    low: [u16; L],
    high: [u16; H],
    low_records: [PageRecord; M],
    high_records: [PageRecord; N],
}

impl<const L: usize, const H: usize, const M: usize, const N: usize> PairTables<L, H, M, N> {
    // Tables of which each holds the same throughout.
    fn of(
        low: u16,
        high: u16,
        low_record: PageRecord,
        high_record: PageRecord,
    ) -> PairTables<L, H, M, N>
        requires { L + H + M + N < 2 ^ 40 }
    {
        PairTables {
            low: [low; L],
            high: [high; H],
            low_records: [low_record; M],
            high_records: [high_record; N],
        }
    }

    // A flash over them, with no option write left.
    fn lend(&mut self) -> PairFlash<'_> {
        PairFlash::new(
            &mut self.low,
            &mut self.high,
            &mut self.low_records,
            &mut self.high_records,
            [0; 4],
            0,
        )
    }
}

// The pages of a word flash over W words and R records.
fn word_pages<const W: usize, const R: usize>() -> u32
    requires { W + R < 2 ^ 40 }
{
    WordTables::<W, R>::of(0, NEW).lend().pages()
}

// The pages of a pair flash over L and H halves and M and N records.
fn pair_pages<const L: usize, const H: usize, const M: usize, const N: usize>() -> u32
    requires { L + H + M + N < 2 ^ 40 }
{
    PairTables::<L, H, M, N>::of(0, 0, NEW, NEW).lend().pages()
}

#[test]
fn pages_of_tables(rt: HostRuntime) {
    assert_eq!(rt; word_pages::<2048, 16>(), 16);
    assert_eq!(rt; word_pages::<2047, 16>(), 8);
    assert_eq!(rt; word_pages::<1023, 100>(), 0);
    assert_eq!(rt; word_pages::<2048, 12>(), 8);
    assert_eq!(rt; word_pages::<300000, 2000>(), 1024);
    assert_eq!(rt; pair_pages::<2048, 2048, 16, 16>(), 16);
    assert_eq!(rt; pair_pages::<2048, 1024, 16, 16>(), 8);
    assert_eq!(rt; pair_pages::<2048, 2048, 7, 16>(), 0);
}

#[test]
fn beyond_the_pages_is_out_of_range(rt: HostRuntime) {
    let mut tables = WordTables::<2048, 12>::of(BLANK, NEW);
    let mut flash = tables.lend();
    assert_eq!(rt; flash.erases_left(7), Ok(3));
    assert_eq!(rt; flash.erases_left(8), Err(FlashFault::no_page(8)));
    assert_eq!(rt; flash.erase(8), Err(FlashFault::no_page(8)));
    assert_eq!(rt; flash.word(1023), Ok(BLANK));
    assert_eq!(rt; flash.word(1024), Err(FlashFault::no_word(1024)));
    assert_eq!(rt; flash.program(1024, 1), Err(FlashFault::no_word(1024)));
    assert_eq!(rt;
        flash.option_word(4),
        Err(FlashFault {
            cause: Cause::Range,
            asked: Asked::OptionWord(4),
        })
    );
}

#[test]
fn more_made_than_allowed_is_worn(rt: HostRuntime) {
    let mut tables = WordTables::<1024, 8>::of(7, record(5, 3));
    let mut flash = tables.lend();
    assert_eq!(rt; flash.erases_left(2), Ok(0));
    assert_eq!(rt;
        flash.erase(2),
        Err(FlashFault {
            cause: Cause::Worn,
            asked: Asked::Page(2),
        })
    );
    assert_eq!(rt; flash.word(256), Ok(7));
    flash.give_up();
    assert_eq!(rt; tables.records[2], record(5, 3));
}

#[test]
fn a_worn_chip_spares_the_other(rt: HostRuntime) {
    let mut tables = PairTables::<1024, 1024, 8, 8>::of(0x1122, 0x3344, record(3, 3), record(0, 5));
    let mut flash = tables.lend();
    assert_eq!(rt; flash.word(5), Ok(0x3344_1122));
    assert_eq!(rt; flash.erases_left(0), Ok(0));
    assert_eq!(rt; flash.erase(0), Err(FlashFault::worn_page(0)));
    flash.give_up();
    assert_eq!(rt; tables.low[5], 0x1122);
    assert_eq!(rt; tables.high[5], 0x3344);
    assert_eq!(rt; tables.high_records[0], record(0, 5));
}

#[test]
fn an_erase_wears_both_chips(rt: HostRuntime) {
    let mut tables = PairTables::<1024, 1024, 8, 8>::of(0, 0, record(1, 9), record(4, 6));
    let mut flash = tables.lend();
    assert_eq!(rt; flash.erases_left(1), Ok(2));
    assert_eq!(rt; flash.erase(1), Ok(()));
    assert_eq!(rt; flash.erases_left(1), Ok(1));
    assert_eq!(rt; flash.word(127), Ok(0));
    assert_eq!(rt; flash.word(128), Ok(BLANK));
    assert_eq!(rt; flash.word(255), Ok(BLANK));
    assert_eq!(rt; flash.word(256), Ok(0));
    flash.give_up();
    assert_eq!(rt; tables.low_records[1], record(2, 9));
    assert_eq!(rt; tables.high_records[1], record(5, 6));
}

#[test]
fn one_blank_half_is_not_erased(rt: HostRuntime) {
    let mut tables = PairTables::<1024, 1024, 8, 8>::of(0xFFFF, 0x7FFF, NEW, NEW);
    let mut flash = tables.lend();
    assert_eq!(rt;
        flash.program(9, 1),
        Err(FlashFault {
            cause: Cause::NotErased,
            asked: Asked::Word(9),
        })
    );
    assert_eq!(rt; flash.word(9), Ok(0x7FFF_FFFF));
}

#[test]
fn a_range_stops_at_the_first_refusal(rt: HostRuntime) {
    let mut tables = WordTables::<1024, 8>::of(0, record(0, 1));
    let mut flash = tables.lend();
    assert_eq!(rt;
        erase_range(&mut flash, 4, 2),
        Erased {
            done: 2,
            refused: None,
        }
    );
    assert_eq!(rt;
        erase_range(&mut flash, 2, 4),
        Erased {
            done: 2,
            refused: Some(FlashFault::worn_page(4)),
        }
    );
    assert_eq!(rt;
        erase_range(&mut flash, 6, 9),
        Erased {
            done: 2,
            refused: Some(FlashFault::no_page(8)),
        }
    );
    assert_eq!(rt;
        erase_range(&mut flash, 4294967295, 4294967295),
        Erased {
            done: 0,
            refused: Some(FlashFault::no_page(4294967295)),
        }
    );
}
