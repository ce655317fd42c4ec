// The rules for a command's length and parameters, on numbers. The part and the host's writer test the same ones.
ghost use Rattle.std.specs.Prelude.{◌≡◌, ◌%◌, not, ◌||◌, ◌==◌};
ghost use Rattle.commands.specs.Requests.{whole_words as wholeWords, wrong_length, one_page, erase_known, erase_within};
ghost use Rattle.commands.specs.Kinds.{mode_byte};

use crate::{EraseMode, Kind};

// Whether so many bytes are 1 to 128 whole words.
pub fn whole_words(count: usize) -> bool
    ensures tells_four_to_512_by_four { result ≡ wholeWords count }
{
    4 <= count && count <= 512 && count % 4 == 0
}

// Whether so many bytes are whole words, at least one: what a Memory CRC can run over.
pub fn some_words(count: u32) -> bool
    ensures tells_a_multiple_of_four_above_zero { result ≡ not (count == 0 || not (count % 4 == 0)) }
{
    count != 0 && count % 4 == 0
}

// Whether a data field of so many bytes has a length that the command does not have.
pub fn wrong_length(kind: Kind, count: usize) -> bool
    ensures is_the_length_place { result ≡ wrong_length kind count }
{
    match kind {
        Kind::Get => count != 1,
        Kind::Read => count != 6,
        Kind::Write => count < 4 || !whole_words(count - 4),
        Kind::MemoryCrc => count != 10,
        Kind::Erase => count != 9,
        Kind::Protect | Kind::Unprotect => count != 0,
    }
}

// Whether an address is that of a word.
pub fn aligned(address: u32) -> bool
    ensures tells_a_multiple_of_four { result ≡ (address % 4 == 0) }
{
    address % 4 == 0
}

// Whether the first and the last of so many bytes, at least one, lie in one page.
pub fn in_one_page(address: u32, count: u32) -> bool
    ensures tells_one_page_of_512 { result ≡ one_page address count }
{
    let first = address as u64;
    let end = first + count as u64;
    if end == 0 {
        return true;
    }
    first / 512 == (end - 1) / 512
}

impl EraseMode {
    // Whether an Erase by the mode can have such an index and count.
    pub fn knows(self, index: u32, count: u32) -> bool
        ensures tells_some_pages_or_blocks_or_all { result ≡ erase_known (mode_byte self) index count }
    {
        match self {
            EraseMode::Pages | EraseMode::Blocks => count != 0,
            EraseMode::All => index == 0 && count == 0,
        }
    }

    // Whether the pages or blocks of an Erase by the mode lie in a flash of so many pages.
    pub fn within(self, pages: u32, index: u32, count: u32) -> bool
        ensures tells_whether_its_pages_exist { result ≡ erase_within pages (mode_byte self) index count }
    {
        let end = index as u64 + count as u64;
        match self {
            EraseMode::Pages => end <= pages as u64,
            EraseMode::Blocks => end <= (pages / 8) as u64,
            EraseMode::All => true,
        }
    }
}

// Whether an Erase has a mode, and an index and a count that the mode knows.
pub fn erase_known(mode: u8, index: u32, count: u32) -> bool
    ensures tells_pages_blocks_or_all { result ≡ erase_known mode index count }
{
    match EraseMode::try_from(mode) {
        Ok(mode) => mode.knows(index, count),
        Err(_) => false,
    }
}

// Whether the pages or blocks of an Erase lie in a flash of so many pages.
pub fn erase_within(pages: u32, mode: u8, index: u32, count: u32) -> bool
    ensures tells_whether_all_pages_exist { result ≡ erase_within pages mode index count }
{
    match EraseMode::try_from(mode) {
        Ok(mode) => mode.within(pages, index, count),
        Err(_) => true,
    }
}
