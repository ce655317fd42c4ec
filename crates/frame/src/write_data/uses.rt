// The making of a Write's data and the questions to it. None of them tests the length again.
ghost use Rattle.std.specs.Prelude.{◌≡◌, ℕ, ◌+◌, ◌*◌, ◌/◌, ◌<◌, ◌≤◌, [], length, slice_index, slice_index_or};
ghost use Rattle.std.specs.Int.{w32, from_le_bytes};
ghost use Rattle.areas.specs.Areas.{wholly};
ghost use Rattle.commands.specs.Fields.{four};
ghost use Rattle.commands.specs.Requests.{WriteLength, one_page, stored_bytes};
ghost use Rattle.areas.specs.Words.{word_at};

use crate::opening::four_at;
use crate::write_data::WriteData;
use areas::addressable;
use commands::in_one_page;

impl<'a> WriteData<'a> {
    // Made from the bytes of a Write once its length has been tested: it has nothing to refuse.
    pub(crate) fn new(address: u32, bytes: &'a [u8]) -> WriteData<'a>
        requires { WriteLength (length bytes.now) }
        ensures { (result.address ≡ address) × (result.bytes.now ≡ bytes.now) }
    {
        WriteData { address, bytes }
    }

    // The data of a Write whose frame was received into a store, so many words of it. It has nothing to refuse: the store
    // holds the most that a Write can have, and a count that no Write has is taken as the nearest that one has.
    pub fn stored(frame: &'a [u8; 522], words: u8) -> WriteData<'a>
        ensures has_the_address_of_the_frame { result.address ≡ four frame.now 4 }
        ensures borrows_the_words_of_the_frame { result.bytes.now ≡ stored_bytes frame.now words }
    {
        let count = words.max(1).min(128) as usize;
        WriteData::new(four_at(frame, 4), &frame[8..8 + 4 * count])
    }
}

impl<'a> WriteData<'a> {
    // The address of the first byte.
    pub fn address(&self) -> u32
        ensures is_its_address { result ≡ self.now.address }
    {
        let WriteData { address, .. } = *self;
        address
    }

    // How many bytes there are.
    fn size(&self) -> u32
        ensures { result ≡ length self.now.bytes.now }
    {
        self.bytes.len() as u32
    }

    // Whether the first and the last byte go to one page.
    pub fn in_one_page(&self) -> bool
        ensures tells_one_page_of_512 { result ≡ one_page self.now.address (length self.now.bytes.now) }
    {
        in_one_page(self.address, self.size())
    }

    // Whether all bytes go to user flash, or all to the option words.
    pub fn addressable(&self, pages: u32) -> bool
        ensures tells_whether_one_area_holds_all { result ≡ wholly pages self.now.address (length self.now.bytes.now) }
    {
        addressable(pages, self.address, self.size())
    }

    // The bytes, as a part of what they were made from.
    pub fn bytes(&self) -> &'a [u8]
        ensures are_its_bytes { result.now ≡ self.now.bytes.now }
    {
        &self.bytes[..]
    }

    // The bytes of each word.
    fn words(&self) -> &'a [[u8; 4]]
        ensures each { (k : ℕ) → k < length result.now → from_le_bytes w32 (slice_index_or result.now k []) ≡ word_at self.now.bytes.now (4 * k) }
        ensures count { length result.now ≡ length self.now.bytes.now / 4 }
    {
        self.bytes.as_chunks::<4>().0
    }

    // How many words there are.
    pub fn count(&self) -> u8
        ensures is_the_number_of_words { result ≡ length self.now.bytes.now / 4 }
    {
        self.words().len() as u8
    }

    // The word of that number, the low byte first; past the last one, 0.
    pub fn word(&self, i: u8) -> u32
        ensures is_the_word_of_that_number { result ≡ word_at self.now.bytes.now (4 * i) }
    {
        self.words()
            .get(i as usize)
            .map_or(0, |word| u32::from_le_bytes(*word))
    }

    // Puts the words at the head of `out`, the low byte of each first, and tells how many there are.
    pub fn copy_words(&self, out: &mut [u32; 128]) -> usize
        ensures counts_the_words { result ≡ length self.now.bytes.now / 4 }
        ensures puts_each_word { (k : ℕ) → k < result → slice_index out.new k ≡ word_at self.now.bytes.now (4 * k) }
        ensures leaves_the_rest { (k : ℕ) → result ≤ k → slice_index out.new k ≡ slice_index out.old k }
    {
        let words = self.words();
        for (i, word) in words.iter().enumerate() {
            out[i] = u32::from_le_bytes(*word);
        }
        words.len()
    }
}
