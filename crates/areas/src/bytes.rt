// A word as bytes.
ghost use Rattle.std.specs.Prelude.{◌≡◌};
ghost use Rattle.areas.specs.Words.{bytes_of_word};

// The four bytes of a word, the low byte first.
pub fn bytes_of(word: u32) -> [u8; 4]
    ensures has_the_low_byte_first { result ≡ bytes_of_word word }
{
    word.to_le_bytes()
}
