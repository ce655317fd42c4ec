// Decimal numbers with no leading zeros.
ghost use Rattle.std.specs.Prelude.{◌≡◌, ◌^◌, ◌<◌, decimal};
ghost use Rattle.text.specs.Digits.{number_in};
ghost use Rattle.text.specs.Texts.{Reads};

// The number below 2^32 that a word of digits stands for.
pub fn number(word: &[u8]) -> Option<u32>
    ensures reads_decimal_digits { result ≡ number_in word.now }
    ensures is_the_number_whose_text_the_word_is { Reads decimal (λ n. n < 2 ^ 32) word.now result }
{
    if let [] | [b'0', _, ..] = word {
        return None;
    }
    let mut value: u32 = 0;
    for c in word {
        if !c.is_ascii_digit() {
            return None;
        }
        value = value.checked_mul(10)?.checked_add((*c - b'0') as u32)?;
    }
    Some(value)
}
