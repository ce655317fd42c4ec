// Hexadecimal numbers of a fixed width, in upper-case digits.
ghost use Rattle.std.specs.Prelude.{◌≡◌, ℕ, ◌^◌, ◌<◌, ◌/◌, List, ◌++◌, Option, length, take, drop, OnOk};
ghost use Rattle.text.specs.Digits.{hex_digit, hex_byte, hex_short, hex_long, digit_in, byte_in, short_in, long_in, paired};
ghost use Rattle.text.specs.Texts.{Reads};

use std::alloc::AllocError;

// A number that is written in as many digits as numbers of its type can have.
pub trait Hexadecimal: Drop {
    // the digits of a number, the number that a word of digits stands for, and how large the numbers are
    ghost digits: { Self → List ℕ };

    ghost number_in: { List ℕ → Option Self };

    ghost fits: { Self → Type 0 };

    // The number that a word of digits stands for.
    fn read(word: &[u8]) -> Option<Self>
        ensures reads_the_digits { result ≡ number_in word.now }
        ensures is_the_number_whose_text_the_word_is { Reads digits fits word.now result };

    // The digits of the number, put behind a text.
    fn write(self, text: &mut Vec<u8>) -> Result<(), AllocError>
        ensures puts_the_digits_behind_the_text { OnOk result (text.new.items ≡ text.old.items ++ digits self) };
}

// The number that a digit stands for.
fn digit(c: u8) -> Option<u8>
    ensures { result ≡ digit_in c }
{
    match c {
        b'0'..=b'9' => Some(c - b'0'),
        b'A'..=b'F' => Some(c - b'A' + 10),
        _ => None,
    }
}

// The digit of a number below 16.
fn hex_digit(number: u8) -> u8
    requires { number < 16 }
    ensures { result ≡ hex_digit number }
{
    if number < 10 {
        b'0' + number
    } else {
        b'A' + (number - 10)
    }
}

// The numbers that the two halves of a word stand for.
fn halves<H: Hexadecimal>(word: &[u8]) -> Option<(H, H)>
    ensures reads_both_halves { result ≡ paired (H.number_in (take (length word.now / 2) word.now)) (H.number_in (drop (length word.now / 2) word.now)) }
{
    let (high, low) = word.split_at(word.len() / 2);
    Some((H::read(high)?, H::read(low)?))
}

impl Hexadecimal for u8 {
    ghost digits = { hex_byte };

    ghost number_in = { byte_in };

    ghost fits = { λ n. n < 2 ^ 8 };

    fn read(word: &[u8]) -> Option<u8> {
        let [high, low] = word else {
            return None;
        };
        let (high, low) = (digit(*high)?, digit(*low)?);
        Some(high * 16 + low)
    }

    fn write(self, text: &mut Vec<u8>) -> Result<(), AllocError> {
        let (high, low) = (self / 16, self % 16);
        text.push(hex_digit(high))?;
        text.push(hex_digit(low))?;
        Ok(())
    }
}

impl Hexadecimal for u16 {
    ghost digits = { hex_short };

    ghost number_in = { short_in };

    ghost fits = { λ n. n < 2 ^ 16 };

    fn read(word: &[u8]) -> Option<u16> {
        let (high, low) = halves::<u8>(word)?;
        Some(u16::from_be_bytes([high, low]))
    }

    fn write(self, text: &mut Vec<u8>) -> Result<(), AllocError> {
        let [high, low] = self.to_be_bytes();
        high.write(text)?;
        low.write(text)
    }
}

impl Hexadecimal for u32 {
    ghost digits = { hex_long };

    ghost number_in = { long_in };

    ghost fits = { λ n. n < 2 ^ 32 };

    fn read(word: &[u8]) -> Option<u32> {
        let (high, low) = halves::<u16>(word)?;
        Some(high as u32 * 65536 + low as u32)
    }

    fn write(self, text: &mut Vec<u8>) -> Result<(), AllocError> {
        let [first, second, third, fourth] = self.to_be_bytes();
        first.write(text)?;
        second.write(text)?;
        third.write(text)?;
        fourth.write(text)
    }
}
