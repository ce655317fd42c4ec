// Making a line, word by word.
ghost use Rattle.std.specs.Prelude.{◌≡◌, [], ◌∷◌, ◌++◌, map, IfOk, decimal};
ghost use Rattle.text.specs.Digits.{hex_byte};
ghost use Rattle.text.specs.Lines.{more_words};

use crate::hexadecimal::Hexadecimal;
use std::alloc::{AllocError, Global};
use std::marker::Model;

// A line that has its first words and no `)` yet.
#[derive(Drop)]
pub struct Line {
    text: Vec<u8>,
}

impl Model for Line {
    ghost use Rattle.std.specs.Prelude.{ℕ, List};

    ghost Value = { List ℕ };

    ghost use Rattle.text.specs.Making.{so_far};

    ghost view = { so_far };
}

impl Line {
    // A line with its first word.
    pub fn new(heap: Global, word: &[u8]) -> Result<Line, AllocError>
        ensures is_the_bracket_and_the_word { IfOk result (λ line. line ≡ 40 ∷ word.now) }
    {
        let mut text = Vec::new(heap);
        text.push(b'(')?;
        text.extend_from_slice(word)?;
        Ok(Line { text })
    }

    // One more word.
    pub fn word(mut self, word: &[u8]) -> Result<Line, AllocError>
        ensures has_one_more_word { IfOk result (λ line. line ≡ self ++ more_words (word.now ∷ [])) }
    {
        self.text.push(b' ')?;
        self.text.extend_from_slice(word)?;
        Ok(self)
    }

    // One more word: a number in hexadecimal digits, as many as its type has room for.
    pub fn hexadecimal<H: Hexadecimal>(self, number: H) -> Result<Line, AllocError>
        ensures has_one_more_word_of_its_digits { IfOk result (λ line. line ≡ self ++ more_words (H.digits number ∷ [])) }
    {
        let mut line = self.word(b"")?;
        number.write(&mut line.text)?;
        Ok(line)
    }

    // One more word: a decimal number.
    pub fn number(self, heap: Global, number: u32) -> Result<Line, AllocError>
        ensures has_one_more_word_of_decimal_digits { IfOk result (λ line. line ≡ self ++ more_words (decimal number ∷ [])) }
    {
        let digits = number.to_string(heap)?;
        self.word(digits.as_bytes())
    }

    // One more word for each byte.
    pub fn bytes(self, bytes: &[u8]) -> Result<Line, AllocError>
        ensures has_a_word_more_for_each_byte { IfOk result (λ line. line ≡ self ++ more_words (map hex_byte bytes.now)) }
    {
        let mut line = self;
        for byte in bytes {
            line = line.hexadecimal(*byte)?;
        }
        Ok(line)
    }

    // The whole line.
    pub fn finish(mut self) -> Result<Vec<u8>, AllocError>
        ensures is_the_line_with_its_closing_bracket { IfOk result (λ text. text.items ≡ self ++ (41 ∷ [])) }
    {
        self.text.push(b')')?;
        Ok(self.text)
    }
}
