// The words of a line, one after the other.
ghost use Rattle.std.specs.Prelude.{◌≡◌, ◌≤◌, IfSome, IfOk, Some, vec_items};
ghost use Rattle.std.specs.Iterator.{YieldsFirstRef, item_count};
ghost use Rattle.std.specs.Option.{option_map};
ghost use Rattle.text.specs.Digits.{byte_in, number_up_to};
ghost use Rattle.text.specs.Grammar.{among, ended};
ghost use Rattle.text.specs.Lines.{words_in, first_by, behind, all_by, wordless};

use crate::decimal;
use crate::hexadecimal::Hexadecimal;
use crate::verbs::{Verb, verb_of};
use std::alloc::{AllocError, Global};
use std::marker::Model;

// A reader of the words of one line. The words are parts of the line.
#[derive(Drop)]
pub struct Words<'a> {
    rest: Option<&'a [u8]>,
}

impl<'a> Model for Words<'a> {
    ghost use Rattle.std.specs.Prelude.{ℕ, List};

    ghost Value = { List (List ℕ) };

    ghost use Rattle.text.specs.Cursor.{left};

    ghost view = { left };
}

impl<'a> Iterator for Words<'a> {
    type Item = &'a [u8];

    ghost next_gives = { YieldsFirstRef (λ words. words) };

    ghost remaining = { item_count (λ words. words) };

    // The next word.
    fn next(&mut self) -> Option<&'a [u8]> {
        let text = self.rest?;
        let Some(end) = text.iter().position(|c| *c == b' ') else {
            self.rest = None;
            return Some(text);
        };
        self.rest = Some(&text[end + 1..]);
        Some(&text[..end])
    }
}

impl<'a> Words<'a> {
    // The words between `(` and `)`, where the line begins and ends so.
    pub fn of(line: &'a [u8]) -> Option<Words<'a>>
        ensures reads_the_words_between_the_brackets { result ≡ words_in line.now }
    {
        match line {
            [b'(', inside @ .., b')'] => Some(Words { rest: Some(inside) }),
            _ => None,
        }
    }

    // Whether no word is left.
    pub fn done(&self) -> bool
        ensures tells_whether_no_word_is_left { result ≡ wordless self.now }
    {
        self.rest.is_none()
    }

    // The value, where no word is left.
    pub fn ended<T: Drop>(&self, value: T) -> Option<T>
        ensures is_the_value_where_no_word_is_left { result ≡ ended value self.now }
    {
        self.done().then_some(value)
    }

    // The next word as a verb.
    pub fn verb<V: Verb>(&mut self) -> Option<V>
        ensures is_the_first_word_as_a_verb { result ≡ first_by (among V.spelled V.every) self.old }
        ensures leaves_the_words_behind_it { self.new ≡ behind self.old }
    {
        verb_of(self.next()?)
    }

    // The next word as a hexadecimal number, of as many digits as its type has room for.
    pub fn hexadecimal<H: Hexadecimal>(&mut self) -> Option<H>
        ensures is_the_first_word_as_digits { result ≡ first_by H.number_in self.old }
        ensures leaves_the_words_behind_it { self.new ≡ behind self.old }
    {
        H::read(self.next()?)
    }

    // The next word as a decimal number that is at most so much.
    pub fn number(&mut self, most: u32) -> Option<u32>
        ensures is_the_first_word_as_a_decimal_number { result ≡ first_by (number_up_to most) self.old }
        ensures is_at_most_so_much { IfSome result (λ n. n ≤ most) }
        ensures leaves_the_words_behind_it { self.new ≡ behind self.old }
    {
        decimal::number(self.next()?).filter(|number| *number <= most)
    }

    // All the words that are left, each as a number of two hexadecimal digits.
    pub fn bytes(self, heap: Global) -> Result<Option<Vec<u8>>, AllocError>
        ensures is_every_word_left_as_two_digits { IfOk result (λ o. option_map vec_items o ≡ all_by byte_in self.entry) }
    {
        let mut bytes = Vec::new(heap);
        for word in self {
            let Some(byte) = u8::read(word) else {
                return Ok(None);
            };
            bytes.push(byte)?;
        }
        Ok(Some(bytes))
    }
}
