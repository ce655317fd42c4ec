ghost use Rattle.std.specs.Prelude.{◌≡◌, Some};
ghost use Rattle.flash.specs.Faults.{no_option_word, no_page, no_word, options_worn, page_worn, word_not_erased};
ghost use Rattle.flash.specs.Texts.{asked_text, cause_text, fault_text};

use std::error::Error;
use std::fmt;

// Why a flash refuses.
#[derive(Clone, Copy, PartialEq, Eq, Debug)]
pub enum Cause {
    // there is no such page, word or option word
    Range,
    // the word to program does not read 0xFFFFFFFF
    NotErased,
    // no erase is left of the page, or no option write
    Worn,
}

// What a flash was asked for, with its number.
#[derive(Clone, Copy, PartialEq, Eq, Debug)]
pub enum Asked {
    Page(u32),
    Word(u32),
    OptionWord(u32),
    OptionWrite,
}

// A refusal: its cause, and what was asked for.
#[derive(Clone, Copy, PartialEq, Eq, Debug)]
pub struct FlashFault {
    pub cause: Cause,
    pub asked: Asked,
}

impl fmt::Display for Cause {
    ghost output = { λ cause. Some (cause_text cause) };

    fn fmt<W: fmt::Write>(&self, f: &mut fmt::Formatter<W>) -> fmt::Result {
        f.write_str(match self {
            Cause::Range => "out of range",
            Cause::NotErased => "not erased",
            Cause::Worn => "worn",
        })
    }
}

impl fmt::Display for Asked {
    ghost output = { λ asked. Some (asked_text asked) };

    fn fmt<W: fmt::Write>(&self, f: &mut fmt::Formatter<W>) -> fmt::Result {
        match self {
            Asked::Page(page) => write!(f, "page {page}"),
            Asked::Word(i) => write!(f, "word {i}"),
            Asked::OptionWord(i) => write!(f, "option word {i}"),
            Asked::OptionWrite => write!(f, "option write"),
        }
    }
}

impl fmt::Display for FlashFault {
    ghost output = { λ fault. Some (fault_text fault) };

    fn fmt<W: fmt::Write>(&self, f: &mut fmt::Formatter<W>) -> fmt::Result {
        write!(f, "{}, {}", self.cause, self.asked)
    }
}

impl Error for FlashFault {}

// The six refusals. No other is made anywhere.
impl FlashFault {
    fn new(cause: Cause, asked: Asked) -> FlashFault
        ensures { (result.cause ≡ cause) × (result.asked ≡ asked) }
    {
        FlashFault { cause, asked }
    }

    pub fn no_page(page: u32) -> FlashFault
        ensures { result ≡ no_page page }
    {
        FlashFault::new(Cause::Range, Asked::Page(page))
    }

    pub fn no_word(i: u32) -> FlashFault
        ensures { result ≡ no_word i }
    {
        FlashFault::new(Cause::Range, Asked::Word(i))
    }

    pub fn no_option_word(i: u32) -> FlashFault
        ensures { result ≡ no_option_word i }
    {
        FlashFault::new(Cause::Range, Asked::OptionWord(i))
    }

    pub fn not_erased(i: u32) -> FlashFault
        ensures { result ≡ word_not_erased i }
    {
        FlashFault::new(Cause::NotErased, Asked::Word(i))
    }

    pub fn worn_page(page: u32) -> FlashFault
        ensures { result ≡ page_worn page }
    {
        FlashFault::new(Cause::Worn, Asked::Page(page))
    }

    pub fn worn_options() -> FlashFault
        ensures { result ≡ options_worn }
    {
        FlashFault::new(Cause::Worn, Asked::OptionWrite)
    }
}
