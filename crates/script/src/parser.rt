// Reading a line of the frame tool.
ghost use Rattle.std.specs.Prelude.{◌≡◌, IfOk};
ghost use Rattle.std.specs.Option.{option_map};
ghost use Rattle.script.specs.Forms.{Asked, meant, verb_text, verb_for, words_for, shown, Fits};
ghost use Rattle.script.specs.Grammar.{verbs, asked_by, asked_on};
ghost use Rattle.script.specs.Spelled.{spelling};
ghost use Rattle.text.specs.Texts.{Reads};

use crate::form::{Form, Order, Verb};
use std::alloc::{AllocError, Global};
use text::Words;

impl text::Verb for Verb {
    ghost spelled = { verb_text };

    ghost every = { verbs };

    fn text(self) -> &'static [u8] {
        match self {
            Verb::Get => b"get",
            Verb::Read => b"read",
            Verb::Write => b"write",
            Verb::Crc => b"crc",
            Verb::Erase => b"erase",
            Verb::Protect => b"protect",
            Verb::Unprotect => b"unprotect",
            Verb::Answer => b"answer",
            Verb::Verdict => b"verdict",
        }
    }

    fn all() -> &'static [Verb] {
        &[
            Verb::Get,
            Verb::Read,
            Verb::Write,
            Verb::Crc,
            Verb::Erase,
            Verb::Protect,
            Verb::Unprotect,
            Verb::Answer,
            Verb::Verdict,
        ]
    }
}

// The words behind `get`.
fn get(mut words: Words<'_>) -> Option<Form>
    ensures { option_map meant result ≡ asked_by Verb.Get words.entry }
{
    let information = u8::try_from(words.number(255)?).ok()?;
    words.ended(Form::Request(Order::Get { information }))
}

// The words behind `read`.
fn read(mut words: Words<'_>) -> Option<Form>
    ensures { option_map meant result ≡ asked_by Verb.Read words.entry }
{
    let address = words.hexadecimal()?;
    let count = u16::try_from(words.number(65535)?).ok()?;
    words.ended(Form::Request(Order::Read { address, count }))
}

// The words behind `write`.
fn write(heap: Global, mut words: Words<'_>) -> Result<Option<Form>, AllocError>
    ensures { IfOk result (λ o. option_map meant o ≡ asked_by Verb.Write words.entry) }
{
    let Some(address) = words.hexadecimal() else {
        return Ok(None);
    };
    Ok(
        words
            .bytes(heap)?
            .map(|bytes| Form::Request(Order::Write { address, bytes })),
    )
}

// The words behind `crc`.
fn crc(mut words: Words<'_>) -> Option<Form>
    ensures { option_map meant result ≡ asked_by Verb.Crc words.entry }
{
    let address = words.hexadecimal()?;
    let count = words.number(u32::MAX)?;
    let value = words.hexadecimal()?;
    words.ended(Form::Request(Order::MemoryCrc {
        address,
        count,
        value,
    }))
}

// The words behind `erase`.
fn erase(mut words: Words<'_>) -> Option<Form>
    ensures { option_map meant result ≡ asked_by Verb.Erase words.entry }
{
    let mode = words.hexadecimal()?;
    let index = words.number(u32::MAX)?;
    let count = words.number(u32::MAX)?;
    words.ended(Form::Request(Order::Erase { mode, index, count }))
}

// The words behind `answer`.
fn answer(heap: Global, words: Words<'_>) -> Result<Option<Form>, AllocError>
    ensures { IfOk result (λ o. option_map meant o ≡ asked_by Verb.Answer words.entry) }
{
    Ok(words.bytes(heap)?.map(|bytes| Form::Answer { bytes }))
}

// The words behind `verdict`.
fn verdict(heap: Global, mut words: Words<'_>) -> Result<Option<Form>, AllocError>
    ensures { IfOk result (λ o. option_map meant o ≡ asked_by Verb.Verdict words.entry) }
{
    let (Some(level), Some(pages)) = (words.number(u32::MAX), words.number(u32::MAX)) else {
        return Ok(None);
    };
    Ok(
        words.bytes(heap)?.map(|bytes| Form::Verdict {
            level,
            pages,
            bytes,
        }),
    )
}

impl text::Form for Form {
    type Verb = Verb;

    ghost Asked = { Asked };

    ghost meant = { meant };

    ghost verb_for = { verb_for };

    ghost words_for = { words_for };

    ghost fits = { Fits };

    ghost asked_by = { asked_by };

    ghost reads_back = { spelling };

    // The words behind a verb.
    fn behind(heap: Global, verb: Verb, words: Words<'_>) -> Result<Option<Form>, AllocError> {
        match verb {
            Verb::Get => Ok(get(words)),
            Verb::Read => Ok(read(words)),
            Verb::Write => write(heap, words),
            Verb::Crc => Ok(crc(words)),
            Verb::Erase => Ok(erase(words)),
            Verb::Protect => Ok(words.ended(Form::Request(Order::Protect))),
            Verb::Unprotect => Ok(words.ended(Form::Request(Order::Unprotect))),
            Verb::Answer => answer(heap, words),
            Verb::Verdict => verdict(heap, words),
        }
    }
}

// The form that a line is.
pub fn parse(heap: Global, line: &[u8]) -> Result<Option<Form>, AllocError>
    ensures reads_the_words_of_the_line { IfOk result (λ o. option_map meant o ≡ asked_on line.now) }
    ensures is_the_form_whose_text_the_line_is { IfOk result (λ o. Reads shown Fits line.now (option_map meant o)) }
{
    text::parse(heap, line)
}
