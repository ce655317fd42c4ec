// Reading a line of a bench.
ghost use Rattle.std.specs.Prelude.{◌≡◌, IfOk};
ghost use Rattle.std.specs.Option.{option_map};
ghost use Rattle.text.specs.Texts.{Reads};
ghost use Rattle.bench_script.specs.Forms.{Asked, meant, verb_text, verb_for, words_for, shown, Fits};
ghost use Rattle.bench_script.specs.Grammar.{verbs, asked_by, asked_on};
ghost use Rattle.bench_script.specs.Spelled.{spelling};

use crate::form::{Form, Verb};
use std::alloc::{AllocError, Global};
use text::Words;

impl text::Verb for Verb {
    ghost spelled = { verb_text };

    ghost every = { verbs };

    fn text(self) -> &'static [u8] {
        match self {
            Verb::In => b"in",
            Verb::Work => b"work",
            Verb::Reset => b"reset",
            Verb::Fault => b"fault",
        }
    }

    fn all() -> &'static [Verb] {
        &[Verb::In, Verb::Work, Verb::Reset, Verb::Fault]
    }
}

// The words behind `in`.
fn bytes_in(heap: Global, words: Words<'_>) -> Result<Option<Form>, AllocError>
    ensures reads_the_words_behind_in { IfOk result (λ o. option_map meant o ≡ asked_by Verb.In words.entry) }
{
    let bytes = words.bytes(heap)?;
    Ok(
        bytes
            .filter(|bytes| (1..=522).contains(&bytes.len()))
            .map(|bytes| Form::In { bytes }),
    )
}

// The words behind `work`.
fn work(mut words: Words<'_>) -> Option<Form>
    ensures reads_the_words_behind_work { option_map meant result ≡ asked_by Verb.Work words.entry }
{
    let calls = words.number(9999).filter(|calls| *calls >= 1)?;
    words.ended(Form::Work { calls })
}

impl text::Form for Form {
    type Verb = Verb;

    ghost Asked = { Asked };

    ghost meant = { meant };

    ghost verb_for = { verb_for };

    ghost words_for = { words_for };

    ghost fits = { Fits };

    ghost asked_by = { asked_by };

    ghost reads_back = { spelling };

    // The words behind a verb.
    fn behind(heap: Global, verb: Verb, words: Words<'_>) -> Result<Option<Form>, AllocError> {
        match verb {
            Verb::In => bytes_in(heap, words),
            Verb::Work => Ok(work(words)),
            Verb::Reset => Ok(words.ended(Form::Reset)),
            Verb::Fault => Ok(words.ended(Form::Fault)),
        }
    }
}

// The form that a line is.
pub fn parse(heap: Global, line: &[u8]) -> Result<Option<Form>, AllocError>
    ensures reads_the_words_of_the_line { IfOk result (λ o. option_map meant o ≡ asked_on line.now) }
    ensures is_the_form_whose_text_the_line_is { IfOk result (λ o. Reads shown Fits line.now (option_map meant o)) }
{
    text::parse(heap, line)
}
