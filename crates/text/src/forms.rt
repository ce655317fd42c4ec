// What lines ask for: a line begins with a verb, which tells how the words behind it are read.
ghost use Rattle.std.specs.Prelude.{◌≡◌, ℕ, List, Option, IfOk};
ghost use Rattle.std.specs.Option.{option_map};
ghost use Rattle.text.specs.Grammar.{among, asked_by_verb, Spelling};
ghost use Rattle.text.specs.Lines.{line_text};
ghost use Rattle.text.specs.Texts.{Reads};

use crate::verbs::Verb;
use crate::words::Words;
use std::alloc::{AllocError, Global};

// What a line asks for.
pub trait Form: Drop {
    type Verb: Verb;

    // what a form asks for, as numbers and bytes; its verb, the words behind it, and how large they can be; how words are read
    ghost Asked: { Type 0 };

    ghost meant: { Self → Asked };

    ghost verb_for: { Asked → Self.Verb };

    ghost words_for: { Asked → List (List ℕ) };

    ghost fits: { Asked → Type 0 };

    ghost asked_by: { Self.Verb → List (List ℕ) → Option Asked };

    // The form that a verb and the words behind it are.
    fn behind(heap: Global, verb: Self::Verb, words: Words<'_>) -> Result<Option<Self>, AllocError>
        ensures reads_the_words_behind_the_verb { IfOk result (λ o. option_map meant o ≡ asked_by verb words.entry) };

    // what is asked for is read back from its words, and is all that is read of them
    ghost reads_back: { Spelling Self.Verb.spelled (among Self.Verb.spelled Self.Verb.every) asked_by verb_for words_for fits };
}

// The form that a line is.
pub fn parse<F: Form>(heap: Global, line: &[u8]) -> Result<Option<F>, AllocError>
    ensures reads_the_words_of_the_line { IfOk result (λ o. option_map F.meant o ≡ asked_by_verb (among F.Verb.spelled F.Verb.every) F.asked_by line.now) }
    ensures is_the_form_whose_text_the_line_is { IfOk result (λ o. Reads (λ a. line_text (F.Verb.spelled (F.verb_for a)) (F.words_for a)) F.fits line.now (option_map F.meant o)) }
{
    let Some(mut words) = Words::of(line) else {
        return Ok(None);
    };
    let Some(verb) = words.verb() else {
        return Ok(None);
    };
    F::behind(heap, verb, words)
}
