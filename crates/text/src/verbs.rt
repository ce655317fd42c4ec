// The words that lines begin with.
ghost use Rattle.std.specs.Prelude.{◌≡◌, ℕ, List};
ghost use Rattle.text.specs.Grammar.{among};

// A word that a line can begin with.
pub trait Verb: Copy + 'static {
    // its text, and all the verbs that there are
    ghost spelled: { Self → List ℕ };

    ghost every: { List Self };

    // Its text.
    fn text(self) -> &'static [u8]
        ensures is_its_text { result.now ≡ spelled self };

    // All the verbs that there are.
    fn all() -> &'static [Self]
        ensures are_all_the_verbs { result.now ≡ every };
}

// The verb whose text a word is.
pub(crate) fn verb_of<V: Verb>(word: &[u8]) -> Option<V>
    ensures is_the_verb_whose_text_the_word_is { result ≡ among V.spelled V.every word.now }
{
    V::all().iter().copied().find(|verb| word == verb.text())
}
