ghost use Rattle.std.specs.Prelude.{◌≡◌};
ghost use Rattle.flash.specs.Effects.{erase_answer, erase_leaves, erases_left_answer, option_word_answer, options_answer, options_leaves, program_answer, program_leaves, word_answer};
ghost use Rattle.flash.specs.Meaning.{Lent, Meaning, Sound, nothing_lent};

use crate::fault::FlashFault;

pub trait Flash {
    ghost meaning: { Self → Meaning };

    ghost lent: { Self → Lent } = { λ _. nothing_lent };

    fn pages(&self) -> u32
        ensures answer { result ≡ (meaning self.now).pages };

    fn word(&self, i: u32) -> Result<u32, FlashFault>
        ensures answer { result ≡ word_answer (meaning self.now) i };

    fn option_word(&self, i: u32) -> Result<u32, FlashFault>
        ensures answer { result ≡ option_word_answer (meaning self.now) i };

    fn erases_left(&self, page: u32) -> Result<u32, FlashFault>
        ensures answer { result ≡ erases_left_answer (meaning self.now) page };

    fn option_writes_left(&self) -> u32
        ensures answer { result ≡ (meaning self.now).option_writes_left };

    fn program(&mut self, i: u32, value: u32) -> Result<(), FlashFault>
        ensures answer { result ≡ program_answer (meaning self.old) i }
        ensures leaves { meaning self.new ≡ program_leaves (meaning self.old) i value }
        ensures loans { lent self.new ≡ lent self.old };

    fn erase(&mut self, page: u32) -> Result<(), FlashFault>
        ensures answer { result ≡ erase_answer (meaning self.old) page }
        ensures leaves { meaning self.new ≡ erase_leaves (meaning self.old) page }
        ensures loans { lent self.new ≡ lent self.old };

    fn write_options(&mut self, words: [u32; 4]) -> Result<(), FlashFault>
        ensures answer { result ≡ options_answer (meaning self.old) }
        ensures leaves { meaning self.new ≡ options_leaves (meaning self.old) words }
        ensures loans { lent self.new ≡ lent self.old };

    ghost sound: { (x : Self) → Sound (meaning x) };
}
