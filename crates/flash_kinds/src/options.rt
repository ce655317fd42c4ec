ghost use Rattle.std.specs.Prelude.{◌≡◌, ◌-◌, ◌==◌, if◌then◌else◌, Err, Ok, nat_lt, slice_index};
ghost use Rattle.flash.specs.Faults.{no_option_word, options_worn};

use flash::FlashFault;

// The four option words of a flash, and how often they may still be written.
#[derive(Clone, Copy, PartialEq, Eq, Debug)]
pub struct OptionWords {
    pub(crate) words: [u32; 4],
    pub(crate) writes_left: u32,
}

impl OptionWords {
    // The option word i.
    pub(crate) fn word(&self, i: u32) -> Result<u32, FlashFault>
        ensures { result ≡ (if nat_lt i 4 then Ok (slice_index self.now.words i) else Err (no_option_word i)) }
    {
        if i >= 4 {
            return Err(FlashFault::no_option_word(i));
        }
        Ok(self.words[i as usize])
    }

    // Writes all four, where a write is left.
    pub(crate) fn write(&mut self, words: [u32; 4]) -> Result<(), FlashFault>
        ensures answer { result ≡ (if self.old.writes_left == 0 then Err options_worn else Ok tt) }
        ensures leaves { self.new ≡ (if self.old.writes_left == 0 then self.old else record { words = words; writes_left = self.old.writes_left - 1 }) }
    {
        if self.writes_left == 0 {
            return Err(FlashFault::worn_options());
        }
        self.words = words;
        self.writes_left -= 1;
        Ok(())
    }
}
