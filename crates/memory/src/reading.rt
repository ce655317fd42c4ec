// Portions that read. Words that do not exist are left out.
ghost use Rattle.std.specs.Prelude.{◌≡◌, ◌*◌, ◌/◌, ◌≤◌, min, length, take, drop, Result};
ghost use Rattle.areas.specs.Words.{bytes_of_words};
ghost use Rattle.areas.specs.declared.map.Area.TheVariants.{User};
ghost use Rattle.checksum.specs.Crc.{feeds};
ghost use Rattle.flash.specs.Effects.{word_answer};
ghost use Rattle.memory.specs.Portions.{words_at, word_in};

use areas::{Area, bytes_of};
use checksum::Checksum;
use flash::Flash;

// A word of an area.
pub(crate) fn word_of<F: Flash>(flash: &F, area: Area, i: u32) -> Option<u32>
    ensures { result ≡ word_in (F.meaning flash.now) area i }
{
    match area {
        Area::User => flash.word(i).ok(),
        Area::Options => flash.option_word(i).ok(),
        Area::Outside => None,
    }
}

// Feeds so many user words, from `first` on, into a checksum that has come to `register`, and tells its register then.
pub fn feed_words<F: Flash>(flash: &F, first: u32, count: u32, register: u16) -> u16
    ensures is_the_register_after_the_words { result ≡ feeds register (bytes_of_words (words_at (F.meaning flash.now) User first count)) }
{
    let mut sum = Checksum::resume(register);
    for done in 0..count {
        let Some(word) = word_of(flash, Area::User, first + done) else {
            break;
        };
        sum.feed(&bytes_of(word));
    }
    sum.register()
}

// Puts so many words of an area, from `first` on, at the head of `out`, the low byte of each first, and tells how many
// bytes they have. What does not fit is left out.
pub fn copy_words<F: Flash>(flash: &F, area: Area, first: u32, count: u32, out: &mut [u8]) -> usize
    ensures tells_how_many_bytes { result ≡ 4 * length (words_at (F.meaning flash.now) area first (min count (length out.old / 4))) }
    ensures stays_within_the_buffer { result ≤ length out.old }
    ensures puts_the_words { take result out.new ≡ bytes_of_words (words_at (F.meaning flash.now) area first (min count (length out.old / 4))) }
    ensures leaves_the_rest { drop result out.new ≡ drop result out.old }
{
    let most = (count as usize).min(out.len() / 4);
    for done in 0..most {
        let Some(word) = word_of(flash, area, first + done as u32) else {
            return 4 * done;
        };
        out[4 * done..4 * done + 4].copy_from_slice(&bytes_of(word));
    }
    4 * most
}
