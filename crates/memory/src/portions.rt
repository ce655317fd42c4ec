// Portions that write: each makes at most one write.
ghost use Rattle.std.specs.Prelude.{◌≡◌, ◌<◌, slice_index};
ghost use Rattle.flash.specs.Effects.{erase_answer, erase_leaves, options_answer, options_leaves, program_answer, program_leaves};
ghost use Rattle.memory.specs.Portions.{addressed, options_replaced};

use crate::fault::MemoryFault;
use crate::reading::word_of;
use areas::Area;
use flash::Flash;

// Programs one user word.
pub fn program<F: Flash>(flash: &mut F, i: u32, value: u32) -> Result<(), MemoryFault>
    ensures answers_as_the_flash { result ≡ addressed (program_answer (F.meaning flash.old) i) }
    ensures leaves_one_word_programmed { F.meaning flash.new ≡ program_leaves (F.meaning flash.old) i value }
    ensures keeps_the_loans { F.lent flash.new ≡ F.lent flash.old }
{
    flash.program(i, value)?;
    Ok(())
}

// Erases one page.
pub fn erase<F: Flash>(flash: &mut F, page: u32) -> Result<(), MemoryFault>
    ensures answers_as_the_flash { result ≡ addressed (erase_answer (F.meaning flash.old) page) }
    ensures leaves_one_page_erased { F.meaning flash.new ≡ erase_leaves (F.meaning flash.old) page }
    ensures keeps_the_loans { F.lent flash.new ≡ F.lent flash.old }
{
    flash.erase(page)?;
    Ok(())
}

// An option word, one of the four.
fn option_word<F: Flash>(flash: &F, i: u32) -> u32
    ensures { result ≡ slice_index (F.meaning flash.now).options i }
{
    word_of(flash, Area::Options, i).unwrap_or(0)
}

// The four option words.
pub fn option_words<F: Flash>(flash: &F) -> [u32; 4]
    ensures are_the_option_words { result ≡ (F.meaning flash.now).options }
{
    [0, 1, 2, 3].map(|i| option_word(flash, i))
}

// Writes the words over the option words, from `first` on. What would pass the fourth is left out.
fn overwrite(options: &mut [u32; 4], first: u32, words: &[u32])
    ensures { options.new ≡ options_replaced first words.now options.old }
{
    let start = (first as usize).min(4);
    let count = words.len().min(4 - start);
    options[start..start + count].copy_from_slice(&words[..count]);
}

// Replaces some option words, from `first` on, and keeps the others.
pub fn replace_options<F: Flash>(
    flash: &mut F,
    first: u32,
    words: &[u32],
) -> Result<(), MemoryFault>
    ensures answers_as_the_flash { result ≡ addressed (options_answer (F.meaning flash.old)) }
    ensures leaves_the_others { F.meaning flash.new ≡ options_leaves (F.meaning flash.old) (options_replaced first words.now (F.meaning flash.old).options) }
    ensures keeps_the_loans { F.lent flash.new ≡ F.lent flash.old }
{
    let mut options = option_words(flash);
    overwrite(&mut options, first, words);
    flash.write_options(options)?;
    Ok(())
}
