// The calls of a flash in lent tables, each written once for both kinds.
ghost use Rattle.std.specs.Prelude.{◌≡◌, ◌*◌, ◌<◌, ◌≤◌, slice_index};
ghost use Rattle.flash.specs.Effects.{erase_answer, erase_leaves, erase_page, erases_left_answer, program_answer, program_leaves, program_word, word_answer, written};
ghost use Rattle.flash.specs.Meaning.{Lent, Meaning, blank};

use flash::FlashFault;

// What an erased word reads.
const BLANK: u32 = 0xFFFF_FFFF;

// What the two kinds differ in: the table work of each call, for words and pages that are there.
pub(crate) trait Tables {
    ghost meaning: { Self → Meaning };

    ghost lent: { Self → Lent };

    fn page_count(&self) -> u32
        ensures are_the_pages { result ≡ (meaning self.now).pages }
        ensures at_most_1024 { result ≤ 1024 };

    fn read(&self, i: u32) -> u32
        requires { i < 128 * (meaning self.now).pages }
        ensures { result ≡ slice_index (meaning self.now).words i };

    fn left(&self, page: u32) -> u32
        requires { page < (meaning self.now).pages }
        ensures { result ≡ slice_index (meaning self.now).erases_left page };

    fn set(&mut self, i: u32, value: u32)
        requires { i < 128 * (meaning self.old).pages }
        ensures leaves { meaning self.new ≡ written (program_word i value) (meaning self.old) }
        ensures loans { lent self.new ≡ lent self.old };

    fn clear(&mut self, page: u32)
        requires within { page < (meaning self.old).pages }
        requires left { 0 < slice_index (meaning self.old).erases_left page }
        ensures leaves { meaning self.new ≡ written (erase_page page) (meaning self.old) }
        ensures loans { lent self.new ≡ lent self.old };
}

// The user word i.
pub(crate) fn word<T: Tables>(tables: &T, i: u32) -> Result<u32, FlashFault>
    ensures { result ≡ word_answer (T.meaning tables.now) i }
{
    if i >= 128 * tables.page_count() {
        return Err(FlashFault::no_word(i));
    }
    Ok(tables.read(i))
}

// The erases left of a page.
pub(crate) fn erases_left<T: Tables>(tables: &T, page: u32) -> Result<u32, FlashFault>
    ensures { result ≡ erases_left_answer (T.meaning tables.now) page }
{
    if page >= tables.page_count() {
        return Err(FlashFault::no_page(page));
    }
    Ok(tables.left(page))
}

// Programs the user word i, which reads as erased.
pub(crate) fn program<T: Tables>(tables: &mut T, i: u32, value: u32) -> Result<(), FlashFault>
    ensures answer { result ≡ program_answer (T.meaning tables.old) i }
    ensures leaves { T.meaning tables.new ≡ program_leaves (T.meaning tables.old) i value }
    ensures loans { T.lent tables.new ≡ T.lent tables.old }
{
    if word(tables, i)? != BLANK {
        return Err(FlashFault::not_erased(i));
    }
    tables.set(i, value);
    Ok(())
}

// Erases a page that has an erase left.
pub(crate) fn erase<T: Tables>(tables: &mut T, page: u32) -> Result<(), FlashFault>
    ensures answer { result ≡ erase_answer (T.meaning tables.old) page }
    ensures leaves { T.meaning tables.new ≡ erase_leaves (T.meaning tables.old) page }
    ensures loans { T.lent tables.new ≡ T.lent tables.old }
{
    if erases_left(tables, page)? == 0 {
        return Err(FlashFault::worn_page(page));
    }
    tables.clear(page);
    Ok(())
}
