// Comparing two flashes of any kinds.
ghost use Rattle.std.specs.Prelude.{◌≡◌, Decides, slice_index};
ghost use Rattle.flash.specs.Meaning.{without_words};

use flash::Flash;
use memory::option_words;

// The erases left of a page; 0 where there is no such page.
fn erases_left<F: Flash>(flash: &F, page: u32) -> u32
    ensures { result ≡ slice_index (F.meaning flash.now).erases_left page }
{
    flash.erases_left(page).unwrap_or(0)
}

// Whether the erases left of all pages are equal, where there are as many pages.
fn same_wear<F: Flash, G: Flash>(a: &F, b: &G, pages: u32) -> bool
    requires { (pages ≡ (F.meaning a.now).pages) × (pages ≡ (G.meaning b.now).pages) }
    ensures { Decides result ((F.meaning a.now).erases_left ≡ (G.meaning b.now).erases_left) }
{
    (0..pages).all(|page| erases_left(a, page) == erases_left(b, page))
}

// Whether two flashes agree in all but their user words.
pub fn same_but_words<F: Flash, G: Flash>(a: &F, b: &G) -> bool
    ensures tells_whether_they_agree_in_all_but_user_words { Decides result (without_words (F.meaning a.now) ≡ without_words (G.meaning b.now)) }
{
    a.pages() == b.pages()
        && option_words(a) == option_words(b)
        && a.option_writes_left() == b.option_writes_left()
        && same_wear(a, b, a.pages())
}
