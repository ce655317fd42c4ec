// The address map.
ghost use Rattle.std.specs.Prelude.{◌≡◌};
ghost use Rattle.areas.specs.Areas.{area_start, area_size, within, wholly, place_of};

// What an address belongs to.
#[derive(Clone, Copy, PartialEq, Eq, Debug)]
pub enum Area {
    User,
    Options,
    Outside,
}

impl Area {
    // The address of the area's first byte, and how many bytes the area has on a part with so many pages.
    fn span(self, pages: u32) -> (u64, u64)
        ensures { (result.0 ≡ area_start self) × (result.1 ≡ area_size pages self) }
    {
        match self {
            Area::User => (0x0800_0000, 512 * pages as u64),
            Area::Options => (0x1FFF_F800, 16),
            Area::Outside => (0, 0),
        }
    }

    // Whether so many bytes from the address on lie wholly in the area.
    pub fn holds(self, pages: u32, address: u32, count: u32) -> bool
        ensures tells_whether_all_bytes_lie_within { result ≡ within pages self address count }
    {
        let (start, size) = self.span(pages);
        let first = address as u64;
        start <= first && first + count as u64 <= start + size
    }
}

// Whether so many bytes from the address on lie wholly in user flash or wholly in the option words.
pub fn addressable(pages: u32, address: u32, count: u32) -> bool
    ensures tells_whether_one_area_holds_all { result ≡ wholly pages address count }
{
    Area::User.holds(pages, address, count) || Area::Options.holds(pages, address, count)
}

// The area of an address, and the number there of the word that holds it.
pub fn place_of(pages: u32, address: u32) -> (Area, u32)
    ensures is_area_and_word_number { result ≡ place_of pages address }
{
    if Area::User.holds(pages, address, 1) {
        (Area::User, (address - 0x0800_0000) / 4)
    } else if Area::Options.holds(pages, address, 1) {
        (Area::Options, (address - 0x1FFF_F800) / 4)
    } else {
        (Area::Outside, 0)
    }
}
