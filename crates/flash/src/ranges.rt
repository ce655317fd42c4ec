ghost use Rattle.flash.specs.Ranges.{RangeIsBlank, erase_range_answer, erase_range_leaves};
ghost use Rattle.std.specs.Prelude.{◌≡◌};

use crate::fault::FlashFault;
use crate::interface::Flash;

// What became of a range of pages: how many were erased, and the refusal that ended it, if one did.
#[derive(Clone, Copy, PartialEq, Eq, Debug)]
pub struct Erased {
    pub done: u32,
    pub refused: Option<FlashFault>,
}

// Erases `count` pages from `first` on, ascending, up to the first that is refused.
pub fn erase_range<F: Flash>(flash: &mut F, first: u32, count: u32) -> Erased
    ensures answer { result ≡ erase_range_answer (F.meaning flash.old) first count }
    ensures leaves { F.meaning flash.new ≡ erase_range_leaves (F.meaning flash.old) first count }
    ensures blank { RangeIsBlank result first count (F.meaning flash.new) }
    ensures loans { F.lent flash.new ≡ F.lent flash.old }
{
    for done in 0..count {
        if let Err(fault) = flash.erase(first + done) {
            return Erased {
                done,
                refused: Some(fault),
            };
        }
    }
    Erased {
        done: count,
        refused: None,
    }
}
