// The address of a refusal.
ghost use Rattle.std.specs.Prelude.{◌≡◌};
ghost use Rattle.memory.specs.Reports.{address_of, in_memory};

use crate::fault::MemoryFault;
use flash::{Asked, FlashFault};

// The address of what a flash was asked for.
fn address_of(asked: Asked) -> u32
    ensures { result ≡ address_of asked }
{
    match asked {
        Asked::Page(page) => 0x0800_0000u32.wrapping_add(page.wrapping_mul(512)),
        Asked::Word(word) => 0x0800_0000u32.wrapping_add(word.wrapping_mul(4)),
        Asked::OptionWord(word) => 0x1FFF_F800u32.wrapping_add(word.wrapping_mul(4)),
        Asked::OptionWrite => 0x1FFF_F800,
    }
}

impl From<FlashFault> for MemoryFault {
    ghost from_gives = { λ e r. r ≡ in_memory e };

    fn from(fault: FlashFault) -> MemoryFault {
        MemoryFault {
            flash: fault,
            address: address_of(fault.asked),
        }
    }
}
