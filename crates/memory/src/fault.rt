// A flash's refusal with the address of what was asked for.
use flash::FlashFault;

#[derive(Clone, Copy, PartialEq, Eq, Debug)]
pub struct MemoryFault {
    pub flash: FlashFault,
    pub address: u32,
}
