// A fault report: the flash's refusal, its address, and the command that met it.
use memory::MemoryFault;

#[derive(Clone, Copy, PartialEq, Eq, Debug)]
pub struct CommandFault {
    pub memory: MemoryFault,
    pub command: u8,
}
