// The layers of a fault report: the flash's refusal is carried whole in the memory's, and that in the command's.
ghost use Rattle.std.specs.Prelude.{◌≡◌};
ghost use Rattle.commands.specs.Kinds.{kind_byte};
ghost use Rattle.loader.specs.Faults.{in_command};

use commands::Kind;
use memory::MemoryFault;
use part::CommandFault;

// A refusal of the memory, and the command that met it.
#[derive(Clone, Copy)]
pub(crate) struct Refused {
    pub(crate) kind: Kind,
    pub(crate) memory: MemoryFault,
}

impl From<Refused> for CommandFault {
    ghost from_gives = { λ refused report. report ≡ in_command (kind_byte refused.kind) refused.memory };

    fn from(refused: Refused) -> CommandFault {
        CommandFault {
            memory: refused.memory,
            command: u8::from(refused.kind),
        }
    }
}
