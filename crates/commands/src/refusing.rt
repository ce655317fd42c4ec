// What a byte that stands for nothing is refused as: a command's, and an answer's code.
ghost use Rattle.std.specs.Prelude.{◌≡◌};
ghost use Rattle.commands.specs.declared.codes.Code.TheVariants.{UnknownCommand, WrongParameter};
ghost use Rattle.commands.specs.declared.codes.Local.TheVariants.{UnknownCode};
ghost use Rattle.commands.specs.declared.codes.Refusal.TheVariants.{Code as Answer};

use crate::{Code, Local, NoCode, NoCommand, NoInformation, NoMode, Refusal};

// Place 3: no command.
impl From<NoCommand> for Refusal {
    ghost from_gives = { λ e r. r ≡ Answer UnknownCommand };

    fn from(_none: NoCommand) -> Refusal {
        Refusal::Code(Code::UnknownCommand)
    }
}

// Place 7: what a Get asks for is no information.
impl From<NoInformation> for Refusal {
    ghost from_gives = { λ e r. r ≡ Answer WrongParameter };

    fn from(_none: NoInformation) -> Refusal {
        Refusal::Code(Code::WrongParameter)
    }
}

// Place 7: what an Erase goes by is no mode.
impl From<NoMode> for Refusal {
    ghost from_gives = { λ e r. r ≡ Answer WrongParameter };

    fn from(_none: NoMode) -> Refusal {
        Refusal::Code(Code::WrongParameter)
    }
}

// An answer whose code is none.
impl From<NoCode> for Local {
    ghost from_gives = { λ e r. r ≡ UnknownCode };

    fn from(_none: NoCode) -> Local {
        Local::UnknownCode
    }
}
