// What a flaw of some bytes is called: in a command frame, and in an answer frame.
ghost use Rattle.std.specs.Prelude.{◌≡◌};
ghost use Rattle.frame.specs.Flaws.{stopped_by, unreadable};

use crate::layout::Flaw;
use commands::{Code, Local, Refusal};

impl From<Flaw> for Refusal {
    ghost from_gives = { λ e r. r ≡ stopped_by e };

    fn from(flaw: Flaw) -> Refusal {
        match flaw {
            Flaw::WrongHead => Refusal::Local(Local::WrongHead),
            Flaw::WrongTotal => Refusal::Local(Local::WrongTotal),
            Flaw::TooLong => Refusal::Code(Code::WrongLength),
            Flaw::Damaged => Refusal::Code(Code::WrongChecksum),
        }
    }
}

impl From<Flaw> for Local {
    ghost from_gives = { λ e r. r ≡ unreadable e };

    fn from(flaw: Flaw) -> Local {
        match flaw {
            Flaw::WrongHead => Local::WrongHead,
            Flaw::WrongTotal => Local::WrongTotal,
            Flaw::TooLong => Local::LongAnswer,
            Flaw::Damaged => Local::DamagedAnswer,
        }
    }
}
