// The seven commands, what Get and Erase can name, the protection level, and which command a level allows.
ghost use Rattle.std.specs.Prelude.{◌≡◌};
ghost use Rattle.std.specs.Option.{ok_or};
ghost use Rattle.commands.specs.Kinds.{kind_byte, kind_of, supported as supported_bytes, level_from, level_byte, forbidden, no_command, information_of, no_information, mode_of, no_mode};

// The commands of the part.
#[derive(Clone, Copy, PartialEq, Eq, Debug)]
pub enum Kind {
    Get,
    Read,
    Write,
    MemoryCrc,
    Erase,
    Protect,
    Unprotect,
}

// The command's byte in a frame.
impl From<Kind> for u8 {
    ghost from_gives = { λ kind byte. byte ≡ kind_byte kind };

    fn from(kind: Kind) -> u8 {
        match kind {
            Kind::Get => 0x01,
            Kind::Read => 0xF1,
            Kind::Write => 0xF2,
            Kind::MemoryCrc => 0xF3,
            Kind::Erase => 0xF4,
            Kind::Protect => 0xA0,
            Kind::Unprotect => 0xA1,
        }
    }
}

// A byte that is no command's.
#[derive(Clone, Copy, PartialEq, Eq, Debug)]
pub struct NoCommand(pub u8);

// The command that a byte stands for.
impl TryFrom<u8> for Kind {
    type Error = NoCommand;

    ghost try_from_gives = { λ byte r. r ≡ ok_or (kind_of byte) (no_command byte) };

    fn try_from(byte: u8) -> Result<Kind, NoCommand> {
        match byte {
            0x01 => Ok(Kind::Get),
            0xF1 => Ok(Kind::Read),
            0xF2 => Ok(Kind::Write),
            0xF3 => Ok(Kind::MemoryCrc),
            0xF4 => Ok(Kind::Erase),
            0xA0 => Ok(Kind::Protect),
            0xA1 => Ok(Kind::Unprotect),
            _ => Err(NoCommand(byte)),
        }
    }
}

// What Get answers as the list of commands: the connection byte, the seven commands, and two bytes of zero.
pub const SUPPORTED: [u8; 10] = [0x5A, 0x01, 0xF1, 0xF2, 0xF3, 0xF4, 0xA0, 0xA1, 0x00, 0x00];

// The ten bytes of the constant.
pub fn supported() -> [u8; 10]
    ensures is_the_list_of_commands { result ≡ supported_bytes }
{
    SUPPORTED
}

// The protection level: 0 is open, 1 is locked.
#[derive(Clone, Copy, PartialEq, Eq, Debug)]
pub enum Level {
    Open,
    Locked,
}

// The level that a number stands for: any other than 0 counts as 1.
impl From<u32> for Level {
    ghost from_gives = { λ number level. level ≡ level_from number };

    fn from(number: u32) -> Level {
        if number == 0 {
            Level::Open
        } else {
            Level::Locked
        }
    }
}

// The level as the byte that Get tells.
impl From<Level> for u8 {
    ghost from_gives = { λ level byte. byte ≡ level_byte level };

    fn from(level: Level) -> u8 {
        match level {
            Level::Open => 0,
            Level::Locked => 1,
        }
    }
}

impl Level {
    // Whether a command is turned down at the level.
    pub fn forbids(self, kind: Kind) -> bool
        ensures is_the_level_place { result ≡ forbidden self kind }
    {
        match (self, kind) {
            (Level::Open, Kind::Unprotect) => true,
            (Level::Open, _) => false,
            (Level::Locked, Kind::Get) => false,
            (Level::Locked, Kind::Unprotect) => false,
            (Level::Locked, _) => true,
        }
    }
}

// What Get can ask for.
#[derive(Clone, Copy, PartialEq, Eq, Debug)]
pub enum Information {
    // the list of commands
    Commands,
    // the part's own number
    Uid,
    // the protection level
    Level,
    // the loader's version
    Version,
    // the device, its package, and the sizes of its memories
    Device,
}

// A number that is no information's.
#[derive(Clone, Copy, PartialEq, Eq, Debug)]
pub struct NoInformation(pub u8);

// The information that a number stands for.
impl TryFrom<u8> for Information {
    type Error = NoInformation;

    ghost try_from_gives = { λ number r. r ≡ ok_or (information_of number) (no_information number) };

    fn try_from(number: u8) -> Result<Information, NoInformation> {
        match number {
            0 => Ok(Information::Commands),
            1 => Ok(Information::Uid),
            2 => Ok(Information::Level),
            3 => Ok(Information::Version),
            4 => Ok(Information::Device),
            _ => Err(NoInformation(number)),
        }
    }
}

// Which pages an Erase can name.
#[derive(Clone, Copy, PartialEq, Eq, Debug)]
pub enum EraseMode {
    // pages, from one on
    Pages,
    // blocks of eight pages, from one on
    Blocks,
    // all pages
    All,
}

// A byte that is no mode's.
#[derive(Clone, Copy, PartialEq, Eq, Debug)]
pub struct NoMode(pub u8);

// The mode that a byte stands for.
impl TryFrom<u8> for EraseMode {
    type Error = NoMode;

    ghost try_from_gives = { λ byte r. r ≡ ok_or (mode_of byte) (no_mode byte) };

    fn try_from(byte: u8) -> Result<EraseMode, NoMode> {
        match byte {
            0xAA => Ok(EraseMode::Pages),
            0x55 => Ok(EraseMode::Blocks),
            0x3C => Ok(EraseMode::All),
            _ => Err(NoMode(byte)),
        }
    }
}
