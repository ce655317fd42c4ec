// The codes of answer frames, and the refusals that never reach the wire.
ghost use Rattle.std.specs.Prelude.{◌≡◌};
ghost use Rattle.std.specs.Option.{ok_or};
ghost use Rattle.commands.specs.Codes.{code_byte, code_of, local_number, no_code};

// The code of an answer frame.
#[derive(Clone, Copy, PartialEq, Eq, Debug)]
pub enum Code {
    // served
    Done,
    // the protection level does not allow the command
    NotAllowed,
    // the flash refused
    FlashRefused,
    // a length field that is too large, or not the command's
    WrongLength,
    // the checksum does not belong to the data
    WrongChecksum,
    // an address that is no multiple of 4
    NotAligned,
    // an address, index or count beyond the memory
    OutOfRange,
    // a parameter that the command does not know
    WrongParameter,
    // no command of the part
    UnknownCommand,
}

// The code's byte in an answer frame.
impl From<Code> for u8 {
    ghost from_gives = { λ code byte. byte ≡ code_byte code };

    fn from(code: Code) -> u8 {
        match code {
            Code::Done => 0x90,
            Code::NotAllowed => 0x63,
            Code::FlashRefused => 0x65,
            Code::WrongLength => 0x67,
            Code::WrongChecksum => 0x68,
            Code::NotAligned => 0x69,
            Code::OutOfRange => 0x6A,
            Code::WrongParameter => 0x6B,
            Code::UnknownCommand => 0x6D,
        }
    }
}

// A byte that is no code's.
#[derive(Clone, Copy, PartialEq, Eq, Debug)]
pub struct NoCode(pub u8);

// The code that a byte stands for.
impl TryFrom<u8> for Code {
    type Error = NoCode;

    ghost try_from_gives = { λ byte r. r ≡ ok_or (code_of byte) (no_code byte) };

    fn try_from(byte: u8) -> Result<Code, NoCode> {
        match byte {
            0x90 => Ok(Code::Done),
            0x63 => Ok(Code::NotAllowed),
            0x65 => Ok(Code::FlashRefused),
            0x67 => Ok(Code::WrongLength),
            0x68 => Ok(Code::WrongChecksum),
            0x69 => Ok(Code::NotAligned),
            0x6A => Ok(Code::OutOfRange),
            0x6B => Ok(Code::WrongParameter),
            0x6D => Ok(Code::UnknownCommand),
            _ => Err(NoCode(byte)),
        }
    }
}

// A refusal on the caller's own side: it is no code and never stands in a frame.
#[derive(Clone, Copy, PartialEq, Eq, Debug)]
pub enum Local {
    // the buffer is too small
    SmallBuffer,
    // the first byte is not the frame's head
    WrongHead,
    // fewer or more bytes than the frame has
    WrongTotal,
    // an answer's length field above 512
    LongAnswer,
    // an answer's checksum does not belong to its data
    DamagedAnswer,
    // an answer's code is none of the nine
    UnknownCode,
}

// The refusal's number, from 1 to 6.
impl From<Local> for u8 {
    ghost from_gives = { λ local number. number ≡ local_number local };

    fn from(local: Local) -> u8 {
        match local {
            Local::SmallBuffer => 1,
            Local::WrongHead => 2,
            Local::WrongTotal => 3,
            Local::LongAnswer => 4,
            Local::DamagedAnswer => 5,
            Local::UnknownCode => 6,
        }
    }
}

// Why something was turned down: on this side, or with the code that the part answers.
#[derive(Clone, Copy, PartialEq, Eq, Debug)]
pub enum Refusal {
    Local(Local),
    Code(Code),
}
