// Where a frame is stopped, and the command that a frame is.
ghost use Rattle.std.specs.Prelude.{◌≡◌, true, false, length, IfOk};
ghost use Rattle.frame.specs.Places.{asked, asked_or_refused, Asks, Placed, Standing, judged, Lawful};
ghost use Rattle.commands.specs.Requests.{request_of, wrong_length, misaligned, wrong_parameter, out_of_range};

use crate::command::Command;
use crate::opening::{four_at, open_frame, two_at};
use crate::write_data::WriteData;
use areas::{Area, addressable};
use commands::{
    Code, EraseMode, Information, Kind, Level, Refusal, aligned, some_words, whole_words,
    wrong_length,
};

// The command of a data field that has the command's length. A number that names no information and no mode is
// place 7's, which comes next: place 6 has nothing to stop there.
fn command_of<'a>(kind: Kind, bytes: &'a [u8]) -> Result<Command<'a>, Refusal>
    requires { wrong_length kind (length bytes.now) ≡ false }
    ensures asks { Asks (request_of kind bytes.now) result }
    ensures at { IfOk result (Standing bytes.now) }
{
    Ok(match kind {
        Kind::Get => Command::Get {
            information: Information::try_from(bytes[0])?,
        },
        Kind::Read => Command::Read {
            address: four_at(bytes, 0),
            count: two_at(bytes, 4),
        },
        Kind::Write => Command::Write {
            at: 8,
            data: WriteData::new(four_at(bytes, 0), &bytes[4..]),
        },
        Kind::MemoryCrc => Command::MemoryCrc {
            address: four_at(bytes, 0),
            count: four_at(bytes, 4),
            value: two_at(bytes, 8),
        },
        Kind::Erase => Command::Erase {
            mode: EraseMode::try_from(bytes[0])?,
            index: four_at(bytes, 1),
            count: four_at(bytes, 5),
        },
        Kind::Protect => Command::Protect,
        Kind::Unprotect => Command::Unprotect,
    })
}

// Place 6 for a command.
#[inline(always)]
fn command_misaligned(command: Command<'_>) -> bool
    ensures { result ≡ misaligned (asked command.entry) }
{
    match command {
        Command::Read { address, .. } | Command::MemoryCrc { address, .. } => !aligned(address),
        Command::Write { data, .. } => !aligned(data.address()),
        _ => false,
    }
}

// Place 7 for a command.
#[inline(always)]
fn command_unknown(command: Command<'_>) -> bool
    ensures { result ≡ wrong_parameter (asked command.entry) }
{
    match command {
        Command::Read { count, .. } => !whole_words(count as usize),
        Command::Write { data, .. } => !data.in_one_page(),
        Command::MemoryCrc { count, .. } => !some_words(count),
        Command::Erase { mode, index, count } => !mode.knows(index, count),
        Command::Get { .. } | Command::Protect | Command::Unprotect => false,
    }
}

// Place 8 for a command.
#[inline(always)]
fn command_beyond(command: Command<'_>, pages: u32) -> bool
    ensures { result ≡ out_of_range pages (asked command.entry) }
{
    match command {
        Command::Read { address, count } => !addressable(pages, address, count as u32),
        Command::Write { data, .. } => !data.addressable(pages),
        Command::MemoryCrc { address, count, .. } => !Area::User.holds(pages, address, count),
        Command::Erase { mode, index, count } => !mode.within(pages, index, count),
        Command::Get { .. } | Command::Protect | Command::Unprotect => false,
    }
}

// What some bytes ask of a part at a level and with so many pages, or the first place that stops them.
pub fn judge<'a>(frame: &'a [u8], level: Level, pages: u32) -> Result<Command<'a>, Refusal>
    ensures is_the_command_or_the_first_stop { asked_or_refused result ≡ judged level pages frame.now }
    ensures write_data_stand_in_the_frame { IfOk result (Placed frame.now) }
    ensures a_command_keeps_the_rules { IfOk result (λ c. Lawful pages c) }
{
    let content = open_frame(frame, 0x85, 516)?;
    let kind = Kind::try_from(content.tag)?;
    if level.forbids(kind) {
        return Err(Refusal::Code(Code::NotAllowed));
    }
    if wrong_length(kind, content.bytes.len()) {
        return Err(Refusal::Code(Code::WrongLength));
    }
    let command = command_of(kind, content.bytes)?;
    if command_misaligned(command) {
        return Err(Refusal::Code(Code::NotAligned));
    }
    if command_unknown(command) {
        return Err(Refusal::Code(Code::WrongParameter));
    }
    if command_beyond(command, pages) {
        return Err(Refusal::Code(Code::OutOfRange));
    }
    Ok(command)
}
