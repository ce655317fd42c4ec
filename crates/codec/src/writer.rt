// Writing command frames.
ghost use Rattle.std.specs.Prelude.{◌≡◌, ◌+◌, ◌≤◌, Bool, true, false, ◌∷◌, ◌++◌, length, Ok};
ghost use Rattle.commands.specs.Fields.{bytes_of_two, bytes_of_four};
ghost use Rattle.commands.specs.Kinds.{kind_byte};
ghost use Rattle.frame.specs.Layout.{framed, headed};
ghost use Rattle.commands.specs.Requests.{request_data, write};
ghost use Rattle.codec.specs.Writing.{asking, frame_for, unstopped, demanded, written_within, count_written, left_by, written_count, written_buffer, WrittenFramesPass, PassingFramesAreWritten, FramesFitTheBuffer};

use crate::request::Request;
use commands::{
    Code, Information, Kind, Local, Refusal, aligned, erase_known, in_one_page, some_words,
    whole_words,
};
use frame::put_frame;

// The code for a test that is to hold.
fn unless(holds: bool, code: Code) -> Result<(), Refusal>
    ensures { result ≡ demanded holds code }
{
    if holds {
        Ok(())
    } else {
        Err(Refusal::Code(code))
    }
}

// The same for a Write.
fn check_write(address: u32, bytes: &[u8]) -> Result<(), Refusal>
    ensures { result ≡ unstopped (write address bytes.now) tt }
{
    let count = bytes.len();
    unless(whole_words(count), Code::WrongLength)?;
    unless(aligned(address), Code::NotAligned)?;
    unless(in_one_page(address, count as u32), Code::WrongParameter)
}

// The first of places 5 to 7 that stops a request: length, alignment, parameter.
fn check(request: Request<&[u8]>) -> Result<(), Refusal>
    ensures { result ≡ unstopped (asking request.entry) tt }
{
    match request {
        Request::Get { information } => unless(
            Information::try_from(information).is_ok(),
            Code::WrongParameter,
        ),
        Request::Read { address, count } => {
            unless(aligned(address), Code::NotAligned)?;
            unless(whole_words(count as usize), Code::WrongParameter)
        }
        Request::Write { address, bytes } => check_write(address, bytes),
        Request::MemoryCrc { address, count, .. } => {
            unless(aligned(address), Code::NotAligned)?;
            unless(some_words(count), Code::WrongParameter)
        }
        Request::Erase { mode, index, count } => unless(
            erase_known(mode, index, count),
            Code::WrongParameter,
        ),
        Request::Protect | Request::Unprotect => Ok(()),
    }
}

// Puts a command frame at the head of a buffer that holds it.
fn put(buffer: &mut [u8], kind: Kind, first: &[u8], second: &[u8]) -> Result<usize, Refusal>
    requires { (length first.now + length second.now ≤ 516) × (522 ≤ length buffer.old) }
    ensures count { result ≡ Ok (length (framed 0x85 (kind_byte kind) (first.now ++ second.now))) }
    ensures frame { buffer.new ≡ headed (framed 0x85 (kind_byte kind) (first.now ++ second.now)) buffer.old }
{
    put_frame(buffer, 0x85, u8::from(kind), first, second).ok_or(Refusal::Local(Local::SmallBuffer))
}

// The data field of a Memory CRC behind the address.
fn memory_crc_rest(count: u32, value: u16) -> [u8; 6]
    ensures { result ≡ bytes_of_four count ++ bytes_of_two value }
{
    let c = count.to_be_bytes();
    let v = value.to_be_bytes();
    [c[0], c[1], c[2], c[3], v[0], v[1]]
}

// The data field of an Erase before the count.
fn erase_start(mode: u8, index: u32) -> [u8; 5]
    ensures { result ≡ mode ∷ bytes_of_four index }
{
    let i = index.to_be_bytes();
    [mode, i[0], i[1], i[2], i[3]]
}

// Puts a request's frame at the head of a buffer that holds it.
fn put_request(request: Request<&[u8]>, buffer: &mut [u8]) -> Result<usize, Refusal>
    requires { (length (request_data (asking request)) ≤ 516) × (522 ≤ length buffer.old) }
    ensures count { result ≡ Ok (length (frame_for (asking request.entry))) }
    ensures frame { buffer.new ≡ headed (frame_for (asking request.entry)) buffer.old }
{
    match request {
        Request::Get { information } => put(buffer, Kind::Get, &[information], &[]),
        Request::Read { address, count } => put(
            buffer,
            Kind::Read,
            &address.to_be_bytes(),
            &count.to_be_bytes(),
        ),
        Request::Write { address, bytes } => put(
            buffer,
            Kind::Write,
            &address.to_be_bytes(),
            bytes,
        ),
        Request::MemoryCrc {
            address,
            count,
            value,
        } => {
            put(
                buffer,
                Kind::MemoryCrc,
                &address.to_be_bytes(),
                &memory_crc_rest(count, value),
            )
        }
        Request::Erase { mode, index, count } => {
            put(
                buffer,
                Kind::Erase,
                &erase_start(mode, index),
                &count.to_be_bytes(),
            )
        }
        Request::Protect => put(buffer, Kind::Protect, &[], &[]),
        Request::Unprotect => put(buffer, Kind::Unprotect, &[], &[]),
    }
}

// Puts a request's frame at the head of the buffer, where the buffer is large enough and no place stops the request.
fn write_checked(request: Request<&[u8]>, buffer: &mut [u8]) -> Result<usize, Refusal>
    ensures count { result ≡ count_written (written_within (length buffer.old) (asking request.entry)) }
    ensures frame { buffer.new ≡ left_by (written_within (length buffer.old) (asking request.entry)) buffer.old }
{
    if buffer.len() < 522 {
        return Err(Refusal::Local(Local::SmallBuffer));
    }
    check(request)?;
    put_request(request, buffer)
}

// Puts the request's frame at the head of the buffer and tells how many bytes it has.
pub fn write_request(request: Request<&[u8]>, buffer: &mut [u8]) -> Result<usize, Refusal>
    ensures tells_how_many_bytes_or_the_first_refusal { result ≡ written_count (length buffer.old) (asking request.entry) }
    ensures writes_the_frame_and_no_more { buffer.new ≡ written_buffer buffer.old (asking request.entry) }
    ensures written_frames_pass { WrittenFramesPass }
    ensures passing_frames_are_written { PassingFramesAreWritten }
    ensures frames_fit_the_buffer { FramesFitTheBuffer }
{
    write_checked(request, buffer)
}
