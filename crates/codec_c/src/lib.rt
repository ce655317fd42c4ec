// The writer and the verdict for callers in C, on numbers and byte slices. `include/ciu32.h` declares them.
#![tactic(auto)]

ghost use Rattle.std.specs.Prelude.{◌≡◌, length};
ghost use Rattle.checksum.specs.Crc.{crc};
ghost use Rattle.commands.specs.Requests.{get, read, write, memory_crc, erase, protect, unprotect};
ghost use Rattle.codec.specs.Verdict.{verdict_of};
ghost use Rattle.codec.specs.Writing.{asking, written_count, written_buffer};
ghost use Rattle.codec_c.specs.Numbers.{refusal_number, count_number, verdict_number};

use checksum::checksum_of;
use codec::{Request, verdict, write_request};
use commands::Refusal;

// A refusal as one number.
fn number(refusal: Refusal) -> usize
    ensures { result ≡ refusal_number refusal }
{
    match refusal {
        Refusal::Code(code) => 0x10000 + u8::from(code) as usize,
        Refusal::Local(local) => 0x20000 + u8::from(local) as usize,
    }
}

// Writes a request's frame, with the result as one number.
fn export(request: Request<&[u8]>, buffer: &mut [u8]) -> usize
    ensures count { result ≡ count_number (written_count (length buffer.old) (asking request.entry)) }
    ensures frame { buffer.new ≡ written_buffer buffer.old (asking request.entry) }
{
    write_request(request, buffer).unwrap_or_else(number)
}

// The verdict on a frame.
#[unsafe(no_mangle)]
pub extern "C" fn ciu32_verdict(frame: &[u8], level: u32, pages: u32) -> usize
    ensures is_the_number_of_the_verdict { result ≡ verdict_number (verdict_of level pages frame.now) }
{
    number(verdict(frame, level, pages).map_or_else(Refusal::Local, Refusal::Code))
}

// Writes the frame of a Get.
#[unsafe(no_mangle)]
pub extern "C" fn ciu32_get(information: u8, buffer: &mut [u8]) -> usize
    ensures tells_how_many_bytes_or_the_first_refusal { result ≡ count_number (written_count (length buffer.old) (get information)) }
    ensures writes_the_frame_and_no_more { buffer.new ≡ written_buffer buffer.old (get information) }
{
    export(Request::get(information), buffer)
}

// Writes the frame of a Read.
#[unsafe(no_mangle)]
pub extern "C" fn ciu32_read(address: u32, count: u16, buffer: &mut [u8]) -> usize
    ensures tells_how_many_bytes_or_the_first_refusal { result ≡ count_number (written_count (length buffer.old) (read address count)) }
    ensures writes_the_frame_and_no_more { buffer.new ≡ written_buffer buffer.old (read address count) }
{
    export(Request::read(address, count), buffer)
}

// Writes the frame of a Write.
#[unsafe(no_mangle)]
pub extern "C" fn ciu32_write(address: u32, bytes: &[u8], buffer: &mut [u8]) -> usize
    ensures tells_how_many_bytes_or_the_first_refusal { result ≡ count_number (written_count (length buffer.old) (write address bytes.now)) }
    ensures writes_the_frame_and_no_more { buffer.new ≡ written_buffer buffer.old (write address bytes.now) }
{
    export(Request::write(address, bytes), buffer)
}

// Writes the frame of a Memory CRC.
#[unsafe(no_mangle)]
pub extern "C" fn ciu32_memory_crc(address: u32, count: u32, value: u16, buffer: &mut [u8]) -> usize
    ensures tells_how_many_bytes_or_the_first_refusal { result ≡ count_number (written_count (length buffer.old) (memory_crc address count value)) }
    ensures writes_the_frame_and_no_more { buffer.new ≡ written_buffer buffer.old (memory_crc address count value) }
{
    export(Request::memory_crc(address, count, value), buffer)
}

// Writes the frame of an Erase.
#[unsafe(no_mangle)]
pub extern "C" fn ciu32_erase(mode: u8, index: u32, count: u32, buffer: &mut [u8]) -> usize
    ensures tells_how_many_bytes_or_the_first_refusal { result ≡ count_number (written_count (length buffer.old) (erase mode index count)) }
    ensures writes_the_frame_and_no_more { buffer.new ≡ written_buffer buffer.old (erase mode index count) }
{
    export(Request::erase(mode, index, count), buffer)
}

// Writes the frame of a Protect.
#[unsafe(no_mangle)]
pub extern "C" fn ciu32_protect(buffer: &mut [u8]) -> usize
    ensures tells_how_many_bytes_or_the_first_refusal { result ≡ count_number (written_count (length buffer.old) protect) }
    ensures writes_the_frame_and_no_more { buffer.new ≡ written_buffer buffer.old protect }
{
    export(Request::protect(), buffer)
}

// Writes the frame of an Unprotect.
#[unsafe(no_mangle)]
pub extern "C" fn ciu32_unprotect(buffer: &mut [u8]) -> usize
    ensures tells_how_many_bytes_or_the_first_refusal { result ≡ count_number (written_count (length buffer.old) unprotect) }
    ensures writes_the_frame_and_no_more { buffer.new ≡ written_buffer buffer.old unprotect }
{
    export(Request::unprotect(), buffer)
}

// The checksum of the bytes: a number of its own and none of the results above.
#[unsafe(no_mangle)]
pub extern "C" fn ciu32_checksum(bytes: &[u8]) -> u16
    ensures is_their_checksum { result ≡ crc bytes.now }
{
    checksum_of(bytes)
}
