// Taking one whole frame apart.
ghost use Rattle.std.specs.Prelude.{◌≡◌, ◌+◌, ◌≤◌, length, take, drop, ◌==◌};
ghost use Rattle.checksum.specs.Crc.{crc};
ghost use Rattle.commands.specs.Fields.{two, four};
ghost use Rattle.frame.specs.Layout.{total, held, opened};

use crate::layout::{Content, Flaw};

// So many bytes from a place on.
fn bytes_at<const N: usize>(bytes: &[u8], at: usize) -> [u8; N]
    requires { at + N ≤ length bytes.now }
    ensures { result ≡ take N (drop at bytes.now) }
{
    let mut field = [0; N];
    field.copy_from_slice(&bytes[at..at + N]);
    field
}

// The number in two bytes, the high byte first.
pub(crate) fn two_at(bytes: &[u8], at: usize) -> u16
    requires { at + 2 ≤ length bytes.now }
    ensures { result ≡ two bytes.now at }
{
    u16::from_be_bytes(bytes_at(bytes, at))
}

// The number in four bytes, the high byte first.
pub(crate) fn four_at(bytes: &[u8], at: usize) -> u32
    requires { at + 4 ≤ length bytes.now }
    ensures { result ≡ four bytes.now at }
{
    u32::from_be_bytes(bytes_at(bytes, at))
}

// How many bytes a frame with so many bytes of data has.
pub fn frame_size(count: u16) -> usize
    ensures is_four_or_six_more { result ≡ total count }
{
    if count == 0 { 4 } else { 6 + count as usize }
}

// Whether a checksum is that of the bytes.
pub fn belongs(check: u16, bytes: &[u8]) -> bool
    ensures tells_whether_it_is_their_checksum { result ≡ (check == crc bytes.now) }
{
    check == checksum::checksum_of(bytes)
}

// Takes the bytes apart as one whole frame with that head and at most so many bytes of data.
pub fn open_frame<'a>(frame: &'a [u8], head: u8, most: u16) -> Result<Content<'a>, Flaw>
    ensures is_the_content_or_the_first_flaw { held result ≡ opened head most frame.now }
{
    if frame.len() < 4 {
        return Err(Flaw::WrongTotal);
    }
    if frame[0] != head {
        return Err(Flaw::WrongHead);
    }
    let count = two_at(frame, 2);
    if count > most {
        return Err(Flaw::TooLong);
    }
    if frame.len() != frame_size(count) {
        return Err(Flaw::WrongTotal);
    }
    let end = 4 + count as usize;
    let bytes = &frame[4..end];
    if count != 0 && !belongs(two_at(frame, end), bytes) {
        return Err(Flaw::Damaged);
    }
    Ok(Content {
        tag: frame[1],
        at: 4,
        bytes,
    })
}
