// Writing one frame, the same for commands and answers.
ghost use Rattle.std.specs.Prelude.{◌≡◌, ℕ, ◌+◌, ◌≤◌, List, [], ◌∷◌, ◌++◌, length};
ghost use Rattle.checksum.specs.Crc.{crc};
ghost use Rattle.commands.specs.Fields.{bytes_of_two};
ghost use Rattle.frame.specs.Layout.{total, check_bytes, framed, framed_within, headed, counted, over};

use crate::opening::frame_size;
use checksum::Checksum;

// Puts the bytes after the `at` bytes that stand at the buffer's head, and tells how many stand there then.
fn put(buffer: &mut [u8], at: usize, bytes: &[u8]) -> usize
    requires { at + length bytes.now ≤ length buffer.old }
    ensures end { result ≡ at + length bytes.now }
    ensures appended { (so old : List ℕ) → length so ≡ at → buffer.old ≡ headed so old → buffer.new ≡ headed (so ++ bytes.now) old }
{
    let end = at + bytes.len();
    buffer[at..end].copy_from_slice(bytes);
    end
}

// The checksum of `first` and then `second`.
fn check_of(first: &[u8], second: &[u8]) -> u16
    ensures { result ≡ crc (first.now ++ second.now) }
{
    let mut sum = Checksum::new();
    sum.feed(first);
    sum.feed(second);
    sum.finish()
}

// Puts the frame with that head and tag at the head of a buffer that holds it. Its data are `first` and then `second`.
fn put_all(buffer: &mut [u8], head: u8, tag: u8, first: &[u8], second: &[u8]) -> usize
    requires { (length first.now + length second.now ≤ 65535) × (total (length first.now + length second.now) ≤ length buffer.old) }
    ensures count { result ≡ total (length first.now + length second.now) }
    ensures frame { buffer.new ≡ headed (framed head tag (first.now ++ second.now)) buffer.old }
{
    let count = first.len() + second.len();
    let [high, low] = (count as u16).to_be_bytes();
    let start = put(buffer, 0, &[head, tag, high, low]);
    let middle = put(buffer, start, first);
    let end = put(buffer, middle, second);
    if count == 0 {
        return end;
    }
    put(buffer, end, &check_of(first, second).to_be_bytes())
}

// Puts the frame with that head and tag at the head of the buffer and tells how many bytes it has. Its data are `first` and
// then `second`. Where the buffer is too small, or a length field cannot name so much data, nothing is written.
pub fn put_frame(buffer: &mut [u8], head: u8, tag: u8, first: &[u8], second: &[u8]) -> Option<usize>
    ensures tells_how_many_bytes { result ≡ counted (framed_within (length buffer.old) head tag (first.now ++ second.now)) }
    ensures writes_the_frame_and_no_more { buffer.new ≡ over (framed_within (length buffer.old) head tag (first.now ++ second.now)) buffer.old }
{
    if first.len() > 65535 || second.len() > 65535 - first.len() {
        return None;
    }
    let count = first.len() + second.len();
    if buffer.len() < frame_size(count as u16) {
        return None;
    }
    Some(put_all(buffer, head, tag, first, second))
}
