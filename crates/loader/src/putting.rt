// Answer bytes at the head of the caller's buffer.
ghost use Rattle.std.specs.Prelude.{◌≡◌, ◌≤◌, [], ◌∷◌, length};
ghost use Rattle.areas.specs.Words.{bytes_of_words};
ghost use Rattle.commands.specs.Codes.{code_byte};
ghost use Rattle.commands.specs.Kinds.{information_number};
ghost use Rattle.frame.specs.Layout.{answer_head, framed};
ghost use Rattle.memory.specs.Portions.{words_at};
ghost use Rattle.part.specs.Receiving.{data_answer, information, version_told, device_told};
ghost use Rattle.loader.specs.AnswerBuffers.{Puts};

use crate::answer_buffer::AnswerBuffer;
use areas::Area;
use commands::{Code, Information, Level, supported};
use flash::Flash;
use frame::put_frame;
use part::Identity;

// Each call puts one answer at the head, and tells how many bytes the answer has.
impl AnswerBuffer<'_> {
    // The answer to the connection byte.
    pub(crate) fn put_greeting(&mut self) -> usize
        ensures count { result ≡ 1 }
        ensures puts { Puts (answer_head ∷ []) self.old self.new }
    {
        self.bytes[0..1].copy_from_slice(&[0xB3]);
        1
    }

    // An answer frame with a code and data.
    pub(crate) fn put_answer(&mut self, code: Code, content: &[u8]) -> usize
        requires { length content.now ≤ 512 }
        ensures count { result ≡ length (framed answer_head (code_byte code) content.now) }
        ensures puts { Puts (framed answer_head (code_byte code) content.now) self.old self.new }
    {
        put_frame(self.bytes, 0xB3, u8::from(code), content, &[]).unwrap_or(0)
    }

    // What Get tells.
    pub(crate) fn put_information(
        &mut self,
        identity: &Identity,
        level: Level,
        pages: u32,
        what: Information,
    ) -> usize
        ensures count { result ≡ length (data_answer (information identity.now level pages (information_number what))) }
        ensures puts { Puts (data_answer (information identity.now level pages (information_number what))) self.old self.new }
    {
        match what {
            Information::Commands => self.put_answer(Code::Done, &supported()),
            Information::Uid => self.put_answer(Code::Done, &identity.uid),
            Information::Level => self.put_answer(Code::Done, &[u8::from(level)]),
            Information::Version => self.put_answer(Code::Done, &version_bytes(identity)),
            Information::Device => self.put_answer(Code::Done, &device_bytes(identity, pages)),
        }
    }

    // The words of an area, at most 128.
    pub(crate) fn put_words<F: Flash>(
        &mut self,
        flash: &F,
        area: Area,
        first: u32,
        count: u32,
    ) -> usize
        requires { count ≤ 128 }
        ensures count { result ≡ length (data_answer (bytes_of_words (words_at (F.meaning flash.now) area first count))) }
        ensures puts { Puts (data_answer (bytes_of_words (words_at (F.meaning flash.now) area first count))) self.old self.new }
    {
        let mut bytes = [0u8; 512];
        let size = memory::copy_words(flash, area, first, count, &mut bytes);
        self.put_answer(Code::Done, &bytes[0..size])
    }
}

// The version and two bytes of zero.
fn version_bytes(identity: &Identity) -> [u8; 4]
    ensures { result ≡ version_told identity.now }
{
    let [high, low] = identity.version.to_be_bytes();
    [high, low, 0, 0]
}

// Device, package, and the sizes of flash and SRAM in KiB.
fn device_bytes(identity: &Identity, pages: u32) -> [u8; 6]
    ensures { result ≡ device_told identity.now pages }
{
    let [flash_high, flash_low] = ((pages / 2 % 65536) as u16).to_be_bytes();
    let [sram_high, sram_low] = identity.sram.to_be_bytes();
    [
        identity.device,
        identity.package,
        flash_high,
        flash_low,
        sram_high,
        sram_low,
    ]
}
