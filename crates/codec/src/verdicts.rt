// Judging a frame as a part would.
ghost use Rattle.std.specs.Prelude.{◌≡◌, Err};
ghost use Rattle.codec.specs.Verdict.{pages_counted, code_from, verdict_of};

use commands::{Code, Level, Local, Refusal};
use frame::judge;

// The pages that a number counts as: the greatest multiple of 8 in it, at most 1024.
fn counted(pages: u32) -> u32
    ensures { result ≡ pages_counted pages }
{
    (pages / 8 * 8).min(1024)
}

// A refusal as a code, where it is one.
fn code_of(refusal: Refusal) -> Result<Code, Local>
    ensures { result ≡ code_from (Err refusal) }
{
    match refusal {
        Refusal::Code(code) => Ok(code),
        Refusal::Local(local) => Err(local),
    }
}

// The code that a part at the level and with so many pages answers to the frame, or `Code::Done` where it does not stop it.
pub fn verdict(frame: &[u8], level: u32, pages: u32) -> Result<Code, Local>
    ensures is_the_code_of_the_first_stop { result ≡ verdict_of level pages frame.now }
{
    match judge(frame, Level::from(level), counted(pages)) {
        Ok(_) => Ok(Code::Done),
        Err(refusal) => code_of(refusal),
    }
}
