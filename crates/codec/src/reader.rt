// Reading answer frames.
ghost use Rattle.std.specs.Prelude.{◌≡◌};
ghost use Rattle.codec.specs.Reading.{answered, reading, AnswersReadBack};

use crate::answer::Answer;
use commands::{Code, Local};
use frame::open_frame;

// Takes one answer frame apart.
fn take_apart<'a>(input: &'a [u8]) -> Result<Answer<'a>, Local>
    ensures { answered result ≡ reading input.now }
{
    let content = open_frame(input, 0xB3, 512)?;
    Ok(Answer {
        code: Code::try_from(content.tag)?,
        at: content.at,
        bytes: content.bytes,
    })
}

// Reads exactly one answer frame.
pub fn read_answer<'a>(input: &'a [u8]) -> Result<Answer<'a>, Local>
    ensures is_code_and_data_or_the_first_refusal { answered result ≡ reading input.now }
    ensures answers_read_back { AnswersReadBack }
{
    take_apart(input)
}
