// The lines that the frame tool answers with.
ghost use Rattle.std.specs.Prelude.{◌≡◌, [], ◌∷◌, IfOk, Ok, Err};
ghost use Rattle.commands.specs.Codes.{code_byte};
ghost use Rattle.codec.specs.Reading.{reading};
ghost use Rattle.codec.specs.Verdict.{verdict_of};
ghost use Rattle.codec.specs.Writing.{asking, written};
ghost use Rattle.script.specs.Answering.{local_line, frame_line, said_line, verdict_line, answer_to, Replied};
ghost use Rattle.text.specs.Digits.{hex_byte};
ghost use Rattle.script.specs.Forms.{meant};
ghost use Rattle.text.specs.Lines.{line_text};

use crate::form::Form;
use crate::parser::parse;
use codec::{Request, read_answer, verdict, write_request};
use commands::{Code, Local, Refusal};
use std::alloc::{AllocError, Global};
use text::Line;

// A word and a code.
fn code_line(heap: Global, word: &[u8], code: Code) -> Result<Vec<u8>, AllocError>
    ensures { IfOk result (λ v. v.items ≡ line_text word.now (hex_byte (code_byte code) ∷ [])) }
{
    Line::new(heap, word)?.hexadecimal(u8::from(code))?.finish()
}

// A local refusal.
fn local_line(heap: Global, local: Local) -> Result<Vec<u8>, AllocError>
    ensures { IfOk result (λ v. v.items ≡ local_line local) }
{
    Line::new(heap, b"local")?
        .number(heap, u8::from(local) as u32)?
        .finish()
}

// A frame that goes to the part.
fn bytes_line(heap: Global, bytes: &[u8]) -> Result<Vec<u8>, AllocError>
    ensures { IfOk result (λ v. v.items ≡ frame_line (Ok bytes.now)) }
{
    Line::new(heap, b"in")?.bytes(bytes)?.finish()
}

// Why a request has no frame.
fn refusal_line(heap: Global, refusal: Refusal) -> Result<Vec<u8>, AllocError>
    ensures { IfOk result (λ v. v.items ≡ frame_line (Err refusal)) }
{
    match refusal {
        Refusal::Code(code) => code_line(heap, b"refused", code),
        Refusal::Local(local) => local_line(heap, local),
    }
}

// The frame of a request, or its refusal.
fn request_line(heap: Global, request: Request<&[u8]>) -> Result<Vec<u8>, AllocError>
    ensures { IfOk result (λ v. v.items ≡ frame_line (written (asking request.entry))) }
{
    let mut buffer = [0u8; 522];
    match write_request(request, &mut buffer) {
        Ok(count) => bytes_line(heap, &buffer[0..count]),
        Err(refusal) => refusal_line(heap, refusal),
    }
}

// What an answer frame says.
fn said_line(heap: Global, frame: &[u8]) -> Result<Vec<u8>, AllocError>
    ensures { IfOk result (λ v. v.items ≡ said_line (reading frame.now)) }
{
    match read_answer(frame) {
        Ok(answer) => Line::new(heap, b"code")?
            .hexadecimal(u8::from(answer.code))?
            .bytes(answer.bytes)?
            .finish(),
        Err(local) => local_line(heap, local),
    }
}

// The code that a frame meets with.
fn verdict_line(heap: Global, frame: &[u8], level: u32, pages: u32) -> Result<Vec<u8>, AllocError>
    ensures { IfOk result (λ v. v.items ≡ verdict_line (verdict_of level pages frame.now)) }
{
    match verdict(frame, level, pages) {
        Ok(code) => code_line(heap, b"verdict", code),
        Err(local) => local_line(heap, local),
    }
}

// The line that answers a form.
pub fn answer_line(heap: Global, form: &Form) -> Result<Vec<u8>, AllocError>
    ensures is_what_the_form_asks_for { IfOk result (λ v. v.items ≡ answer_to (meant form.now)) }
{
    match form {
        Form::Request(order) => request_line(heap, order.lent()),
        Form::Answer { bytes } => said_line(heap, bytes.as_slice()),
        Form::Verdict {
            level,
            pages,
            bytes,
        } => verdict_line(heap, bytes.as_slice(), *level, *pages),
    }
}

// The line that answers a line.
pub fn reply(heap: Global, line: &[u8]) -> Result<Vec<u8>, AllocError>
    ensures answers_the_form_whose_text_the_line_is { IfOk result (λ v. Replied line.now v.items) }
{
    match parse(heap, line)? {
        Some(form) => answer_line(heap, &form),
        None => b"(bad line)".to_vec(heap),
    }
}
