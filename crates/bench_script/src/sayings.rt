// The lines that a bench answers with.
ghost use Rattle.std.specs.Prelude.{◌≡◌, IfOk};
ghost use Rattle.bench_script.specs.Saying.{cause_text, number_of, out_line, report_line, fault_line, line_of};

use crate::said::Said;
use flash::{Asked, Cause};
use part::CommandFault;
use std::alloc::{AllocError, Global};
use text::Line;

// The word of a cause.
fn cause_word(cause: Cause) -> &'static [u8]
    ensures is_the_word_of_the_cause { result.now ≡ cause_text cause }
{
    match cause {
        Cause::Range => b"range",
        Cause::NotErased => b"not-erased",
        Cause::Worn => b"worn",
    }
}

// The number of what was asked for.
fn number_of(asked: Asked) -> u32
    ensures is_the_number_of_what_was_asked_for { result ≡ number_of asked }
{
    match asked {
        Asked::Page(page) => page,
        Asked::Word(word) => word,
        Asked::OptionWord(word) => word,
        Asked::OptionWrite => 0,
    }
}

// The line of an answer's bytes.
pub fn out_line(heap: Global, bytes: &[u8]) -> Result<Vec<u8>, AllocError>
    ensures is_the_line_of_the_bytes { IfOk result (λ v. v.items ≡ out_line bytes.now) }
{
    Line::new(heap, b"out")?.bytes(bytes)?.finish()
}

// A fault report.
fn report_line(heap: Global, report: CommandFault) -> Result<Vec<u8>, AllocError>
    ensures is_the_line_of_the_report { IfOk result (λ v. v.items ≡ report_line report) }
{
    Line::new(heap, b"fault")?
        .word(cause_word(report.memory.flash.cause))?
        .number(heap, number_of(report.memory.flash.asked))?
        .hexadecimal(report.memory.address)?
        .hexadecimal(report.command)?
        .finish()
}

// The last fault report, if there is one.
fn fault_line(heap: Global, report: Option<CommandFault>) -> Result<Vec<u8>, AllocError>
    ensures is_the_line_of_the_last_report { IfOk result (λ v. v.items ≡ fault_line report) }
{
    match report {
        Some(report) => report_line(heap, report),
        None => b"(fault none)".to_vec(heap),
    }
}

// The line of whatever else a bench says.
pub fn said_line(heap: Global, said: Said) -> Result<Vec<u8>, AllocError>
    ensures is_the_line_of_what_is_said { IfOk result (λ v. v.items ≡ line_of said) }
{
    let text: &[u8] = match said {
        Said::Taken => b"(taken)",
        Said::Idle => b"(idle)",
        Said::Going => b"(going)",
        Said::Reset => b"(reset)",
        Said::NoTicket => b"(no ticket)",
        Said::BadLine => b"(bad line)",
        Said::Fault { report } => return fault_line(heap, report),
    };
    text.to_vec(heap)
}
