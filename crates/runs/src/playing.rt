// Events done to a part.
ghost use Rattle.std.specs.Prelude.{◌≡◌, IfOk, OnOk};
ghost use Rattle.part.specs.Events.{answers, byte_leaves, byte_says, run, says, step, work_leaves, work_says};
ghost use Rattle.loader.specs.Runs.{part_running};
ghost use Rattle.runs.specs.Lists.{byte_answer, event_of, events_of, row_at, row_of, rows_of, said_of, work_answer};

use crate::events::{Event, Row, Said};
use flash::Flash;
use loader::{Answer, Received, Running};
use std::alloc::{AllocError, Global};

// What a byte was answered with, the bytes being at the head of the buffer.
fn said_of_byte(received: Received, mut buffer: Vec<u8>) -> Said
    ensures { said_of result ≡ byte_answer received buffer.items }
{
    match received {
        Received::SmallBuffer => Said::SmallBuffer,
        Received::Quiet => Said::Silent,
        Received::TakenUp => Said::Accepted,
        Received::Bytes(count) => {
            buffer.truncate(count);
            Said::Bytes(buffer)
        }
    }
}

// What a work call was answered with, the bytes being at the head of the buffer.
fn said_of_work(answer: Answer, mut buffer: Vec<u8>) -> Said
    ensures { said_of result ≡ work_answer answer buffer.items }
{
    match answer {
        Answer::SmallBuffer => Said::SmallBuffer,
        Answer::Idle => Said::Resting,
        Answer::Going => Said::Ongoing,
        Answer::Bytes(count) => {
            buffer.truncate(count);
            Said::Bytes(buffer)
        }
        Answer::BytesAndTicket(count) => {
            buffer.truncate(count);
            Said::BytesAndTicket(buffer)
        }
    }
}

// One byte.
fn receive<F: Flash>(
    heap: Global,
    part: &mut Running<F>,
    byte: u8,
    room: usize,
) -> Result<Said, AllocError>
    ensures { IfOk result (λ s. (said_of s ≡ byte_says (part_running F.meaning part.old) byte room) × (part_running F.meaning part.new ≡ byte_leaves (part_running F.meaning part.old) byte room)) }
{
    let mut buffer = vec![in heap; 0u8; room]?;
    let received = part.receive(byte, buffer.as_mut_slice());
    Ok(said_of_byte(received, buffer))
}

// One work call.
fn work<F: Flash>(heap: Global, part: &mut Running<F>, room: usize) -> Result<Said, AllocError>
    ensures { IfOk result (λ s. (said_of s ≡ work_says (part_running F.meaning part.old) room) × (part_running F.meaning part.new ≡ work_leaves (part_running F.meaning part.old) room)) }
{
    let mut buffer = vec![in heap; 0u8; room]?;
    let answer = part.work(buffer.as_mut_slice());
    Ok(said_of_work(answer, buffer))
}

// The answer to one event.
#[tactic(auto, unfolding(part::specs::Events::says, part::specs::Events::step))]
fn respond<F: Flash>(heap: Global, part: &mut Running<F>, event: Event) -> Result<Said, AllocError>
    ensures { IfOk result (λ s. (said_of s ≡ says (part_running F.meaning part.old) (event_of event)) × (part_running F.meaning part.new ≡ step (part_running F.meaning part.old) (event_of event))) }
{
    match event {
        Event::Byte { byte, room } => receive(heap, part, byte, room),
        Event::Work { room } => work(heap, part, room),
        Event::AskFault => Ok(Said::Fault(part.fault())),
        Event::Reset => {
            let _ = part.reset();
            Ok(Said::Nothing)
        }
    }
}

// Does one event, and tells the answer and the fault report that stands then.
pub fn do_event<F: Flash>(
    heap: Global,
    part: &mut Running<F>,
    event: Event,
) -> Result<Row, AllocError>
    ensures tells_the_answer_as_defined { IfOk result (λ row. row_of row ≡ row_at (part_running F.meaning part.old) (event_of event)) }
    ensures leaves_the_part_as_defined { OnOk result (part_running F.meaning part.new ≡ step (part_running F.meaning part.old) (event_of event)) }
{
    let said = respond(heap, part, event)?;
    Ok(Row {
        said,
        report: part.fault(),
    })
}

// Does a whole list of events to a part and writes down each answer. Want of memory is the one error; it ends the list early.
pub fn play<F: Flash>(
    heap: Global,
    part: &mut Running<F>,
    events: &[Event],
) -> Result<Vec<Row>, AllocError>
    ensures writes_down_the_answers_as_defined { IfOk result (λ rows. rows_of rows.items ≡ answers (part_running F.meaning part.old) (events_of events.now)) }
    ensures leaves_the_part_as_the_list_does { OnOk result (part_running F.meaning part.new ≡ run (part_running F.meaning part.old) (events_of events.now)) }
{
    let mut rows = Vec::new(heap);
    for event in events {
        rows.push(do_event(heap, part, *event)?)?;
    }
    Ok(rows)
}
