// What a loader does in a work call.
ghost use Rattle.std.specs.Prelude.{◌≡◌, false, length};
ghost use Rattle.frame.specs.Layout.{headed};
ghost use Rattle.part.specs.Events.{after_portion, next_portion, work_leaves, work_said, work_says};
ghost use Rattle.receiver.specs.declared.state.State.TheVariants.{Busy};
ghost use Rattle.receiver.specs.States.{ticket_for};
ghost use Rattle.loader.specs.AnswerBuffers.{Puts};
ghost use Rattle.loader.specs.Loaders.{part_of, worked_as, said_bytes};

use crate::answer_buffer::AnswerBuffer;
use crate::answers::Worked;
use crate::loader::Loader;
use crate::portions::next_portion;
use crate::progress::Progress;
use crate::ticket::Ticket;
use commands::Code;
use flash::Flash;
use receiver::{BoundedTask, Task};

impl<F: Flash> Loader<F> {
    // Does the next portion of the command in hand.
    fn go_on(&mut self, task: BoundedTask, buffer: &mut AnswerBuffer<'_>) -> Worked
        requires busy { self.old.receiver.state ≡ Busy task }
        requires no_ticket { ticket_for task.task ≡ false }
        ensures answers { result ≡ worked_as (work_said (next_portion (part_of F.meaning self.old)).outcome) }
        ensures leaves { part_of F.meaning self.new ≡ after_portion (part_of F.meaning self.old) (next_portion (part_of F.meaning self.old)) }
        ensures puts { Puts (said_bytes (work_said (next_portion (part_of F.meaning self.old)).outcome)) buffer.old buffer.new }
    {
        match next_portion(&mut self.flash, self.receiver.store(), task) {
            Ok(Progress::Going(task)) => {
                self.receiver.hold_bounded(task);
                Worked::Going
            }
            Ok(Progress::Done) => {
                self.receiver.release();
                Worked::Bytes(buffer.put_answer(Code::Done, &[]))
            }
            Ok(Progress::DoneWithTicket) => {
                self.receiver.hold_bounded(BoundedTask {
                    task: Task::AwaitingReset,
                });
                Worked::BytesAndTicket(buffer.put_answer(Code::Done, &[]), Ticket::new())
            }
            Ok(Progress::Differs) => {
                self.receiver.release();
                Worked::Bytes(buffer.put_answer(Code::WrongParameter, &[]))
            }
            Err(fault) => {
                self.last = Some(fault);
                self.receiver.release();
                Worked::Bytes(buffer.put_answer(Code::FlashRefused, &[]))
            }
        }
    }

    // Does the next portion of the command in hand, if there is one.
    pub fn work(&mut self, buffer: &mut [u8]) -> Worked
        ensures answers_as_defined { result ≡ worked_as (work_says (part_of F.meaning self.old) (length buffer.old)) }
        ensures leaves_the_part_as_defined { part_of F.meaning self.new ≡ work_leaves (part_of F.meaning self.old) (length buffer.old) }
        ensures puts_the_answer_and_no_more { buffer.new ≡ headed (said_bytes (work_says (part_of F.meaning self.old) (length buffer.old))) buffer.old }
    {
        if buffer.len() < 518 {
            return Worked::SmallBuffer;
        }
        let mut answer = AnswerBuffer { bytes: buffer };
        match self.receiver.task() {
            Some(held) if held.task != Task::AwaitingReset => self.go_on(held, &mut answer),
            _ => Worked::Idle,
        }
    }
}
