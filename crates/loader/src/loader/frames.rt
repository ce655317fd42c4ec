// What a loader does about a byte.
ghost use Rattle.std.specs.Prelude.{◌≡◌, length};
ghost use Rattle.frame.specs.Layout.{headed};
ghost use Rattle.part.specs.Events.{after_byte, byte_leaves, byte_said, byte_says};
ghost use Rattle.receiver.specs.declared.state.State.TheVariants.{Between};
ghost use Rattle.loader.specs.AnswerBuffers.{Puts};
ghost use Rattle.loader.specs.Loaders.{part_of, received_as, said_bytes, order_of};

use crate::answer_buffer::AnswerBuffer;
use crate::answers::Received;
use crate::loader::Loader;
use commands::Code;
use flash::Flash;
use receiver::{Order, Reception, decide};

impl<F: Flash> Loader<F> {
    // Does what a whole frame asks for.
    fn obey(&mut self, buffer: &mut AnswerBuffer<'_>) -> Received
        requires { self.old.receiver.state ≡ Between }
        ensures answers { result ≡ received_as (byte_said (order_of F.meaning self.old).reply) }
        ensures leaves { part_of F.meaning self.new ≡ after_byte (part_of F.meaning self.old) (order_of F.meaning self.old) }
        ensures puts { Puts (said_bytes (byte_said (order_of F.meaning self.old).reply)) buffer.old buffer.new }
    {
        let pages = self.flash.pages();
        match decide(self.receiver.frame(), self.level, pages) {
            Order::Ignore => Received::Quiet,
            Order::Refuse(code) => Received::Bytes(buffer.put_answer(code, &[])),
            Order::Tell(what) => Received::Bytes(buffer.put_information(
                &self.identity,
                self.level,
                pages,
                what,
            )),
            Order::Show { area, first, count } => {
                Received::Bytes(buffer.put_words(&self.flash, area, first, count))
            }
            Order::Take(task) => {
                self.receiver.hold_bounded(task);
                Received::TakenUp
            }
        }
    }

    // Takes one byte.
    pub fn receive(&mut self, byte: u8, buffer: &mut [u8]) -> Received
        ensures answers_as_defined { result ≡ received_as (byte_says (part_of F.meaning self.old) byte (length buffer.old)) }
        ensures leaves_the_part_as_defined { part_of F.meaning self.new ≡ byte_leaves (part_of F.meaning self.old) byte (length buffer.old) }
        ensures puts_the_answer_and_no_more { buffer.new ≡ headed (said_bytes (byte_says (part_of F.meaning self.old) byte (length buffer.old))) buffer.old }
    {
        if buffer.len() < 518 {
            return Received::SmallBuffer;
        }
        let mut answer = AnswerBuffer { bytes: buffer };
        match self.receiver.take(byte) {
            Reception::Quiet => Received::Quiet,
            Reception::Greet => Received::Bytes(answer.put_greeting()),
            Reception::TooLong => Received::Bytes(answer.put_answer(Code::WrongLength, &[])),
            Reception::Whole => self.obey(&mut answer),
        }
    }
}
