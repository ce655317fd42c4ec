// What the calls of a loader answer.
ghost use Rattle.std.specs.Prelude.{◌≡◌};
ghost use Rattle.loader.specs.Answers.{answer_of, ticket_of, worked_of};

use crate::ticket::Ticket;

// What a byte gets. A count says how many bytes stand at the buffer's head.
#[derive(Clone, Copy, PartialEq, Eq, Debug)]
pub enum Received {
    // the buffer has fewer than 518 bytes: the byte was not taken
    SmallBuffer,
    Quiet,
    TakenUp,
    Bytes(usize),
}

// What a work call answers. The ticket comes with the answer to a served option write; a caller who keeps it elsewhere may hold
// the answer with another type in its place.
#[derive(PartialEq, Eq, Debug)]
pub enum Worked<T = Ticket> {
    // the buffer has fewer than 518 bytes: nothing was done
    SmallBuffer,
    Idle,
    Going,
    Bytes(usize),
    BytesAndTicket(usize, T),
}

// What a work call answers where the ticket is kept beside the loader.
#[derive(Clone, Copy, PartialEq, Eq, Debug)]
pub enum Answer {
    SmallBuffer,
    Idle,
    Going,
    Bytes(usize),
    BytesAndTicket(usize),
}

impl<T> Worked<T> {
    // The answer by itself, and the ticket that came with it, if one did.
    pub fn split(self) -> (Answer, Option<T>)
        ensures is_the_answer_and_its_ticket { result ≡ (answer_of self, ticket_of self) }
    {
        match self {
            Worked::SmallBuffer => (Answer::SmallBuffer, None),
            Worked::Idle => (Answer::Idle, None),
            Worked::Going => (Answer::Going, None),
            Worked::Bytes(count) => (Answer::Bytes(count), None),
            Worked::BytesAndTicket(count, ticket) => (Answer::BytesAndTicket(count), Some(ticket)),
        }
    }
}

impl Answer {
    // The answer itself, and `Some(())` if a ticket came with it.
    pub fn split(self) -> (Answer, Option<()>)
        ensures is_the_answer_and_its_ticket { result ≡ (self, ticket_of (worked_of self)) }
    {
        let worked = match self {
            Answer::SmallBuffer => Worked::SmallBuffer,
            Answer::Idle => Worked::Idle,
            Answer::Going => Worked::Going,
            Answer::Bytes(count) => Worked::Bytes(count),
            Answer::BytesAndTicket(count) => Worked::BytesAndTicket(count, ()),
        };
        worked.split()
    }
}
