// What is done to a running part.
ghost use Rattle.std.specs.Prelude.{◌≡◌, length};
ghost use Rattle.frame.specs.Layout.{headed};
ghost use Rattle.part.specs.Events.{byte_leaves, byte_says, work_leaves, work_says, reset_leaves};
ghost use Rattle.part.specs.Parts.{started};
ghost use Rattle.loader.specs.Loaders.{received_as, said_bytes};
ghost use Rattle.loader.specs.Runs.{part_running, answered_as};

use crate::answers::{Answer, Received};
use crate::loader::Loader;
use crate::loader::calls::{off, start};
use crate::running::Running;
use flash::Flash;
use part::{CommandFault, Identity};

impl<F: Flash> Running<F> {
    // Starts a part.
    pub fn start(flash: F, identity: Identity) -> Running<F>
        ensures is_a_part_as_it_starts { part_running F.meaning result ≡ started identity (F.meaning flash) }
    {
        Running {
            loader: start(flash, identity),
            ticket: None,
        }
    }

    // One byte is received.
    pub fn receive(&mut self, byte: u8, buffer: &mut [u8]) -> Received
        ensures answers_as_defined { result ≡ received_as (byte_says (part_running F.meaning self.old) byte (length buffer.old)) }
        ensures leaves_the_part_as_defined { part_running F.meaning self.new ≡ byte_leaves (part_running F.meaning self.old) byte (length buffer.old) }
        ensures puts_the_answer_and_no_more { buffer.new ≡ headed (said_bytes (byte_says (part_running F.meaning self.old) byte (length buffer.old))) buffer.old }
    {
        self.loader.receive(byte, buffer)
    }

    // One work call. A ticket that comes is kept.
    pub fn work(&mut self, buffer: &mut [u8]) -> Answer
        ensures answers_as_defined { result ≡ answered_as (work_says (part_running F.meaning self.old) (length buffer.old)) }
        ensures leaves_the_part_as_defined { part_running F.meaning self.new ≡ work_leaves (part_running F.meaning self.old) (length buffer.old) }
        ensures puts_the_answer_and_no_more { buffer.new ≡ headed (said_bytes (work_says (part_running F.meaning self.old) (length buffer.old))) buffer.old }
    {
        let (answer, ticket) = self.loader.work(buffer).split();
        if let Some(ticket) = ticket {
            if let Some(old) = self.ticket.replace(ticket) {
                old.spend();
            }
        }
        answer
    }

    // The last fault report.
    pub fn fault(&self) -> Option<CommandFault>
        ensures is_the_last_report { result ≡ (part_running F.meaning self.now).last }
    {
        self.loader.fault()
    }

    // Spends the ticket if it is out, and tells whether it was.
    pub fn reset(&mut self) -> bool
        ensures tells_whether_the_ticket_was_out { result ≡ (part_running F.meaning self.old).ticket }
        ensures leaves_the_part_as_defined { part_running F.meaning self.new ≡ reset_leaves (part_running F.meaning self.old) }
    {
        let Some(ticket) = self.ticket.take() else {
            return false;
        };
        ticket.spend();
        self.loader.restart();
        true
    }

    // The loader.
    pub fn loader(&self) -> &Loader<F>
        ensures is_its_loader { result.now ≡ self.now.loader }
    {
        &self.loader
    }

    // Switches the part off and gives back the flash.
    pub fn off(self) -> F
        ensures gives_back_the_flash { F.meaning result ≡ (part_running F.meaning self).flash }
    {
        let Running { loader, ticket } = self;
        off(loader, ticket)
    }
}
