// The calls of a loader.
ghost use Rattle.std.specs.Prelude.{◌≡◌, slice_index};
ghost use Rattle.part.specs.Laws.{AnswersAsItsLockedTwins, OpensErased, ChecksWholeStretches};
ghost use Rattle.part.specs.Levels.{level_of};
ghost use Rattle.part.specs.Parts.{started, restarted};
ghost use Rattle.loader.specs.Loaders.{part_of};

use crate::loader::Loader;
use crate::ticket::Ticket;
use commands::Level;
use flash::Flash;
use part::{CommandFault, Identity};
use receiver::Receiver;

// The level that option word 0 says.
fn level_in(word: u32) -> Level
    ensures { result ≡ level_of word }
{
    match word.to_le_bytes() {
        [0xAA, ..] => Level::Open,
        _ => Level::Locked,
    }
}

// The level that a flash's option word 0 says.
fn loaded_level<F: Flash>(flash: &F) -> Level
    ensures { result ≡ level_of (slice_index (F.meaning flash.now).options 0) }
{
    let [word, _, _, _] = memory::option_words(flash);
    level_in(word)
}

// Starts a loader on a flash: unconnected, no command in hand, no fault, the level loaded from option word 0.
pub fn start<F: Flash>(flash: F, identity: Identity) -> Loader<F>
    ensures is_a_part_as_it_starts { part_of F.meaning result ≡ started identity (F.meaning flash) }
    ensures locked_twins_answer_alike_for_good { AnswersAsItsLockedTwins (part_of F.meaning result) }
    ensures opens_only_once_every_page_is_erased { OpensErased (part_of F.meaning result) }
    ensures memory_crc_answers_for_the_whole_stretch { ChecksWholeStretches (part_of F.meaning result) }
{
    let level = loaded_level(&flash);
    Loader {
        flash,
        identity,
        level,
        last: None,
        receiver: Receiver::new(),
    }
}

// Takes back a ticket and starts the loader again. Any ticket does: one of another part restarts this part all the same.
pub fn reset<F: Flash>(ticket: Ticket, mut loader: Loader<F>) -> Loader<F>
    ensures is_the_part_started_again { part_of F.meaning result ≡ restarted (part_of F.meaning loader) }
{
    ticket.spend();
    loader.restart();
    loader
}

// Switches the part off, with a ticket or without, and gives back the flash.
pub fn off<F: Flash>(loader: Loader<F>, ticket: Option<Ticket>) -> F
    ensures gives_back_the_flash { result ≡ loader.flash }
{
    if let Some(ticket) = ticket {
        ticket.spend();
    }
    let Loader {
        flash,
        identity: _,
        level: _,
        last: _,
        receiver: _,
    } = loader;
    flash
}

impl<F: Flash> Loader<F> {
    // Starts again, on the same flash and with the same identity.
    pub(crate) fn restart(&mut self)
        ensures { part_of F.meaning self.new ≡ restarted (part_of F.meaning self.old) }
    {
        self.level = loaded_level(&self.flash);
        self.last = None;
        self.receiver = Receiver::new();
    }

    // The last fault report.
    pub fn fault(&self) -> Option<CommandFault>
        ensures is_the_last_report { result ≡ (part_of F.meaning self.now).last }
    {
        self.last
    }
}
