// A loader and its ticket.
ghost use Rattle.std.specs.Prelude.{◌≡◌, is_some};
ghost use Rattle.receiver.specs.Receivers.{ticket_of};

use crate::loader::Loader;
use crate::ticket::Ticket;
use flash::Flash;

mod steps;

// A loader with the ticket beside it: it is there exactly while it is out.
pub struct Running<F: Flash> {
    loader: Loader<F>,
    ticket: Option<Ticket>,
    ghost beside: { is_some ticket ≡ ticket_of loader.receiver },
}
