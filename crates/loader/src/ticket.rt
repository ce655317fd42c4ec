// The reset ticket.
ghost use Rattle.std.specs.Prelude.{◌≡◌, true, false};

// Comes with the answer to a served option write, and has to be spent by a reset or by switching the part off: an unspent one
// cannot be let go. Nobody else makes one.
pub struct Ticket {
    spent: bool,
}

impl Drop for Ticket {
    fn drop(self)
        requires { self.spent ≡ true }
    {
        let Ticket { spent: _ } = self;
    }
}

impl Ticket {
    // A ticket that is out.
    pub(crate) fn new() -> Ticket
        ensures { result ≡ record { spent = false } }
    {
        Ticket { spent: false }
    }

    // Takes the ticket back.
    pub(crate) fn spend(mut self) {
        self.spent = true;
    }
}
