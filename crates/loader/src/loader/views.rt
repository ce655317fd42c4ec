// What of a loader can be looked at.
ghost use Rattle.std.specs.Prelude.{◌≡◌};
ghost use Rattle.loader.specs.Loaders.{part_of};

use crate::loader::Loader;
use commands::Level;
use flash::Flash;
use part::Identity;
use receiver::Receiver;

impl<F: Flash> Loader<F> {
    // What the part is known by.
    pub fn identity(&self) -> Identity
        ensures is_its_identity { result ≡ (part_of F.meaning self.now).identity }
    {
        self.identity
    }

    // The level that was loaded at the start.
    pub fn level(&self) -> Level
        ensures is_the_level_in_force { result ≡ (part_of F.meaning self.now).level }
    {
        self.level
    }

    // The flash.
    pub fn flash(&self) -> &F
        ensures is_its_flash { result.now ≡ self.now.flash }
    {
        &self.flash
    }

    // The receiver: connection, open frame, command in hand.
    pub fn receiver(&self) -> &Receiver
        ensures is_its_receiver { result.now ≡ self.now.receiver }
    {
        &self.receiver
    }
}
