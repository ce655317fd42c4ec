// The loader.
use commands::Level;
use flash::Flash;
use part::{CommandFault, Identity};
use receiver::Receiver;

pub(crate) mod calls;
mod frames;
mod views;
mod works;

// A loader with its flash. The level is the one that was loaded at the start.
pub struct Loader<F: Flash> {
    flash: F,
    identity: Identity,
    level: Level,
    last: Option<CommandFault>,
    receiver: Receiver,
}
