// The receiver.
ghost use Rattle.std.specs.Prelude.{◌≡◌, true};
ghost use Rattle.receiver.specs.States.{comes_to};
ghost use Rattle.receiver.specs.Stores.{held};

use crate::state::State;
use crate::store::FrameStore;

mod calls;

// Where the receiver stands, and the bytes of the open frame. Inside a frame the two agree on how far it has come.
#[derive(Drop)]
pub struct Receiver {
    state: State,
    store: FrameStore,
    ghost kept: { comes_to state (held store) ≡ true },
}
