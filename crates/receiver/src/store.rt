// The store of the open frame.
ghost use Rattle.std.specs.Prelude.{◌≤◌};

mod uses;

// The bytes of a frame so far, in a store for the longest frame.
#[derive(Drop)]
pub struct FrameStore {
    bytes: [u8; 522],
    have: usize,
    ghost room: { have ≤ 522 },
}
