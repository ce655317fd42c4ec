// What is done with the store of a frame.
ghost use Rattle.std.specs.Prelude.{◌≡◌, ◌<◌, [], ◌∷◌, ◌++◌, length, take};
ghost use Rattle.frame.specs.Layout.{length_field};
ghost use Rattle.receiver.specs.Stores.{held};

use crate::store::FrameStore;

impl FrameStore {
    // A store with no byte.
    pub fn new() -> FrameStore
        ensures holds_no_byte { held result ≡ [] }
    {
        FrameStore {
            bytes: [0; 522],
            have: 0,
        }
    }

    // Begins a frame with its first byte.
    pub fn begin(&mut self, byte: u8)
        ensures holds_that_byte_alone { held self.new ≡ byte ∷ [] }
    {
        self.bytes[0] = byte;
        self.have = 1;
    }

    // One byte more.
    pub(crate) fn push(&mut self, byte: u8)
        requires { length (held self.old) < 522 }
        ensures { held self.new ≡ held self.old ++ byte ∷ [] }
    {
        self.bytes[self.have] = byte;
        self.have += 1;
    }

    // How many bytes there are.
    pub fn count(&self) -> usize
        ensures is_the_number_of_bytes { result ≡ length (held self.now) }
    {
        self.have
    }

    // How many bytes of data the frame says that it has.
    pub(crate) fn length_field(&self) -> u16
        requires { 3 < length (held self.now) }
        ensures { result ≡ length_field (held self.now) }
    {
        u16::from_be_bytes([self.bytes[2], self.bytes[3]])
    }

    // The frame so far.
    pub fn frame(&self) -> &[u8]
        ensures is_the_bytes_so_far { result.now ≡ held self.now }
        ensures is_the_head_of_the_store { take (length result.now) self.now.bytes ≡ result.now }
    {
        &self.bytes[0..self.have]
    }

    // The whole store, of which the frame is the head.
    pub fn store(&self) -> &[u8; 522]
        ensures is_the_store { result.now ≡ self.now.bytes }
        ensures has_room_for_the_longest_frame { length result.now ≡ 522 }
    {
        &self.bytes
    }
}
