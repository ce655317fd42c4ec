// CRC-16/IBM-SDLC, the checksum of HDLC and X.25 frames: by shifts, two bytes at a time, with no table.
#![tactic(auto)]

ghost use Rattle.std.specs.Prelude.{◌≡◌, ℕ, List, bit_xor};
ghost use Rattle.checksum.specs.Crc.{steps, feeds, crc, StretchesJoin};

// What the register holds after 16 bits have left it.
//
// Bit k of the quotient is the k-th bit to leave: bit k of `x`, changed by the bits that left 4 and 11 before it,
// since the polynomial was added where they did. What is left of the register is the polynomial alone,
// added once for each bit of the quotient: its terms have by then come down to k, k - 5 and k - 12.
fn two_bytes(x: u16) -> u16
    ensures { result ≡ steps 16 x }
{
    let t = x ^ (x << 4);
    let quotient = t ^ (t << 8) ^ (x << 11);
    quotient ^ (quotient >> 5) ^ (quotient >> 12)
}

// What the register holds after 8 bits have left it. Its high byte comes down whole,
// and its low byte leaves as the second of two bytes, of which the first is 0.
fn one_byte(x: u16) -> u16
    ensures { result ≡ steps 8 x }
{
    (x >> 8) ^ two_bytes(x << 8)
}

// What the register holds after the bytes, which go in two at a time.
fn after(register: u16, bytes: &[u8]) -> u16
    ensures fed { result ≡ feeds register bytes.now }
    ensures stretches_join { StretchesJoin register bytes.now result }
{
    let (pairs, rest) = bytes.as_chunks::<2>();
    let mut s = register;
    for [low, high] in pairs {
        s = two_bytes(s ^ *low as u16 ^ (*high as u16) << 8);
    }
    match rest {
        [last, ..] => one_byte(s ^ *last as u16),
        [] => s,
    }
}

// The checksum that the register stands for once all bytes are in it: its bits, inverted.
fn inverted(register: u16) -> u16
    ensures inverted { result ≡ bit_xor register 0xffff }
    ensures whole { (bs : List ℕ) → register ≡ feeds 0xffff bs → result ≡ crc bs }
{
    register ^ 0xffff
}

// A checksum on its way, over bytes that come in stretches.
#[derive(Clone, Copy)]
pub struct Checksum {
    register: u16,
}

impl Checksum {
    // A checksum over no bytes yet: all bits of its register are set.
    pub fn new() -> Checksum
        ensures { result.register ≡ 0xffff }
    {
        Checksum { register: 0xffff }
    }

    // Takes up a checksum again where its register was read.
    pub fn resume(register: u16) -> Checksum
        ensures { result.register ≡ register }
    {
        Checksum { register }
    }

    // The register, for `resume`. It is not the checksum: that is what `finish` gives.
    pub fn register(&self) -> u16
        ensures { result ≡ self.now.register }
    {
        let Checksum { register } = *self;
        register
    }

    // The next stretch of bytes. How the bytes are cut into stretches does not matter.
    pub fn feed(&mut self, bytes: &[u8])
        ensures fed { self.new.register ≡ feeds self.old.register bytes.now }
        ensures stretches_join { StretchesJoin self.old.register bytes.now self.new.register }
    {
        self.register = after(self.register, bytes);
    }

    // The checksum of all the bytes that were fed.
    pub fn finish(&self) -> u16
        ensures inverted { result ≡ bit_xor self.now.register 0xffff }
        ensures whole { (bs : List ℕ) → self.now.register ≡ feeds 0xffff bs → result ≡ crc bs }
    {
        inverted(self.register)
    }
}

// The checksum of the bytes.
pub fn checksum_of(bytes: &[u8]) -> u16
    ensures { result ≡ crc bytes.now }
{
    let mut c = Checksum::new();
    c.feed(bytes);
    c.finish()
}

#[cfg(test)]
mod tests;
