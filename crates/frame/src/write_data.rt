// The data of a Write.
ghost use Rattle.std.specs.Prelude.{length};
ghost use Rattle.commands.specs.Requests.{WriteLength};

mod uses;

// The data of a Write: it borrows its bytes, and they are 1 to 128 whole words. There is no other.
#[derive(Clone, Copy)]
pub struct WriteData<'a> {
    address: u32,
    bytes: &'a [u8],
    ghost whole: { WriteLength (length bytes.now) },
}
