// The makings of requests.
ghost use Rattle.std.specs.Prelude.{◌≡◌};
ghost use Rattle.commands.specs.Requests.{get, read, write, memory_crc, erase, protect, unprotect};
ghost use Rattle.codec.specs.Writing.{asking};

use crate::request::Request;

impl<'a> Request<&'a [u8]> {
    // Asks for one of the informations 0 to 4.
    pub fn get(information: u8) -> Request<&'a [u8]>
        ensures asks_for_it { asking result ≡ get information }
    {
        Request::Get { information }
    }

    // Asks for so many bytes from the address on.
    pub fn read(address: u32, count: u16) -> Request<&'a [u8]>
        ensures asks_for_it { asking result ≡ read address count }
    {
        Request::Read { address, count }
    }

    // Asks to write the bytes from the address on.
    pub fn write(address: u32, bytes: &'a [u8]) -> Request<&'a [u8]>
        ensures asks_for_it { asking result ≡ write address bytes.now }
    {
        Request::Write { address, bytes }
    }

    // Asks whether so many bytes from the address on have the checksum.
    pub fn memory_crc(address: u32, count: u32, value: u16) -> Request<&'a [u8]>
        ensures asks_for_it { asking result ≡ memory_crc address count value }
    {
        Request::MemoryCrc {
            address,
            count,
            value,
        }
    }

    // Asks to erase pages (mode AA), blocks (55) or all (3C).
    pub fn erase(mode: u8, index: u32, count: u32) -> Request<&'a [u8]>
        ensures asks_for_it { asking result ≡ erase mode index count }
    {
        Request::Erase { mode, index, count }
    }

    // Asks to lock the part.
    pub fn protect() -> Request<&'a [u8]>
        ensures asks_for_it { asking result ≡ protect }
    {
        Request::Protect
    }

    // Asks to erase all pages and to open the part.
    pub fn unprotect() -> Request<&'a [u8]>
        ensures asks_for_it { asking result ≡ unprotect }
    {
        Request::Unprotect
    }
}
