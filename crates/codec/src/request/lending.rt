// A request lent.
ghost use Rattle.std.specs.Prelude.{◌≡◌};
ghost use Rattle.codec.specs.Writing.{asking, asked_by};

use crate::request::Request;
use std::convert::AsSlice;

impl<B: AsSlice<u8>> Request<B> {
    // The same request, with its bytes lent.
    pub fn lent(&self) -> Request<&[u8]>
        ensures asks_for_the_same { asking result ≡ asked_by B.items self.now }
    {
        match self {
            Request::Get { information } => Request::Get {
                information: *information,
            },
            Request::Read { address, count } => Request::Read {
                address: *address,
                count: *count,
            },
            Request::Write { address, bytes } => Request::Write {
                address: *address,
                bytes: bytes.as_slice(),
            },
            Request::MemoryCrc {
                address,
                count,
                value,
            } => {
                Request::MemoryCrc {
                    address: *address,
                    count: *count,
                    value: *value,
                }
            }
            Request::Erase { mode, index, count } => Request::Erase {
                mode: *mode,
                index: *index,
                count: *count,
            },
            Request::Protect => Request::Protect,
            Request::Unprotect => Request::Unprotect,
        }
    }
}
