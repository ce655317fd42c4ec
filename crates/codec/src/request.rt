// What a host asks of a part.
mod lending;
mod makings;

// A request, over whatever holds the bytes of a Write: `&[u8]` where they are lent, `Vec<u8>` where the request owns them. They
// stand in the order in which the flash keeps them.
#[derive(Clone, Copy, Drop)]
pub enum Request<B> {
    Get {
        information: u8,
    },
    Read {
        address: u32,
        count: u16,
    },
    Write {
        address: u32,
        bytes: B,
    },
    MemoryCrc {
        address: u32,
        count: u32,
        value: u16,
    },
    Erase {
        mode: u8,
        index: u32,
        count: u32,
    },
    Protect,
    Unprotect,
}
