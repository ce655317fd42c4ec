// A finished frame, told apart as one command.
use crate::write_data::WriteData;
use commands::{EraseMode, Information};

// A command as it was received. The data of a Write are borrowed from the frame, and `at` is the
// place where they begin there.
#[derive(Clone, Copy)]
pub enum Command<'a> {
    Get {
        information: Information,
    },
    Read {
        address: u32,
        count: u16,
    },
    Write {
        at: usize,
        data: WriteData<'a>,
    },
    MemoryCrc {
        address: u32,
        count: u32,
        value: u16,
    },
    Erase {
        mode: EraseMode,
        index: u32,
        count: u32,
    },
    Protect,
    Unprotect,
}
