// What a loader is busy with.
mod bounds;

// The command in hand, with what has been done of it. The data of a Write stand in the frame's store.
#[derive(Clone, Copy, PartialEq, Eq, Debug)]
pub enum Task {
    // user words from a number on, how many, words done
    Writing {
        first: u32,
        words: u8,
        done: u8,
    },
    // option words from a number on, how many
    Setting {
        first: u32,
        words: u8,
    },
    // user words from a number on, how many, the checksum to compare with, words done, the running checksum's register
    Checking {
        first: u32,
        count: u32,
        value: u16,
        done: u32,
        register: u16,
    },
    // pages from a number on, how many, pages done
    Erasing {
        first: u32,
        count: u32,
        done: u32,
    },
    Protecting,
    // pages done
    Unprotecting {
        done: u32,
    },
    // no command is in hand, and the ticket is out
    AwaitingReset,
}
