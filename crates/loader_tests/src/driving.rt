// Boards with a flash of their own, and a loader driven by bytes and work calls. A ticket cannot be let go, so a test checks
// nothing before its loaders are off.
use flash::Flash;
use flash_kinds::{PageRecord, PairFlash, WordFlash};
use loader::{Answer, Loader, Received, Ticket, reset, start};
use part::Identity;

const NEW: PageRecord = PageRecord {
    made: 0,
    allowed: 3,
};

const IDENTITY: Identity = Identity {
    uid: [
        0x10, 0x11, 0x12, 0x13, 0x14, 0x15, 0x16, 0x17, 0x18, 0x19, 0x1A, 0x1B,
    ],
    version: 0x0102,
    device: 0xA1,
    package: 0xB2,
    sram: 0x0304,
};

// The option words of an open part.
const OPEN: [u32; 4] = [0xAA, 0x0403_0201, 0x0807_0605, 0x0C0B_0A09];

// A board with a word flash.
#[derive(Drop)]
pub(crate) struct Board<const WORDS: usize, const PAGES: usize> {
    pub(crate) words: [u32; WORDS],
    records: [PageRecord; PAGES],
}

impl<const WORDS: usize, const PAGES: usize> Board<WORDS, PAGES> {
    // New tables, each word of which is that one.
    pub(crate) fn filled(word: u32) -> Board<WORDS, PAGES> {
        Board {
            words: [word; WORDS],
            records: [NEW; PAGES],
        }
    }

    // A loader on the board's flash, with so many option writes left.
    pub(crate) fn start(&mut self, option_writes: u32) -> Loader<WordFlash<'_>> {
        start(
            WordFlash::new(&mut self.words, &mut self.records, OPEN, option_writes),
            IDENTITY,
        )
    }
}

// A board with a flash of two chips, 8 pages in all.
#[derive(Drop)]
pub(crate) struct PairBoard {
    low: [u16; 1024],
    high: [u16; 1024],
    low_records: [PageRecord; 8],
    high_records: [PageRecord; 8],
}

impl PairBoard {
    // New tables, each half word of which is that one.
    pub(crate) fn filled(low: u16, high: u16) -> PairBoard {
        PairBoard {
            low: [low; 1024],
            high: [high; 1024],
            low_records: [NEW; 8],
            high_records: [NEW; 8],
        }
    }

    // A loader on the board's flash, with 2 option writes left.
    pub(crate) fn start(&mut self) -> Loader<PairFlash<'_>> {
        let PairBoard {
            low,
            high,
            low_records,
            high_records,
        } = self;
        start(
            PairFlash::new(low, high, low_records, high_records, OPEN, 2),
            IDENTITY,
        )
    }
}

// The answer to the last of some bytes.
pub(crate) fn send<F: Flash>(loader: &mut Loader<F>, bytes: &[u8], buffer: &mut [u8]) -> Received {
    let mut received = Received::Quiet;
    for byte in bytes {
        received = loader.receive(*byte, buffer);
    }
    received
}

// The answer to one work call.
pub(crate) fn work<F: Flash>(
    loader: &mut Loader<F>,
    buffer: &mut [u8],
) -> (Answer, Option<Ticket>) {
    loader.work(buffer).split()
}

// Starts the loader again where there is a ticket.
pub(crate) fn restart<F: Flash>(loader: Loader<F>, ticket: Option<Ticket>) -> Loader<F> {
    match ticket {
        Some(ticket) => reset(ticket, loader),
        None => loader,
    }
}

// The answer to the first work call behind a frame.
pub(crate) fn serve<F: Flash>(
    loader: &mut Loader<F>,
    frame: &[u8],
    buffer: &mut [u8],
) -> (Answer, Option<Ticket>) {
    let _ = send(loader, frame, buffer);
    work(loader, buffer)
}

// The answer to the last of some work calls, or to the first with which a ticket comes.
pub(crate) fn work_on<F: Flash>(
    loader: &mut Loader<F>,
    times: u32,
    buffer: &mut [u8],
) -> (Answer, Option<Ticket>) {
    let mut last = Answer::Idle;
    for _ in 0..times {
        match work(loader, buffer) {
            (answer, Some(ticket)) => return (answer, Some(ticket)),
            (answer, None) => last = answer,
        }
    }
    (last, None)
}
