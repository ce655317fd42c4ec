use crate::driving::{Board, PairBoard, restart, send, serve, work, work_on};
use flash::{Asked, Cause, Flash, FlashFault};
use loader::{Answer, Received, Worked, off};
use memory::MemoryFault;
use part::CommandFault;

const BLANK: u32 = 0xFFFF_FFFF;

const DONE: &[u8] = b"\xB3\x90\x00\x00";

const GET_LEVEL: &[u8] = b"\x85\x01\x00\x01\x02\xD3\x6A";

const READ_4: &[u8] = b"\x85\xF1\x00\x06\x08\x00\x00\x00\x00\x04\x90\xF3";

const READ_512: &[u8] = b"\x85\xF1\x00\x06\x08\x00\x00\x00\x02\x00\xE5\x67";

const WRITE: &[u8] = b"\x85\xF2\x00\x08\x08\x00\x00\x00\x11\x22\x33\x44\x5F\xBC";

const ERASE_PAGE_0: &[u8] = b"\x85\xF4\x00\x09\xAA\x00\x00\x00\x00\x00\x00\x00\x01\x77\xB0";

const ERASE_ALL: &[u8] = b"\x85\xF4\x00\x09\x3C\x00\x00\x00\x00\x00\x00\x00\x00\xF9\x65";

const PROTECT: &[u8] = b"\x85\xA0\x00\x00";

const UNPROTECT: &[u8] = b"\x85\xA1\x00\x00";

#[test]
fn no_page_to_erase_or_read(rt: HostRuntime) {
    let mut board = Board::<4, 4>::filled(BLANK);
    let mut buffer = [0u8; 518];
    let mut page = [0u8; 518];
    let mut user = [0u8; 518];
    let mut options = [0u8; 518];
    let mut loader = board.start(2);
    let greeted = send(&mut loader, b"\x5A", &mut buffer);
    let taken = send(&mut loader, ERASE_ALL, &mut buffer);
    let (erased, ticket) = work(&mut loader, &mut buffer);
    let mut loader = restart(loader, ticket);
    let (idle, ticket) = work(&mut loader, &mut page);
    let mut loader = restart(loader, ticket);
    let _ = send(&mut loader, ERASE_PAGE_0, &mut page);
    let _ = send(&mut loader, READ_4, &mut user);
    let shown = send(
        &mut loader,
        b"\x85\xF1\x00\x06\x1F\xFF\xF8\x00\x00\x10\xFF\x9E",
        &mut options,
    );
    let _ = off(loader, None);
    assert_eq!(rt; greeted, Received::Bytes(1));
    assert_eq!(rt; taken, Received::TakenUp);
    assert_eq!(rt; erased, Answer::Bytes(4));
    assert!(rt; &buffer[0..4] == DONE);
    assert_eq!(rt; idle, Answer::Idle);
    assert!(rt; &page[0..4] == b"\xB3\x6A\x00\x00".as_slice());
    assert!(rt; &user[0..4] == b"\xB3\x6A\x00\x00".as_slice());
    assert_eq!(rt; shown, Received::Bytes(22));
    assert!(rt;
        &options[0..22]
            == b"\xB3\x90\x00\x10\xAA\x00\x00\x00\x01\x02\x03\x04\x05\x06\x07\x08\x09\x0A\x0B\x0C\xCC\x33".as_slice()
    );
}

#[test]
fn no_page_opens_at_once(rt: HostRuntime) {
    let mut board = Board::<4, 4>::filled(BLANK);
    let mut buffer = [0u8; 518];
    let mut locked = [0u8; 518];
    let mut opened = [0u8; 518];
    let mut loader = board.start(2);
    let _ = send(&mut loader, b"\x5A", &mut buffer);
    let (protected, ticket) = serve(&mut loader, PROTECT, &mut buffer);
    let mut loader = restart(loader, ticket);
    let _ = send(&mut loader, b"\x5A", &mut locked);
    let _ = send(&mut loader, GET_LEVEL, &mut locked);
    let (unprotected, ticket) = serve(&mut loader, UNPROTECT, &mut buffer);
    let mut loader = restart(loader, ticket);
    let _ = send(&mut loader, b"\x5A", &mut opened);
    let _ = send(&mut loader, GET_LEVEL, &mut opened);
    let flash = off(loader, None);
    assert_eq!(rt; protected, Answer::BytesAndTicket(4));
    assert!(rt; &locked[0..7] == b"\xB3\x90\x00\x01\x01\xE1\xF1".as_slice());
    assert_eq!(rt; unprotected, Answer::BytesAndTicket(4));
    assert!(rt; &buffer[0..4] == DONE);
    assert!(rt; &opened[0..7] == b"\xB3\x90\x00\x01\x00\xF0\x78".as_slice());
    assert_eq!(rt; flash.option_word(0), Ok(0xAA));
    assert_eq!(rt; flash.option_word(3), Ok(0x0C0B_0A09));
    assert_eq!(rt; flash.option_writes_left(), 0);
}

#[test]
fn two_chips_written_and_erased(rt: HostRuntime) {
    let mut board = PairBoard::filled(0xFFFF, 0xFFFF);
    let mut buffer = [0u8; 518];
    let mut full = [0u8; 518];
    let mut refusal = [0u8; 518];
    let mut blank = [0u8; 518];
    let mut loader = board.start();
    let _ = send(&mut loader, b"\x5A", &mut buffer);
    let (written, ticket) = serve(&mut loader, WRITE, &mut buffer);
    let mut loader = restart(loader, ticket);
    let _ = send(&mut loader, READ_4, &mut full);
    let (again, ticket) = serve(&mut loader, WRITE, &mut refusal);
    let mut loader = restart(loader, ticket);
    let report = loader.fault();
    let (erased, ticket) = serve(&mut loader, ERASE_PAGE_0, &mut buffer);
    let mut loader = restart(loader, ticket);
    let _ = send(&mut loader, READ_4, &mut blank);
    let flash = off(loader, None);
    assert_eq!(rt; written, Answer::Bytes(4));
    assert!(rt; &full[0..10] == b"\xB3\x90\x00\x04\x11\x22\x33\x44\x0D\xAD".as_slice());
    assert_eq!(rt; again, Answer::Bytes(4));
    assert!(rt; &refusal[0..4] == b"\xB3\x65\x00\x00".as_slice());
    assert_eq!(rt; erased, Answer::Bytes(4));
    assert!(rt; &buffer[0..4] == DONE);
    assert!(rt; &blank[0..10] == b"\xB3\x90\x00\x04\xFF\xFF\xFF\xFF\x0F\x47".as_slice());
    assert_eq!(rt; flash.erases_left(0), Ok(2));
    assert_eq!(rt;
        report,
        Some(CommandFault {
            memory: MemoryFault {
                flash: FlashFault {
                    cause: Cause::NotErased,
                    asked: Asked::Word(0),
                },
                address: 0x0800_0000,
            },
            command: 0xF2,
        })
    );
}

#[test]
fn two_chips_locked_and_opened(rt: HostRuntime) {
    let mut board = PairBoard::filled(0x1122, 0x3344);
    let mut buffer = [0u8; 518];
    let mut locked = [0u8; 518];
    let mut blank = [0u8; 518];
    let mut loader = board.start();
    let _ = send(&mut loader, b"\x5A", &mut buffer);
    let (protected, ticket) = serve(&mut loader, PROTECT, &mut buffer);
    let mut loader = restart(loader, ticket);
    let _ = send(&mut loader, b"\x5A", &mut locked);
    let _ = send(&mut loader, READ_4, &mut locked);
    let taken = send(&mut loader, UNPROTECT, &mut buffer);
    let (eighth, ticket) = work_on(&mut loader, 8, &mut buffer);
    let mut loader = restart(loader, ticket);
    let (ninth, ticket) = work(&mut loader, &mut buffer);
    let mut loader = restart(loader, ticket);
    let _ = send(&mut loader, b"\x5A", &mut blank);
    let _ = send(&mut loader, READ_4, &mut blank);
    let flash = off(loader, None);
    assert_eq!(rt; protected, Answer::BytesAndTicket(4));
    assert!(rt; &locked[0..4] == b"\xB3\x63\x00\x00".as_slice());
    assert_eq!(rt; taken, Received::TakenUp);
    assert_eq!(rt; eighth, Answer::Going);
    assert_eq!(rt; ninth, Answer::BytesAndTicket(4));
    assert!(rt; &blank[0..10] == b"\xB3\x90\x00\x04\xFF\xFF\xFF\xFF\x0F\x47".as_slice());
    assert_eq!(rt; flash.word(1023), Ok(BLANK));
}

#[test]
fn a_small_buffer_takes_no_byte(rt: HostRuntime) {
    let mut board = Board::<1024, 8>::filled(BLANK);
    let mut small = [0xEEu8; 517];
    let mut buffer = [0xEEu8; 518];
    let mut loader = board.start(2);
    let refused = send(&mut loader, b"\x5A", &mut small);
    let deaf = send(&mut loader, READ_512, &mut buffer);
    let greeted = send(&mut loader, b"\x5A", &mut buffer);
    let open = send(
        &mut loader,
        b"\x85\xF1\x00\x06\x08\x00\x00\x00\x02\x00\xE5",
        &mut buffer,
    );
    let last = send(&mut loader, b"\x67", &mut small);
    let shown = send(&mut loader, b"\x67", &mut buffer);
    let _ = off(loader, None);
    assert_eq!(rt; refused, Received::SmallBuffer);
    assert_eq!(rt; deaf, Received::Quiet);
    assert_eq!(rt; greeted, Received::Bytes(1));
    assert_eq!(rt; open, Received::Quiet);
    assert_eq!(rt; last, Received::SmallBuffer);
    assert!(rt; &small[0..517] == [0xEE; 517].as_slice());
    assert_eq!(rt; shown, Received::Bytes(518));
    assert!(rt; &buffer[0..4] == b"\xB3\x90\x02\x00".as_slice());
    assert!(rt; &buffer[4..516] == [0xFF; 512].as_slice());
    assert!(rt; &buffer[516..518] == b"\x56\x69".as_slice());
}

#[test]
fn a_small_buffer_does_no_work(rt: HostRuntime) {
    let mut board = Board::<1024, 8>::filled(0u32);
    let mut small = [0xEEu8; 517];
    let mut buffer = [0xEEu8; 600];
    let mut loader = board.start(2);
    let _ = send(&mut loader, b"\x5A", &mut buffer);
    let taken = send(&mut loader, ERASE_PAGE_0, &mut buffer);
    let (refused, ticket) = work(&mut loader, &mut small);
    let mut loader = restart(loader, ticket);
    let (erased, ticket) = work(&mut loader, &mut buffer);
    let flash = off(loader, ticket);
    assert_eq!(rt; taken, Received::TakenUp);
    assert_eq!(rt; refused, Answer::SmallBuffer);
    assert!(rt; &small[0..517] == [0xEE; 517].as_slice());
    assert_eq!(rt; erased, Answer::Bytes(4));
    assert!(rt; &buffer[0..4] == DONE);
    assert!(rt; &buffer[4..600] == [0xEE; 596].as_slice());
    assert_eq!(rt; flash.erases_left(0), Ok(2));
    assert_eq!(rt; flash.word(127), Ok(BLANK));
    assert_eq!(rt; flash.word(128), Ok(0));
}

#[test]
fn a_ticket_of_another_part(rt: HostRuntime) {
    let mut board = Board::<4, 4>::filled(BLANK);
    let mut other_board = Board::<4, 4>::filled(BLANK);
    let mut buffer = [0u8; 518];
    let mut level = [0u8; 518];
    let mut this = board.start(1);
    let mut other = other_board.start(1);
    let _ = send(&mut this, b"\x5A\x85\xA0\x00\x00", &mut buffer);
    let _ = send(&mut other, b"\x5A\x85\xA0\x00\x00", &mut buffer);
    let (said, ticket) = work(&mut this, &mut buffer);
    let (other_said, other_ticket) = work(&mut other, &mut buffer);
    let mut this = restart(this, other_ticket);
    let heard = send(&mut this, b"\x5A", &mut level);
    let _ = send(&mut this, GET_LEVEL, &mut level);
    let deaf = send(&mut other, b"\x5A", &mut buffer);
    let (idle, none) = work(&mut other, &mut buffer);
    let other = restart(other, none);
    let mut other = restart(other, ticket);
    let again = send(&mut other, b"\x5A", &mut buffer);
    let _ = off(this, None);
    let _ = off(other, None);
    assert_eq!(rt; said, Answer::BytesAndTicket(4));
    assert_eq!(rt; other_said, Answer::BytesAndTicket(4));
    assert_eq!(rt; heard, Received::Bytes(1));
    assert!(rt; &level[0..7] == b"\xB3\x90\x00\x01\x01\xE1\xF1".as_slice());
    assert_eq!(rt; deaf, Received::Quiet);
    assert_eq!(rt; idle, Answer::Idle);
    assert_eq!(rt; again, Received::Bytes(1));
}

#[test]
fn off_gives_back_the_flash(rt: HostRuntime) {
    let mut board = Board::<1024, 8>::filled(BLANK);
    let mut buffer = [0u8; 518];
    let mut loader = board.start(1);
    let _ = send(&mut loader, b"\x5A", &mut buffer);
    let (written, ticket) = serve(&mut loader, WRITE, &mut buffer);
    let mut loader = restart(loader, ticket);
    let _ = send(&mut loader, PROTECT, &mut buffer);
    let (protected, ticket) = work(&mut loader, &mut buffer);
    let flash = off(loader, ticket);
    assert_eq!(rt; written, Answer::Bytes(4));
    assert_eq!(rt; protected, Answer::BytesAndTicket(4));
    assert_eq!(rt; flash.word(0), Ok(0x4433_2211));
    assert_eq!(rt; flash.word(1), Ok(BLANK));
    assert_eq!(rt; flash.option_word(0), Ok(0));
    assert_eq!(rt; flash.option_word(1), Ok(0x0403_0201));
    flash.give_up();
    assert_eq!(rt; board.words[0], 0x4433_2211);
}

#[test]
fn what_get_tells(rt: HostRuntime) {
    let mut board = Board::<1024, 8>::filled(BLANK);
    let mut buffer = [0xEEu8; 600];
    let mut uid = [0u8; 518];
    let mut version = [0u8; 518];
    let mut device = [0u8; 518];
    let mut loader = board.start(1);
    let _ = send(&mut loader, b"\x5A", &mut buffer);
    let told = send(&mut loader, b"\x85\x01\x00\x01\x00\xF0\x78", &mut buffer);
    let _ = send(&mut loader, b"\x85\x01\x00\x01\x01\xE1\xF1", &mut uid);
    let _ = send(&mut loader, b"\x85\x01\x00\x01\x03\xC2\xE3", &mut version);
    let _ = send(&mut loader, b"\x85\x01\x00\x01\x04\xB6\x5C", &mut device);
    let _ = off(loader, None);
    assert_eq!(rt; told, Received::Bytes(16));
    assert!(rt;
        &buffer[0..16]
            == b"\xB3\x90\x00\x0A\x5A\x01\xF1\xF2\xF3\xF4\xA0\xA1\x00\x00\x77\x5B".as_slice()
    );
    assert!(rt; &buffer[16..600] == [0xEE; 584].as_slice());
    assert!(rt;
        &uid[0..18]
            == b"\xB3\x90\x00\x0C\x10\x11\x12\x13\x14\x15\x16\x17\x18\x19\x1A\x1B\xDD\x06".as_slice()
    );
    assert!(rt; &version[0..10] == b"\xB3\x90\x00\x04\x01\x02\x00\x00\x55\xDD".as_slice());
    assert!(rt; &device[0..12] == b"\xB3\x90\x00\x06\xA1\xB2\x00\x04\x03\x04\x34\x47".as_slice());
}

// A work call's answer held with a number in the ticket's place.
#[test]
fn a_number_in_the_place_of_the_ticket(rt: HostRuntime) {
    let (small, no_number) = Worked::<u32>::SmallBuffer.split();
    let (idle, idle_number) = Worked::<u32>::Idle.split();
    let (going, going_number) = Worked::<u32>::Going.split();
    let (done, done_number) = Worked::<u32>::Bytes(4).split();
    let this = Worked::BytesAndTicket(4, 7);
    let other = Worked::BytesAndTicket(4, 8);
    let alike = this == other;
    let (written, number) = this.split();
    let (_, other_number) = other.split();
    assert_eq!(rt; (small, no_number), (Answer::SmallBuffer, None));
    assert_eq!(rt; (idle, idle_number), (Answer::Idle, None));
    assert_eq!(rt; (going, going_number), (Answer::Going, None));
    assert_eq!(rt; (done, done_number), (Answer::Bytes(4), None));
    assert_eq!(rt; (written, number), (Answer::BytesAndTicket(4), Some(7u32)));
    assert_eq!(rt; other_number, Some(8));
    assert!(rt; !alike);
}

#[test]
fn whether_a_ticket_came(rt: HostRuntime) {
    assert_eq!(rt; Answer::SmallBuffer.split(), (Answer::SmallBuffer, None));
    assert_eq!(rt; Answer::Idle.split(), (Answer::Idle, None));
    assert_eq!(rt; Answer::Going.split(), (Answer::Going, None));
    assert_eq!(rt; Answer::Bytes(4).split(), (Answer::Bytes(4), None));
    assert_eq!(rt;
        Answer::BytesAndTicket(4).split(),
        (Answer::BytesAndTicket(4), Some(()))
    );
}
