// What a whole frame asks for.
ghost use Rattle.std.specs.Prelude.{◌≡◌, ℕ, ◌/◌, true, false, List, length, take};
ghost use Rattle.areas.specs.Areas.{wholly, place_of};
ghost use Rattle.flash.specs.Meaning.{Meaning};
ghost use Rattle.commands.specs.declared.kinds.Level.{Level};
ghost use Rattle.commands.specs.Kinds.{mode_byte};
ghost use Rattle.frame.specs.Places.{judged, asked, Placed, Lawful};
ghost use Rattle.commands.specs.Requests.{erase_within, stored_bytes};
ghost use Rattle.part.specs.declared.identity.Identity.{Identity};
ghost use Rattle.part.specs.Receiving.{answered, served, taking, write_task, erase_task};
ghost use Rattle.receiver.specs.Receivers.{ordered_as};
ghost use Rattle.receiver.specs.States.{hand_for, ticket_for, Modest};

use crate::bounded_task::BoundedTask;
use crate::state::Order;
use crate::task::Task;
use areas::{Area, place_of};
use commands::{EraseMode, Level, Refusal};
use frame::{Command, WriteData, judge};

// The pages of an Erase that lie in the flash, with none of them done.
fn erase_task(pages: u32, mode: EraseMode, index: u32, count: u32) -> BoundedTask
    requires { erase_within pages (mode_byte mode) index count ≡ true }
    ensures erases { (s : List ℕ) → hand_for result.task s ≡ erase_task pages (mode_byte mode) index count }
    ensures command { ticket_for result.task ≡ false }
{
    let (first, count) = match mode {
        EraseMode::Pages => (index, count),
        EraseMode::Blocks => (8 * index, 8 * count),
        EraseMode::All => (0, pages),
    };
    BoundedTask {
        task: Task::Erasing {
            first,
            count,
            done: 0,
        },
    }
}

// A Write of such data, with none of them done. They stand in the frame behind the address.
fn write_order(pages: u32, written: WriteData<'_>) -> Order
    requires { wholly pages written.address (length written.bytes.now) ≡ true }
    ensures writes { (i : Identity) (level : Level) (m : Meaning) (s : List ℕ) → stored_bytes s (length written.entry.bytes.now / 4) ≡ written.entry.bytes.now → ordered_as i level m s result ≡ taking (write_task (place_of pages written.entry.address).0 (place_of pages written.entry.address).1 written.entry.bytes.now) }
    ensures modest { Modest result }
{
    let words = written.count();
    match place_of(pages, written.address()) {
        (Area::User, first) => Order::Take(BoundedTask {
            task: Task::Writing {
                first,
                words,
                done: 0,
            },
        }),
        (Area::Options, first) => Order::Take(BoundedTask {
            task: Task::Setting { first, words },
        }),
        (Area::Outside, _) => Order::Ignore,
    }
}

// What a command that no place stops asks for.
fn order(command: Command<'_>, pages: u32) -> Order
    requires { Lawful pages command }
    ensures serves { (i : Identity) (level : Level) (m : Meaning) (f s : List ℕ) → m.pages ≡ pages → Placed f command.entry → take (length f) s ≡ f → served i level m (asked command.entry) ≡ ordered_as i level m s result }
    ensures modest { Modest result }
{
    match command {
        Command::Get { information } => Order::Tell(information),
        Command::Read { address, count } => {
            let (area, first) = place_of(pages, address);
            Order::Show {
                area,
                first,
                count: count as u32 / 4,
            }
        }
        Command::Write { data, .. } => write_order(pages, data),
        Command::MemoryCrc {
            address,
            count,
            value,
        } => {
            let (_, first) = place_of(pages, address);
            Order::Take(BoundedTask {
                task: Task::Checking {
                    first,
                    count: count / 4,
                    value,
                    done: 0,
                    register: 0xFFFF,
                },
            })
        }
        Command::Erase { mode, index, count } => {
            Order::Take(erase_task(pages, mode, index, count))
        }
        Command::Protect => Order::Take(BoundedTask {
            task: Task::Protecting,
        }),
        Command::Unprotect => Order::Take(BoundedTask {
            task: Task::Unprotecting { done: 0 },
        }),
    }
}

// What a whole frame asks of a part at a level and with so many pages. A Write's data stay where they are: in whatever store
// has the frame at its head.
pub fn decide(frame: &[u8], level: Level, pages: u32) -> Order
    ensures is_what_the_frame_asks_for { (i : Identity) (m : Meaning) (s : List ℕ) → m.pages ≡ pages → take (length frame.now) s ≡ frame.now → answered i level m (judged level pages frame.now) ≡ ordered_as i level m s result }
    ensures fits_an_answer_and_takes_a_command { Modest result }
{
    match judge(frame, level, pages) {
        Ok(command) => order(command, pages),
        Err(Refusal::Code(code)) => Order::Refuse(code),
        Err(Refusal::Local(_)) => Order::Ignore,
    }
}
