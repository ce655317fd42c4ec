// One portion of each command.
ghost use Rattle.std.specs.Prelude.{◌≡◌, ℕ, ◌+◌, ◌^◌, ◌<◌, ◌≤◌, false, List, [], ◌∷◌, Ok, Err, MatchResult};
ghost use Rattle.memory.specs.Portions.{options_replaced};
ghost use Rattle.part.specs.Levels.{lock_word, unlock_word};
ghost use Rattle.flash.specs.Effects.{written};
ghost use Rattle.commands.specs.Requests.{stored_bytes};
ghost use Rattle.part.specs.Working.{write_portion, erase_portion, check_portion, unprotect_portion, options_portion, words_from, portion, hand_byte};
ghost use Rattle.receiver.specs.States.{hand_for, ticket_for};
ghost use Rattle.loader.specs.Progresses.{coded, ended, hand_after, outcome_of, left_by};
ghost use Rattle.loader.specs.Faults.{in_command};
ghost use Rattle.commands.specs.Kinds.{kind_byte};

use crate::faults::Refused;
use crate::progress::Progress;
use checksum::Checksum;
use commands::Kind;
use flash::Flash;
use frame::WriteData;
use memory::MemoryFault;
use part::CommandFault;
use receiver::{BoundedTask, Task};

// What Protect and Unprotect make of option word 0.
const LOCK_WORD: u32 = 0;

const UNLOCK_WORD: u32 = 0xAA;

// A Write's next word.
fn write_next<F: Flash>(
    flash: &mut F,
    store: &[u8; 522],
    first: u32,
    words: u8,
    done: u8,
) -> Result<Progress, MemoryFault>
    requires sums_fit { first + 256 < 2 ^ 32 }
    requires whole { (1 ≤ words) × (words ≤ 128) }
    ensures ends { ended store.now result ≡ left_by (write_portion (F.meaning flash.old) first (stored_bytes store.now words) done) }
    ensures leaves { F.meaning flash.new ≡ written (write_portion (F.meaning flash.old) first (stored_bytes store.now words) done).writes (F.meaning flash.old) }
{
    let data = WriteData::stored(store, words);
    let count = data.count();
    memory::program(flash, first + done as u32, data.word(done))?;
    if done as u32 + 1 < count as u32 {
        Ok(Progress::Going(BoundedTask {
            task: Task::Writing {
                first,
                words,
                done: done + 1,
            },
        }))
    } else {
        Ok(Progress::Done)
    }
}

// An Erase's next page. An Erase of no page at all has nothing to do.
fn erase_next<F: Flash>(
    flash: &mut F,
    first: u32,
    count: u32,
    done: u32,
) -> Result<Progress, MemoryFault>
    requires { first + count < 2 ^ 32 }
    ensures ends { (s : List ℕ) → ended s result ≡ left_by (erase_portion (F.meaning flash.old) first count done) }
    ensures leaves { F.meaning flash.new ≡ written (erase_portion (F.meaning flash.old) first count done).writes (F.meaning flash.old) }
{
    if done >= count {
        return Ok(Progress::Done);
    }
    memory::erase(flash, first + done)?;
    if count - done > 1 {
        Ok(Progress::Going(BoundedTask {
            task: Task::Erasing {
                first,
                count,
                done: done + 1,
            },
        }))
    } else {
        Ok(Progress::Done)
    }
}

// Some option words replaced, from `first` on: one portion, and the ticket comes with it.
fn replace_next<F: Flash>(flash: &mut F, first: u32, words: &[u32]) -> Result<Progress, MemoryFault>
    ensures ends { (s : List ℕ) → ended s result ≡ left_by (options_portion (F.meaning flash.old) (options_replaced first words.now (F.meaning flash.old).options)) }
    ensures leaves { F.meaning flash.new ≡ written (options_portion (F.meaning flash.old) (options_replaced first words.now (F.meaning flash.old).options)).writes (F.meaning flash.old) }
{
    memory::replace_options(flash, first, words)?;
    Ok(Progress::DoneWithTicket)
}

// An Unprotect's next page; behind the last page, the option write that opens the part.
fn unprotect_next<F: Flash>(flash: &mut F, done: u32) -> Result<Progress, MemoryFault>
    ensures ends { (s : List ℕ) → ended s result ≡ left_by (unprotect_portion (F.meaning flash.old) done) }
    ensures leaves { F.meaning flash.new ≡ written (unprotect_portion (F.meaning flash.old) done).writes (F.meaning flash.old) }
{
    if done >= flash.pages() {
        return replace_next(flash, 0, &[UNLOCK_WORD]);
    }
    memory::erase(flash, done)?;
    Ok(Progress::Going(BoundedTask {
        task: Task::Unprotecting { done: done + 1 },
    }))
}

// The next words of a Memory CRC, at most 128. The last portion compares.
fn check_next<F: Flash>(
    flash: &F,
    first: u32,
    count: u32,
    value: u16,
    done: u32,
    register: u16,
) -> Progress
    requires some { done ≤ count }
    requires within { first + count < 2 ^ 32 }
    ensures ends { (s : List ℕ) → Ok (hand_after s result, outcome_of result) ≡ left_by (check_portion (F.meaning flash.now) first count value done register) }
{
    let left = count - done;
    let register = memory::feed_words(flash, first + done, left.min(128), register);
    if left > 128 {
        return Progress::Going(BoundedTask {
            task: Task::Checking {
                first,
                count,
                value,
                done: done + 128,
                register,
            },
        });
    }
    if Checksum::resume(register).finish() == value {
        Progress::Done
    } else {
        Progress::Differs
    }
}

// The option words of a Write.
fn set_next<F: Flash>(
    flash: &mut F,
    store: &[u8; 522],
    first: u32,
    words: u8,
) -> Result<Progress, MemoryFault>
    ensures ends { (s : List ℕ) → ended s result ≡ left_by (options_portion (F.meaning flash.old) (options_replaced first (words_from (stored_bytes store.now words)) (F.meaning flash.old).options)) }
    ensures leaves { F.meaning flash.new ≡ written (options_portion (F.meaning flash.old) (options_replaced first (words_from (stored_bytes store.now words)) (F.meaning flash.old).options)).writes (F.meaning flash.old) }
{
    let data = WriteData::stored(store, words);
    let mut list = [0u32; 128];
    let count = data.copy_words(&mut list);
    replace_next(flash, first, &list[0..count])
}

// What the memory answered, as a command answers it: a refusal has the command's byte with it.
fn in_command(kind: Kind, answer: Result<Progress, MemoryFault>) -> Result<Progress, CommandFault>
    ensures { MatchResult answer (λ progress. result ≡ Ok progress) (λ fault. result ≡ Err (in_command (kind_byte kind) fault)) }
{
    Ok(answer.map_err(|memory| Refused { kind, memory })?)
}

// The next portion of a command in hand. A refusal of the flash becomes the command's report.
pub(crate) fn next_portion<F: Flash>(
    flash: &mut F,
    store: &[u8; 522],
    task: BoundedTask,
) -> Result<Progress, CommandFault>
    requires { ticket_for task.task ≡ false }
    ensures ends { ended store.now result ≡ coded (hand_byte (hand_for task.task store.now)) (left_by (portion (hand_for task.task store.now) (F.meaning flash.old))) }
    ensures leaves { F.meaning flash.new ≡ written (portion (hand_for task.task store.now) (F.meaning flash.old)).writes (F.meaning flash.old) }
{
    match task.task {
        Task::Writing { first, words, done } => {
            in_command(Kind::Write, write_next(flash, store, first, words, done))
        }
        Task::Setting { first, words } => {
            in_command(Kind::Write, set_next(flash, store, first, words))
        }
        Task::Checking {
            first,
            count,
            value,
            done,
            register,
        } => Ok(check_next(flash, first, count, value, done, register)),
        Task::Erasing { first, count, done } => {
            in_command(Kind::Erase, erase_next(flash, first, count, done))
        }
        Task::Protecting => in_command(Kind::Protect, replace_next(flash, 0, &[LOCK_WORD])),
        Task::Unprotecting { done } => in_command(Kind::Unprotect, unprotect_next(flash, done)),
        Task::AwaitingReset => Ok(Progress::Done),
    }
}
