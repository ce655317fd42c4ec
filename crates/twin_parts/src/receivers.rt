// Comparing two receivers.
ghost use Rattle.std.specs.Prelude.{◌≡◌, Decides};
ghost use Rattle.twin_parts.specs.Hands.{Alike, data_in};

use frame::WriteData;
use receiver::{BoundedTask, Receiver, Task};

// Whether the data of a task are equal in two stores; a task that is no Write has none.
fn same_data(task: Option<BoundedTask>, a: &[u8; 522], b: &[u8; 522]) -> bool
    ensures { Decides result (data_in task a.now ≡ data_in task b.now) }
{
    match task {
        Some(
            BoundedTask {
                task: Task::Writing { words, .. } | Task::Setting { words, .. },
            },
        ) => WriteData::stored(a, words).bytes() == WriteData::stored(b, words).bytes(),
        _ => true,
    }
}

// Whether two receivers agree: connected or not, the open frame, the command in hand with what is done of it, the ticket.
pub fn same_reception(a: &Receiver, b: &Receiver) -> bool
    ensures tells_whether_they_agree { Decides result (Alike a.now b.now) }
{
    let (ours, theirs) = (a.store(), b.store());
    a.connected() == b.connected()
        && a.open_frame() == b.open_frame()
        && a.task() == b.task()
        && same_data(a.task(), ours, theirs)
}
