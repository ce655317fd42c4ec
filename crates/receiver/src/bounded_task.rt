// Tasks that a receiver can be busy with.
ghost use Rattle.std.specs.Prelude.{◌≡◌, true};
ghost use Rattle.receiver.specs.Tasks.{bounded};

use crate::task::Task;

mod making;

// A task whose numbers are bounded. A receiver is busy with no other.
#[derive(Clone, Copy, PartialEq, Eq, Debug)]
pub struct BoundedTask {
    pub task: Task,
    pub ghost fits: { bounded task ≡ true },
}

// The refusal of a task that is not bounded.
#[derive(Clone, Copy, PartialEq, Eq, Debug)]
pub struct UnboundedTask;
