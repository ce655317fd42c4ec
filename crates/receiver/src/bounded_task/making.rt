// Bounded tasks made of tasks.
ghost use Rattle.receiver.specs.BoundedTasks.{BoundsTask};

use crate::bounded_task::{BoundedTask, UnboundedTask};
use crate::task::Task;

// A task that is not bounded is refused.
impl TryFrom<Task> for BoundedTask {
    type Error = UnboundedTask;

    ghost try_from_gives = { BoundsTask };

    fn try_from(task: Task) -> Result<BoundedTask, UnboundedTask> {
        if task.bounded() {
            Ok(BoundedTask { task })
        } else {
            Err(UnboundedTask)
        }
    }
}
