// Tasks whose numbers can be added up, and whose option words are among the four.
ghost use Rattle.std.specs.Prelude.{◌≡◌};
ghost use Rattle.receiver.specs.Tasks.{bounded as is_bounded};

use crate::task::Task;

impl Task {
    // Whether the numbers of the task, added up, pass no limit of 32 bits, no more is done of it than there is, a Write
    // has 1 to 128 words, and a Write of option words passes none of the four.
    pub fn bounded(self) -> bool
        ensures tells_whether_sums_fit { result ≡ is_bounded self }
    {
        match self {
            Task::Writing {
                first,
                words,
                done: _,
            } => first < u32::MAX - 255 && 1 <= words && words <= 128,
            Task::Setting { first, words } => 1 <= words && first <= 4 && first + words as u32 <= 4,
            Task::Checking {
                first,
                count,
                value: _,
                done,
                register: _,
            } => done <= count && count <= u32::MAX - first,
            Task::Erasing {
                first,
                count,
                done: _,
            } => count <= u32::MAX - first,
            Task::Protecting | Task::Unprotecting { done: _ } | Task::AwaitingReset => true,
        }
    }
}
