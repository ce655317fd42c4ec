// The receiver's side of a loader: bytes become frames, and a whole frame becomes an order. It knows no flash.
#![tactic(auto)]

mod bounded_task;
mod deciding;
mod receiver;
mod state;
mod store;
mod task;

pub use bounded_task::{BoundedTask, UnboundedTask};
pub use deciding::decide;
pub use receiver::Receiver;
pub use state::{Order, Reception, State};
pub use store::FrameStore;
pub use task::Task;
