//! What the run of every command is made of: its status, its outcomes, and the files that it reads and makes.
#![tactic(auto)]

mod ahead;
mod asked;
mod context;
mod endings;
mod frame;
mod status;

pub use ahead::next_record;
pub use asked::plan;
pub use context::{Context, Machine};
pub use endings::{print_fault, print_side, print_unopened, unmade};
pub use frame::in_frame;
pub use status::Status;
