//! A machine that runs the flat code of WebAssembly functions (core section 4) and charges a budget for it.
#![tactic(auto)]

mod calls;
mod frames;
mod jumps;
mod machine;
mod operands;
mod payment;
mod plain;
mod quick;
mod run;
mod step;
mod store;

pub use calls::{add_locals, call, call_import, call_indirect, is_import, same_types};
pub use frames::{Frames, Waiting};
pub use jumps::{jump, leave};
pub use machine::{MachineState, Outcome, Quick};
pub use operands::{Operands, put_numbers};
pub use payment::pay;
pub use run::{Paused, run as go_on};
pub use store::{PAGE_BYTES, Store};
