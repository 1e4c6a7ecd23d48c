//! Values that contracts hold by handles.
#![tactic(auto)]

mod objects;
mod small;
mod words;

pub use objects::{Objects, ShowErr, Shown};
pub use small::small_value;
pub use words::{Bad, Ref, TakeErr};
