//! The host interface as data: the functions of the host that a contract can import, with the kinds of their arguments and
//! results.
//!
//! Every host import is a WebAssembly function from 64-bit words to one 64-bit word. The kinds say what a word stands for.
#![tactic(auto)]

mod import;
mod kinds;
mod laws;
mod names;
mod rows;

pub use import::HostImport;
pub use kinds::{ArgKind, ResultKind};
pub use laws::names_differ;
pub use names::{import_named, row_named};
pub use rows::{HOST_ROWS, HostRow, TableRow};
