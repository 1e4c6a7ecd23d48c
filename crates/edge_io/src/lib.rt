//! The edge of the program: the files that it reads and stores, its output, and the gate of its workers. Contracts speak of the
//! content of files if it is known, of the number of failed calls, and of objects that are steady.
#![tactic(auto)]

mod blob;
mod disk;
mod failed;
mod files;
mod gate;
mod last_file;
mod meet;
mod mem_files;
mod mem_say;
mod real;
mod real_disk;
mod say;
mod turns;
mod whole;
mod word;

pub use blob::Blob;
pub use disk::{Disk, replace};
pub use failed::{EdgeErr, Failed, ReadErr};
pub use files::Files;
pub use gate::{Gate, OpenGate};
pub use meet::MeetGate;
pub use mem_files::{MemFiles, Stored};
pub use mem_say::MemSay;
pub use real::{RealFiles, StdSay};
pub use say::Say;
pub use whole::read_whole;
pub use word::{Word, longest};
