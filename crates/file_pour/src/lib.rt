//! Reads a value of a file of a command through a window: the file is poured, piece by piece, up to its end or to 2^30 bytes.
#![tactic(auto)]

mod error;
mod pour;
mod reading;

pub use error::PouredErr;
pub use pour::FilePour;
pub use reading::read_poured;
