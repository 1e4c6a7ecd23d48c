//! How a command reads its files whole and decodes them, and how its outcome becomes stored files, printed lines and an exit
//! code.
//!
//! `files` reads the bytes of a file and stores files, `decode` decodes bytes, and `inputs` does both for each kind of input.
//! `content` makes the lines of a file's content, `report` the bytes and the lines that a run leaves. A step that fails returns
//! a `Status`. `finish` prints the command's own lines, or the line of its status.
//!
//! A file is given by the number of its option, for which failed calls are counted, and by its name.
#![tactic(auto)]

mod content;
mod decode;
mod files;
mod inputs;
mod key_bytes;
mod printing;
mod product;
mod report;
mod status;
mod words;

pub use content::{shown_opened, vetted};
pub use files::{read_file, store_all};
pub use inputs::{
    read_any_ledger, read_envelope, read_ledger, read_list, read_log, read_set, read_verdicts,
};
pub use key_bytes::KeyBytes;
pub use printing::finish;
pub use product::{FileArg, OutputFile, Product};
pub use report::{hashed, log_out, push_hash, report_out};
pub use status::Status;
pub use words::asked;
