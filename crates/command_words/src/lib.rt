//! The words of the command line: which are right, and the request that they make.
#![tactic(auto)]

mod commands;
mod error;
mod matches;
mod request;
mod values;
mod words;

pub use error::WordsErr;
pub use matches::{is_given, is_set, number_of, value_of};
pub use request::{
    ApplyListRequest, ApplyRequest, BuildRequest, GenRequest, MigrateRequest, PlayRequest,
    RecordRequest, Request, ScheduleOptions, ShowKind, ShowRequest, SimulateRequest, VetRequest,
};
pub use values::{are_names, number_in};
pub use words::request_of;
