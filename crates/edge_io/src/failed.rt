//! Errors of calls at the edge.

ghost use Rattle.std.specs.Prelude.{◌≡◌};
ghost use Rattle.edge_io.specs.declared.failed.EdgeErr.TheVariants.{Failed as CallFailed};

use thiserror::Error;

/// The error of a call that failed.
#[derive(Clone, Copy, Debug, PartialEq, Eq, Error)]
#[error("the call failed")]
pub struct Failed;

/// The error of storing or printing.
#[derive(Clone, Copy, Debug, PartialEq, Eq, Error)]
pub enum EdgeErr {
    #[error("the call failed")]
    Failed,
    #[error("out of memory")]
    NoMemory,
}

impl From<Failed> for EdgeErr {
    ghost from_gives = { λ _ error. error ≡ CallFailed };

    fn from(_: Failed) -> EdgeErr {
        EdgeErr::Failed
    }
}

/// The error of reading a whole file.
#[derive(Clone, Copy, Debug, PartialEq, Eq, Error)]
pub enum ReadErr {
    #[error("the file can't be read")]
    Fault,
    #[error("the file is longer than 2^30 bytes")]
    TooLong,
    #[error("out of memory")]
    NoMemory,
}
