//! The status of a command.

ghost use Rattle.std.specs.Prelude.{◌≡◌};
ghost use Rattle.command_io.specs.declared.status.Status.TheVariants.{NoMemory as OutOfMemory};
ghost use Rattle.command_io.specs.Inputs.{unread, unread_ledger, unplayed};

use crate::KeyBytes;
use change_log::{ListIndex, PlayErr};
use edge_io::Word;
use ledger_file::LedgerErr;
use ledger_spec::LedgerWhy;
use std::alloc::{AllocError, AllocFailed};
use xdr_core::{NoMemory, ReadXdr};
use xdr_spec::Why;

/// The status of a command.
#[derive(Debug, Drop)]
pub enum Status {
    Done,
    /// The words are wrong.
    Usage,
    /// A call for this file failed; with the empty name, a call for the output.
    Fault {
        name: Word,
    },
    /// This file has more than 2^30 bytes.
    TooLong {
        name: Word,
    },
    /// The ledger's file is refused: `at` is a byte offset, the index of a record, or 0.
    Ledger {
        why: LedgerWhy,
        at: u64,
    },
    /// The verdicts' file is refused at this byte offset.
    Verdicts {
        at: u64,
    },
    /// The bytes are no spelling: they are refused at this byte offset, for this reason.
    Malformed {
        at: u64,
        why: Why,
    },
    /// The text of this file is no base64.
    NotBase64 {
        name: Word,
    },
    /// These two clusters of a stage conflict on this key, and the set has no conflict before that: by the index of the stage,
    /// then by those of the clusters, then by the key's XDR bytes.
    Conflict {
        stage: u64,
        a: u64,
        b: u64,
        key: KeyBytes,
    },
    /// The schedule's file is refused at this byte offset.
    Schedule {
        at: u64,
    },
    /// The schedule is not complete for the set: the least index at which a stage has no list, a list has no stage, or a list is
    /// not complete.
    Incomplete {
        stage: u64,
    },
    /// The log does not fit the ledger: the first list that does not, or none if the header does not.
    Unfit {
        at: Option<ListIndex>,
    },
    /// The bytes are no WebAssembly module.
    NotAModule,
    /// The module is ill typed: the index of its first ill-typed function, with imports counted, or none if a rule outside
    /// function bodies is broken.
    Ill {
        func: Option<u32>,
    },
    /// The module's first import that the host does not have with this type.
    Unlinked {
        import: u32,
    },
    NoMemory,
}

impl Status {
    ghost use Rattle.command_io.specs.Lines.{code_of};

    /// The exit code of the program.
    pub fn code(&self) -> u8
        ensures { result ≡ code_of self.now }
    {
        match self {
            Status::Done => 0,
            Status::Malformed { .. }
            | Status::NotBase64 { .. }
            | Status::Conflict { .. }
            | Status::NotAModule
            | Status::Ill { .. }
            | Status::Unlinked { .. } => 1,
            Status::Usage => 2,
            Status::Ledger { .. } | Status::Verdicts { .. } | Status::Schedule { .. } => 3,
            Status::Fault { .. } => 4,
            Status::NoMemory => 5,
            Status::TooLong { .. } => 6,
            Status::Incomplete { .. } => 7,
            Status::Unfit { .. } => 8,
        }
    }
}

impl From<AllocError> for Status {
    ghost from_gives = { λ _ status. status ≡ OutOfMemory };

    fn from(_: AllocError) -> Status {
        Status::NoMemory
    }
}

impl<T: Drop> From<AllocFailed<T>> for Status {
    ghost from_gives = { λ _ status. status ≡ OutOfMemory };

    fn from(_: AllocFailed<T>) -> Status {
        Status::NoMemory
    }
}

impl From<NoMemory> for Status {
    ghost from_gives = { λ _ status. status ≡ OutOfMemory };

    fn from(_: NoMemory) -> Status {
        Status::NoMemory
    }
}

impl From<ReadXdr> for Status {
    ghost from_gives = { λ error status. status ≡ unread error };

    fn from(error: ReadXdr) -> Status {
        match error {
            ReadXdr::Bad(error) => Status::Malformed {
                at: error.at,
                why: error.why,
            },
            // Bytes in memory never stop.
            ReadXdr::NoMemory | ReadXdr::Stopped => Status::NoMemory,
        }
    }
}

impl From<LedgerErr> for Status {
    ghost from_gives = { λ error status. status ≡ unread_ledger error };

    fn from(error: LedgerErr) -> Status {
        match error {
            LedgerErr::Refused(refusal) => Status::Ledger {
                why: refusal.why,
                at: refusal.at,
            },
            LedgerErr::NoMemory => Status::NoMemory,
        }
    }
}

impl From<PlayErr> for Status {
    ghost from_gives = { λ error status. status ≡ unplayed error };

    fn from(error: PlayErr) -> Status {
        match error {
            PlayErr::Unfit { at } => Status::Unfit { at },
            PlayErr::NoMemory => Status::NoMemory,
        }
    }
}
