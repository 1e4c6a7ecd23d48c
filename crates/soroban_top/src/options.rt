//! The numbers of the file options of each command, for which failed calls are counted.

/// The number of `--set` of `apply`.
pub const SET: u8 = 0;

/// The number of `--ledger` of `apply`, `simulate` and `apply-list`.
pub const LEDGER: u8 = 1;

/// The number of `--verdicts` of `apply`, `simulate` and `apply-list`.
pub const VERDICTS: u8 = 2;

/// The number of `--report`.
pub const REPORT: u8 = 3;

/// The number of `--ledger-out`.
pub const LEDGER_OUT: u8 = 4;

/// The number of `--schedule`.
pub const SCHEDULE: u8 = 5;

/// The number of `--log` of `apply`.
pub const LOG_OUT: u8 = 6;

/// The number of `--tx` of `simulate`.
pub const TX: u8 = 0;

/// The number of `--out` of `simulate`.
pub const OUT: u8 = 3;

/// The number of `--ledger` of `migrate`.
pub const MIGRATED_LEDGER: u8 = 0;

/// The number of `--out` of `migrate`.
pub const MIGRATED_OUT: u8 = 1;

/// The number of `--set` of `gen`.
pub const MADE_SET: u8 = 0;

/// The number of `--ledger` of `gen`.
pub const MADE_LEDGER: u8 = 1;

/// The number of `--verdicts` of `gen`.
pub const MADE_VERDICTS: u8 = 2;

/// The number of `--list` of `build` and `apply-list`.
pub const LISTED: u8 = 0;

/// The number of `--set` of `build`.
pub const BUILT_SET: u8 = 1;

/// The number of `--log` of `play`.
pub const PLAYED_LOG: u8 = 0;

/// The number of `--ledger` of `play`.
pub const PLAYED_LEDGER: u8 = 1;

/// The number of `--ledger-out` of `play`.
pub const PLAYED_OUT: u8 = 2;

/// The number of `--tx` of `record`.
pub const RECORDED_TX: u8 = 0;

/// The number of `--ledger` of `record`.
pub const RECORDED_LEDGER: u8 = 1;

/// The number of `--out` of `record`.
pub const RECORDED_OUT: u8 = 2;

/// The number of the one file option of `show` and of `vet`.
pub const ONLY_FILE: u8 = 0;
