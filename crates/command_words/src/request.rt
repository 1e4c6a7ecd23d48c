//! Requests: commands with their options.

use edge_io::Word;

/// The options of `apply`.
#[derive(Debug, Drop)]
pub struct ApplyRequest {
    /// The file of the transaction set.
    pub set: Word,
    /// The file of the ledger before the set.
    pub ledger: Word,
    pub verdicts: Word,
    /// The close time of the new ledger, in seconds since 1970.
    pub close_time: u64,
    /// The number of workers, from 1 to 64. The result is the same for any number.
    pub workers: u64,
    /// The file that gets the results.
    pub report: Word,
    /// The file that gets the new ledger.
    pub ledger_out: Word,
    /// The order in which the transactions run, if it is given.
    pub schedule: Option<ScheduleOptions>,
    /// The file that gets the change log, if one is asked for. It is not asked for together with a schedule.
    pub log: Option<Word>,
    /// Whether the set's file is base64 text.
    pub base64: bool,
}

/// The order in which `apply` runs the transactions of a set.
#[derive(Debug, Drop)]
pub struct ScheduleOptions {
    /// The file of the schedule.
    pub file: Word,
    /// How many transactions run, counted over all stages. More than a set has run all of them.
    pub steps: u64,
}

/// The options of `simulate`.
#[derive(Debug, Drop)]
pub struct SimulateRequest {
    /// The file of the transaction's envelope.
    pub tx: Word,
    /// The file of the ledger before the transaction.
    pub ledger: Word,
    pub verdicts: Word,
    /// The close time of the ledger that is made, in seconds since 1970.
    pub close_time: u64,
    /// The file that gets the footprint and the result.
    pub out: Word,
    /// Whether the envelope's file is base64 text.
    pub base64: bool,
}

/// The kinds of files that `show` reads.
#[derive(Clone, Copy, Debug, PartialEq, Eq)]
pub enum ShowKind {
    Set,
    Envelope,
    Ledger,
    Value,
}

/// The options of `show`.
#[derive(Debug, Drop)]
pub struct ShowRequest {
    pub kind: ShowKind,
    pub file: Word,
    /// Whether the file is base64 text.
    pub base64: bool,
}

/// The options of `vet`.
#[derive(Debug, Drop)]
pub struct VetRequest {
    /// The file of the WebAssembly module.
    pub module_file: Word,
}

/// The options of `migrate`.
#[derive(Debug, Drop)]
pub struct MigrateRequest {
    /// The file of the ledger, in any version.
    pub ledger: Word,
    /// The file that gets the ledger in the newest version.
    pub ledger_out: Word,
}

/// The options of `gen`.
#[derive(Debug, Drop)]
pub struct GenRequest {
    /// The number of transactions, from 1 to 100,000.
    pub count: u64,
    /// The first draw of the generator's random numbers.
    pub seed: u64,
    /// The file that gets the transaction set.
    pub set: Word,
    /// The file that gets the ledger.
    pub ledger: Word,
    /// The file that gets the verdicts.
    pub verdicts: Word,
}

/// The options of `build`.
#[derive(Debug, Drop)]
pub struct BuildRequest {
    /// The file of the envelopes.
    pub list: Word,
    /// The largest number of clusters of a stage, from 1 to 1,024.
    pub clusters: u64,
    /// The file that gets the transaction set.
    pub set: Word,
}

/// The options of `play`.
#[derive(Debug, Drop)]
pub struct PlayRequest {
    /// The file of the change log.
    pub log: Word,
    /// The file of the ledger that the log is played on.
    pub ledger: Word,
    /// The file that gets the ledger that the log leads to.
    pub ledger_out: Word,
    /// Whether the log is played backwards.
    pub back: bool,
}

/// The options of `apply-list`.
#[derive(Debug, Drop)]
pub struct ApplyListRequest {
    /// The file of the envelopes.
    pub list: Word,
    /// The file of the ledger before the list.
    pub ledger: Word,
    pub verdicts: Word,
    /// The close time of the new ledger, in seconds since 1970.
    pub close_time: u64,
    /// The number of workers, from 1 to 64. The result is the same for any number.
    pub workers: u64,
    /// The file that gets the results.
    pub report: Word,
    /// The file that gets the new ledger.
    pub ledger_out: Word,
}

/// The options of `record`.
#[derive(Debug, Drop)]
pub struct RecordRequest {
    /// The file of the transaction's envelope.
    pub tx: Word,
    /// The file of the ledger before the transaction.
    pub ledger: Word,
    /// The close time of the ledger that is made, in seconds since 1970.
    pub close_time: u64,
    /// The nonce of the first entry that is not the source account's, from 0 to 2^62.
    pub nonce: u64,
    /// The last ledger in which signatures of the entries are valid.
    pub expiration: u64,
    /// The file that gets the entries.
    pub out: Word,
}

/// A command, with its options.
#[derive(Debug, Drop)]
pub enum Request {
    Apply(ApplyRequest),
    Simulate(SimulateRequest),
    Show(ShowRequest),
    Vet(VetRequest),
    Migrate(MigrateRequest),
    Gen(GenRequest),
    Build(BuildRequest),
    Play(PlayRequest),
    ApplyList(ApplyListRequest),
    Record(RecordRequest),
}
