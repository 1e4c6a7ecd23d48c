//! What the words ask for.

use edge_io::Word;
use set_place::Place;

/// How a run is made and shown.
#[derive(Clone, Copy, Debug)]
pub struct Form {
    /// Whether the footprint is the one that the run needs, and not the one that the envelope declares.
    pub recorded: bool,
    /// Whether the trace is a JSON document.
    pub json: bool,
    /// How many lines of the trace are kept at most.
    pub lines: usize,
}

/// What is run.
#[derive(Clone, Copy, Debug)]
pub enum Target {
    /// The transaction of an envelope, on the ledger as it is.
    Envelope,
    /// The transaction at a place of a set, on the ledger that it meets there.
    InSet(Place),
}

/// A request: a run, and the files that it needs.
#[derive(Debug, Drop)]
pub struct Request {
    pub target: Target,
    /// The file of the envelope or of the set.
    pub file: Word,
    /// Whether that file is base64 text.
    pub base64: bool,
    /// The file of the ledger before the transaction, or before the set.
    pub ledger: Word,
    pub verdicts: Word,
    /// The close time of the ledger that is made, in seconds since 1970.
    pub close_time: u64,
    pub form: Form,
}
