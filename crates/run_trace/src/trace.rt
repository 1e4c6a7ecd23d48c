//! The observer: what it holds.

ghost use Rattle.std.specs.Prelude.{◌≡◌, ◌≤◌, [], length, IfOk};

use crate::calls::Calls;
use crate::line::Line;
use contract_storage::Access;
use http_server::Log;
use ledger_types::LedgerKey;
use std::alloc::{AllocError, Global};

/// An observer that keeps what a run did, as lines. From the first line on that is one too many, whose keys and values do not
/// fit, or for which there is no memory, it only counts them.
#[derive(Drop)]
pub struct Trace {
    pub(crate) alloc: Global,
    pub(crate) calls: Calls,
    /// How many bytes of keys and values it may still keep, as XDR counts them.
    pub(crate) room: u64,
    /// What it keeps, in the order in which it was told.
    pub lines: Vec<Line>,
    /// How many lines it keeps at most.
    pub most: usize,
    /// How many lines it was told and does not keep.
    pub left_out: u64,
    /// The accesses that those lines tell of. It has no bytes: only proofs read it.
    pub(crate) missed: Log<Access, LedgerKey>,
    ghost bounded: { length lines.items ≤ most },
    ghost whole: { left_out ≡ 0 → length missed.items ≡ 0 },
}

impl Trace {
    ghost use Rattle.run_trace.specs.Lines.{told_of};

    /// An observer that has been told nothing. It keeps at most `most` lines, with at most `room` bytes of keys and values.
    #[tactic(auto, using(crate::proofs::Showing::nothing_told))]
    pub fn new(alloc: Global, most: usize, room: u64) -> Result<Trace, AllocError>
        ensures most { IfOk result (λ trace. trace.most ≡ most) }
        ensures lines { IfOk result (λ trace. trace.lines.items ≡ []) }
        ensures left_out { IfOk result (λ trace. trace.left_out ≡ 0) }
        ensures calls { IfOk result (λ trace. trace.calls.held.items ≡ []) }
        ensures told { IfOk result (λ trace. told_of trace ≡ []) }
    {
        Ok(Trace {
            alloc,
            calls: Calls::new(alloc)?,
            room,
            lines: Vec::new(alloc),
            most,
            left_out: 0,
            missed: Log::new(),
        })
    }
}
