//! The calls that have not ended.

ghost use Rattle.std.specs.Prelude.{◌≡◌, ◌≤◌, [], length, vec_capacity, IfOk};

use crate::line::Manner;
use budget_meter::Used;
use std::alloc::{AllocError, Global};

/// How many calls there is room for. The host has at most 64 open frames, and one call that makes its tests.
const MOST: usize = 128;

/// A call that has not ended.
#[derive(Clone, Copy, Debug)]
pub(crate) struct Open {
    /// The sums when it began.
    pub(crate) used: Used,
    pub(crate) manner: Manner,
}

/// The calls that have not ended, the outermost first. There is room for 128 from the start, so that none is lost to memory.
#[derive(Drop)]
pub(crate) struct Calls {
    pub(crate) held: Vec<Open>,
    ghost room: { 128 ≤ vec_capacity held },
}

impl Calls {
    ghost use Rattle.run_trace.specs.Calls.{innermost, around, with_call};

    /// No call has begun.
    pub(crate) fn new(alloc: Global) -> Result<Calls, AllocError>
        ensures { IfOk result (λ calls. calls.held.items ≡ []) }
    {
        Ok(Calls {
            held: Vec::with_capacity(alloc, MOST)?,
        })
    }

    /// How many calls are open.
    pub(crate) fn count(&self) -> usize
        ensures { result ≡ length self.now.held.items }
    {
        self.held.len()
    }

    /// The call that began last.
    pub(crate) fn last(&self) -> Option<Open>
        ensures { result ≡ innermost self.now.held.items }
    {
        self.held.last().copied()
    }

    /// A call begins.
    pub(crate) fn begin(&mut self, call: Open)
        ensures { self.new.held.items ≡ with_call call self.old.held.items }
    {
        if self.held.len() < MOST {
            let pushed = self.held.push(call);
            drop(pushed);
        }
    }

    /// The call that began last ends.
    pub(crate) fn end(&mut self)
        ensures { self.new.held.items ≡ around self.old.held.items }
    {
        let _ended = self.held.pop();
    }
}
