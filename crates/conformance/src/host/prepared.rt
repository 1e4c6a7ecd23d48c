//! What a call finds: the terms of its budget, the objects that its frame has shown, and the linear memory.

use crate::host::ledger_prepared::PreparedLedger;
use case_text::{Case, CaseErr, Fragments, count, first_word};
use std::alloc::Global;

/// What the next calls find, as the lines of a table spell it.
#[derive(Drop)]
pub struct Prepared {
    /// The settings with the terms of budgets, as XDR.
    pub settings: Vec<u8>,
    /// The values that the frame has shown, in order, as XDR.
    pub shown: Vec<Vec<u8>>,
    /// The number of objects that the frame has shown if it is more than those values.
    pub filled: usize,
    /// The value that all further objects are, as XDR.
    pub filler: Vec<u8>,
    pub memory: Vec<u8>,
    /// What calls over the ledger find besides.
    pub ledger: PreparedLedger,
}

impl Prepared {
    /// No terms, and a frame that has shown nothing and has no memory.
    pub fn new(alloc: Global) -> Prepared {
        Prepared {
            settings: Vec::new(alloc),
            shown: Vec::new(alloc),
            filled: 0,
            filler: Vec::new(alloc),
            memory: Vec::new(alloc),
            ledger: PreparedLedger::new(alloc),
        }
    }

    /// `settings`, `frame`, `fill` or `memory`: prepares what the next calls find.
    pub fn prepare(
        &mut self,
        alloc: Global,
        fragments: &Fragments,
        line: Case,
    ) -> Result<(), CaseErr> {
        match line.kind {
            "settings" => fragments.refill(alloc, &mut self.settings, line.words),
            "frame" => self.begin_frame(alloc, fragments, line.words),
            "fill" => self.fill(alloc, fragments, line.words),
            _ => fragments.refill(alloc, &mut self.memory, line.words),
        }
    }

    /// VALUE..: a frame without a memory that has shown these values.
    fn begin_frame(
        &mut self,
        alloc: Global,
        fragments: &Fragments,
        words: &str,
    ) -> Result<(), CaseErr> {
        self.filled = 0;
        self.memory.clear();
        fragments.refill_each(alloc, &mut self.shown, words)
    }

    /// NUMBER VALUE: a frame that has shown as many objects.
    fn fill(&mut self, alloc: Global, fragments: &Fragments, words: &str) -> Result<(), CaseErr> {
        let (number, filler) = first_word(words);
        self.filled = count(number)?;
        fragments.refill(alloc, &mut self.filler, filler)
    }
}
