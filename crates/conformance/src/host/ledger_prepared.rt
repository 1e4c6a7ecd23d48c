//! What calls over the ledger find: the ledger, the footprint, and the running frame.

use case_text::{Case, CaseErr, Fragments, first_word};
use std::alloc::Global;

/// What the next calls over the ledger find, as the lines of a table spell it.
#[derive(Drop)]
pub struct PreparedLedger {
    /// The file of the ledger before the one that is made. Its close time is that of the one that is made.
    pub file: Vec<u8>,
    /// The declared keys.
    pub read_only: Vec<Vec<u8>>,
    pub read_write: Vec<Vec<u8>>,
    /// The contract that runs, and the hash of the code that runs.
    pub contract: Vec<u8>,
    pub code: Vec<u8>,
    /// The frame's copy of the instance: the hash of its code, and its storage. An empty spelling is null.
    pub copied_code: Vec<u8>,
    pub copied_storage: Vec<u8>,
}

impl PreparedLedger {
    /// No ledger, no keys and no contract.
    pub fn new(alloc: Global) -> PreparedLedger {
        PreparedLedger {
            file: Vec::new(alloc),
            read_only: Vec::new(alloc),
            read_write: Vec::new(alloc),
            contract: Vec::new(alloc),
            code: Vec::new(alloc),
            copied_code: Vec::new(alloc),
            copied_storage: Vec::new(alloc),
        }
    }

    /// `previous`, `read-only`, `read-write`, `contract` or `copy`: prepares what the next calls over the ledger find.
    pub fn prepare(
        &mut self,
        alloc: Global,
        fragments: &Fragments,
        line: Case,
    ) -> Result<(), CaseErr> {
        match line.kind {
            "previous" => fragments.refill(alloc, &mut self.file, line.words),
            "read-only" => fragments.refill_each(alloc, &mut self.read_only, line.words),
            "read-write" => fragments.refill_each(alloc, &mut self.read_write, line.words),
            "contract" => self.begin_contract(alloc, fragments, line.words),
            _ => self.begin_copy(alloc, fragments, line.words),
        }
    }

    /// ID CODE: a frame of this contract, in which this code runs. Its copy has this code and null storage.
    fn begin_contract(
        &mut self,
        alloc: Global,
        fragments: &Fragments,
        words: &str,
    ) -> Result<(), CaseErr> {
        let (contract, code) = first_word(words);
        self.copied_storage.clear();
        fragments.refill(alloc, &mut self.contract, contract)?;
        fragments.refill(alloc, &mut self.code, code)?;
        fragments.refill(alloc, &mut self.copied_code, code)
    }

    /// CODE STORAGE: the frame's copy of the instance.
    fn begin_copy(
        &mut self,
        alloc: Global,
        fragments: &Fragments,
        words: &str,
    ) -> Result<(), CaseErr> {
        let (code, storage) = first_word(words);
        let storage = if storage == "null" { "" } else { storage };
        fragments.refill(alloc, &mut self.copied_code, code)?;
        fragments.refill(alloc, &mut self.copied_storage, storage)
    }
}
