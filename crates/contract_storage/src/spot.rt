//! A key with its slot.

use ledger_types::LedgerKey;

/// A key with the number of its slot.
#[derive(Clone, Copy)]
pub(crate) struct Spot<'k> {
    pub at: usize,
    pub key: &'k LedgerKey,
}
