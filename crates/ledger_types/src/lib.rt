//! The parts of a ledger with their codecs: keys, entries, lives, settings, and the files that hold them.
#![tactic(auto)]

mod asset;
mod contract_entries;
mod durability;
mod entry;
mod entry_type;
mod equality;
mod file;
mod header;
mod key;
mod key_order;
mod keys;
mod record;
mod terms;
mod verdicts;

pub use asset::{AssetCode4, AssetCode12, AssetType, TrustLineAsset};
pub use contract_entries::{ContractCodeEntry, ContractDataEntry};
pub use durability::Durability;
pub use entry::{ContractEntryType, LedgerEntry, LedgerEntryData};
pub use entry_type::LedgerEntryType;
pub use file::LedgerFile;
pub use header::{Header, Settings};
pub use key::LedgerKey;
pub use key_order::cmp_keys;
pub use keys::{key_hash, key_of, write_key_of};
pub use record::{BoxedRecord, LedgerRecord, TtlEntry};
pub use verdicts::{Verdict, Verdicts};
