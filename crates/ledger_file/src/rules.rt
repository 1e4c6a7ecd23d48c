//! The rules of a ledger file beyond its layout.

ghost use Rattle.std.specs.Prelude.{◌≡◌, ℕ, List, Option};
ghost use Rattle.sha2.specs.Sha256.{sha256};
ghost use Rattle.ledger_spec.specs.LedgerFile.{are_settings, can_run, fault_of, has_code_hash, record_key};
ghost use Rattle.ledger_spec.specs.LedgerFile.{is_above as is_above_key};
ghost use Rattle.ledger_file.specs.Rules.{header_refusal};

use ledger_spec::{LedgerRefusal, LedgerWhy};
use ledger_types::{Header, LedgerEntryData, LedgerRecord, Settings};
use sha2::{Digest, Sha256};
use value_types::Hash;

/// The greatest `max_entry_ttl`.
const GREATEST_LIFE: u32 = 200_000_000;

/// The first protocol whose ledgers this program runs on.
const FIRST_PROTOCOL: u32 = 23;

/// The first ledger number that no other ledger may follow.
const SEQ_END: u32 = 4_000_000_000;

/// Whether the settings are within their ranges.
fn are_settings(settings: &Settings) -> bool
    ensures { result ≡ are_settings settings.now }
{
    let most = settings.max_entry_ttl;
    let temporary = settings.min_temporary_ttl;
    let persistent = settings.min_persistent_ttl;
    1 <= temporary
        && temporary <= most
        && 1 <= persistent
        && persistent <= most
        && most <= GREATEST_LIFE
        && 1 <= settings.terms.wasm_insn_exec.instructions.constant
}

/// Whether the protocol is one that this program runs, and the settings are within their ranges.
fn can_run(header: &Header) -> bool
    ensures { result ≡ can_run header.now }
{
    header.protocol >= FIRST_PROTOCOL && are_settings(&header.settings)
}

/// Returns the first fault of a header. `follows` asks that another ledger may follow.
pub fn header_refusal(header: &Header, follows: bool) -> Option<LedgerRefusal>
    ensures { result ≡ header_refusal follows header.now }
{
    let why = if !can_run(header) {
        LedgerWhy::Settings
    } else if follows && header.seq >= SEQ_END {
        LedgerWhy::SeqEnd
    } else {
        return None;
    };
    Some(LedgerRefusal { why, at: 0 })
}

/// Whether the hash of a code entry is the hash of its code.
fn has_code_hash(body: &LedgerEntryData) -> bool
    ensures { result ≡ has_code_hash body.now }
{
    match body {
        LedgerEntryData::ContractData(_) => true,
        LedgerEntryData::ContractCode(entry) => {
            let hash = Sha256::digest(entry.code.as_slice());
            entry.hash.0.as_slice() == hash.as_slice()
        }
    }
}

/// Returns the first fault of a record. `hash` is the hash of its key, and `is_above` says whether the key is above the one
/// before it.
pub fn record_fault(is_above: bool, hash: &Hash, item: &LedgerRecord) -> Option<LedgerWhy>
    requires { hash.now.0 ≡ sha256 (record_key item.now) }
    ensures { (before : Option (List ℕ)) → is_above ≡ is_above_key before (record_key item.now)
        → result ≡ fault_of before item.now }
{
    if !is_above {
        return Some(LedgerWhy::Order);
    }
    if item.ttl.key_hash.0.as_slice() != hash.0.as_slice() {
        return Some(LedgerWhy::TtlHash);
    }
    if !has_code_hash(&item.entry.data) {
        return Some(LedgerWhy::CodeHash);
    }
    None
}
