//! Codes in the ledger.

ghost use mir.Syntax.{named};
ghost use Rattle.std.specs.Borrow.{sem};
ghost use Rattle.std.specs.Io.BufRead.{Rests};
ghost use Rattle.std.specs.Prelude.{[]};
ghost use Rattle.ledger_types.specs.declared.key.LedgerKey.{LedgerKey as LedgerKeyData};
ghost use Rattle.contract_storage.specs.Stored.{IsRead};
ghost use Rattle.contract_storage.specs.contracts.storage.Storage.{the_row};
ghost use Rattle.call_spec.specs.World.{World};
ghost use Rattle.call_spec.specs.Accesses.{effected};
ghost use Rattle.call_spec.specs.Found.{code_at as code_in, code_of_data};
ghost use Rattle.call_spec.specs.Keys.{code_key as code_key_of};
ghost use Rattle.call_spec.specs.Outcomes.{quiet, Says};
ghost use Rattle.host_acts.specs.Accessed.{Accesses, named as named_by};

use crate::keys::code_key;
use contract_storage::{StoErr, Storage, Watch};
use entry_lookup::Ground;
use ledger_types::{LedgerEntry, LedgerEntryData};
use value_types::Hash;

/// The code of a live entry.
fn code_of(found: &LedgerEntry) -> Result<&[u8], StoErr>
    ensures { (key : LedgerKeyData) (w : World)
        → Says (named_by key result) (λ code. code.now) (effected key (code_of_data found.now.data) w)
        (quiet w (λ trace. record w { trace = trace })) }
{
    match &found.data {
        LedgerEntryData::ContractCode(entry) => Ok(entry.code.as_slice()),
        LedgerEntryData::ContractData(_) => Err(StoErr::Missing),
    }
}

/// The bytes of the code with a hash, which has to be live.
pub fn code_at<'s, G: Ground, W: Watch>(
    storage: &'s mut Storage<'_, G, W>,
    hash: Hash,
) -> Result<&'s [u8], StoErr>
    // Once the entry is no longer borrowed.
    ensures* lent { sem 𝓛 (Rests (the_row (record { mir = named 1; lft = [] }) G.row W.row G.Ground W.Watch) storage.entry
        (λ new. (Accesses (named_by (code_key_of hash) result) (λ code. code.now) (λ env. code_in env hash) storage.old new)
        × IsRead storage.old new)) }
{
    let key = code_key(hash);
    match storage.get(&key) {
        Ok(found) => code_of(found),
        Err(error) => Err(error),
    }
}
