//! Accesses of the ledger's entries.

ghost use Rattle.std.specs.Prelude.{◌≡◌, IfErr};
ghost use Rattle.ledger_types.specs.Key.{key_format};
ghost use Rattle.ledger_types.specs.Entry.{entry_format, key_of};
ghost use Rattle.ledger_spec.specs.LedgerMap.{HasCodeHash};
ghost use Rattle.contract_storage.specs.Stored.{IsRead, IsLater};
ghost use Rattle.call_spec.specs.World.{Read, Write};
ghost use Rattle.call_spec.specs.Accesses.{access, puts};
ghost use Rattle.call_spec.specs.Creating.{is_there};
ghost use Rattle.host_ledger.specs.Accessed.{Accesses};
ghost use Rattle.host_ledger.specs.Spelled.{IsKeySpelled};
ghost use Rattle.call_parts.specs.Steps.{Steps};

use crate::charges::pay;
use budget_meter::{Budget, Kind};
use contract_storage::{Storage, Watch};
use entry_lookup::Ground;
use host_ledger::{end_of, size_of};
use host_spec::HostErr;
use ledger_types::{LedgerEntry, LedgerKey};

/// Whether there is a live entry at a key.
#[tactic(auto, using(host_ledger::proofs::Lemmas::reads_read))]
pub(crate) fn is_there<G: Ground, W: Watch>(
    storage: &mut Storage<'_, G, W>,
    key: LedgerKey,
) -> Result<bool, HostErr>
    requires { key_format.fits key }
    ensures does { Accesses result (λ there. there) (λ env. access env Read key is_there) storage.old storage.new }
    ensures read { IsRead storage.old storage.new }
    ensures key { IfErr result IsKeySpelled }
{
    match storage.has(&key) {
        Ok(there) => Ok(there),
        Err(error) => Err(end_of(key, error)),
    }
}

/// Puts an entry at its key. The charge comes after the put. If it exceeds a limit, the run ends and its writes are dropped, so
/// the order cannot be seen.
pub(crate) fn put<G: Ground, W: Watch>(
    storage: &mut Storage<'_, G, W>,
    budget: &mut Budget,
    key: LedgerKey,
    entry: LedgerEntry,
) -> Result<(), HostErr>
    requires key { key ≡ key_of entry }
    requires fits { entry_format.fits entry }
    requires hashed { HasCodeHash entry.data }
    ensures does { Steps result (λ u. u)
        (λ env. access env Write key (puts env entry tt)) storage.old storage.new budget.old budget.new }
    ensures later { IsLater storage.old storage.new }
    ensures key { IfErr result IsKeySpelled }
{
    let size = size_of(&entry);
    match storage.put(&key, entry) {
        Ok(()) => pay(budget, Kind::ValSer, size),
        Err(error) => Err(end_of(key, error)),
    }
}
