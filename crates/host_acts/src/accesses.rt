//! Accesses of the ledger's entries.

ghost use Rattle.std.specs.Prelude.{◌≡◌, false, nat_lt, IfErr};
ghost use Rattle.ledger_types.specs.Key.{key_format};
ghost use Rattle.ledger_types.specs.Entry.{entry_format, key_of};
ghost use Rattle.ledger_spec.specs.LedgerMap.{LedgerMap, HasCodeHash};
ghost use Rattle.ledger_types.specs.declared.key.LedgerKey.{LedgerKey as LedgerKeyData};
ghost use Rattle.host_frame.specs.Answered.{answer_of};
ghost use Rattle.contract_storage.specs.Stored.{IsRead, IsLater};
ghost use Rattle.call_spec.specs.World.{Read, Write, World};
ghost use Rattle.call_spec.specs.Acts.{paying, sets};
ghost use Rattle.call_spec.specs.Changed.{with_entries};
ghost use Rattle.call_spec.specs.Rules.{nothing};
ghost use Rattle.call_spec.specs.Accesses.{access, puts, entry_size};
ghost use Rattle.call_spec.specs.Storage.{has, gets, deletes, extending};
ghost use Rattle.call_spec.specs.Outcomes.{Says, quiet};
ghost use Rattle.host_acts.specs.Answered.{IsMadeIfOk};
ghost use Rattle.host_acts.specs.Accessed.{Accesses, Pays, opens, end_of};
ghost use Rattle.host_acts.specs.Spelled.{IsKeySpelled};

use crate::errors::NO_ENTRY;
use crate::values::clone_value;
use budget_meter::{Budget, Kind};
use contract_storage::{StoErr, Storage, Watch};
use entry_lookup::Ground;
use host_frame::{Answer, charge, entry};
use host_spec::HostErr;
use ledger_types::{LedgerEntry, LedgerEntryData, LedgerKey};
use value_xdr::Xdr;

/// The error of a host function whose access of this key the storage rejected.
pub fn end_of(key: LedgerKey, error: StoErr) -> HostErr
    ensures { result ≡ end_of key error }
{
    match error {
        StoErr::Undeclared => HostErr::Undeclared(key),
        StoErr::Archived => HostErr::Archived(key),
        StoErr::Missing => NO_ENTRY,
        StoErr::BadExtend(error) => HostErr::Failed(error),
        StoErr::NoMemory => HostErr::NoMemory,
    }
}

/// Whether there is a live entry at a key.
#[tactic(auto, using(crate::proofs::Linking::has_yields, crate::proofs::Linking::reads_read))]
pub fn has<G: Ground, W: Watch>(
    storage: &mut Storage<'_, G, W>,
    key: LedgerKey,
) -> Result<Answer, HostErr>
    requires { key_format.fits key }
    ensures does { Accesses result answer_of (λ env. access env Read key has) storage.old storage.new }
    ensures made { IsMadeIfOk result }
    ensures read { IsRead storage.old storage.new }
    ensures key { IfErr result IsKeySpelled }
{
    match storage.has(&key) {
        Ok(found) => Ok(Answer::boolean(found)),
        Err(error) => Err(end_of(key, error)),
    }
}

/// Deletes the live entry at a key, if there is one.
#[tactic(auto, using(crate::proofs::Linking::del_yields))]
pub(crate) fn del<G: Ground, W: Watch>(
    storage: &mut Storage<'_, G, W>,
    key: LedgerKey,
) -> Result<Answer, HostErr>
    requires { key_format.fits key }
    ensures does { Accesses result answer_of (λ env. access env Write key deletes) storage.old storage.new }
    ensures made { IsMadeIfOk result }
    ensures later { IsLater storage.old storage.new }
    ensures key { IfErr result IsKeySpelled }
{
    match storage.del(&key) {
        Ok(()) => Ok(Answer::void()),
        Err(error) => Err(end_of(key, error)),
    }
}

/// Whether the threshold of an extension is above the number of ledgers that is asked for.
pub(crate) fn is_backward(threshold: u32, extend_to: u32) -> bool
    ensures { result ≡ nat_lt extend_to threshold }
{
    extend_to < threshold
}

/// Extends the life of the live entry at a key to `extend_to` ledgers, if at most `threshold` ledgers are left.
#[tactic(auto, using(crate::proofs::Linking::extend_yields))]
pub(crate) fn extend<G: Ground, W: Watch>(
    storage: &mut Storage<'_, G, W>,
    key: LedgerKey,
    threshold: u32,
    extend_to: u32,
) -> Result<Answer, HostErr>
    requires fits { key_format.fits key }
    requires unless_backward { nat_lt extend_to threshold ≡ false }
    ensures does { Accesses result answer_of (λ env. extending env key threshold extend_to) storage.old storage.new }
    ensures made { IsMadeIfOk result }
    ensures later { IsLater storage.old storage.new }
    ensures key { IfErr result IsKeySpelled }
{
    match storage.extend(&key, threshold, extend_to) {
        Ok(()) => Ok(Answer::void()),
        Err(error) => Err(end_of(key, error)),
    }
}

/// The value of a live entry, after the charge for the entry.
#[tactic(auto, using(crate::proofs::DataKeys::value_bounded), unfolding(call_spec::specs::Accesses::entry_size))]
fn opened(budget: &mut Budget, found: &LedgerEntry) -> Result<Answer, HostErr>
    requires { entry_format.fits found.now }
    ensures does { (key : LedgerKeyData) (w : World) → w.meter ≡ budget.old
        → Says result answer_of (opens key found.now w) (quiet w (λ trace. record w { trace = trace; meter = budget.new })) }
    ensures made { IsMadeIfOk result }
    ensures key { IfErr result IsKeySpelled }
{
    charge(budget, Kind::ValDeser, found.size())?;
    match &found.data {
        LedgerEntryData::ContractCode(_) => Err(NO_ENTRY),
        LedgerEntryData::ContractData(data) => {
            entry(&data.val)?;
            let value = clone_value(&data.val)?;
            Ok(Answer::value(value))
        }
    }
}

/// The value of the live entry at a key, after the charge for the entry.
#[tactic(auto, using(crate::proofs::Linking::get_refused, crate::proofs::Linking::get_opened))]
pub fn get<G: Ground, W: Watch>(
    storage: &mut Storage<'_, G, W>,
    budget: &mut Budget,
    key: LedgerKey,
) -> Result<Answer, HostErr>
    requires { key_format.fits key }
    ensures does { Pays result (λ env. access env Read key gets) storage.old storage.new budget.old budget.new }
    ensures made { IsMadeIfOk result }
    ensures read { IsRead storage.old storage.new }
    ensures key { IfErr result IsKeySpelled }
{
    match storage.get(&key) {
        Ok(found) => opened(budget, found),
        Err(error) => Err(end_of(key, error)),
    }
}

/// Charges for an entry that was put.
#[tactic(auto, using(crate::proofs::Putting::paid_good, crate::proofs::Putting::paid_spent))]
fn paid(budget: &mut Budget, size: u64) -> Result<Answer, HostErr>
    ensures does { (w : World) (map : LedgerMap) → w.meter ≡ budget.old
        → Says result answer_of (paying Kind.ValSer size (sets (with_entries map) nothing) w)
        (quiet w (λ trace. record w { entries = map; trace = trace; meter = budget.new })) }
    ensures made { IsMadeIfOk result }
    ensures key { IfErr result IsKeySpelled }
{
    match budget.charge(Kind::ValSer, size) {
        Ok(()) => Ok(Answer::void()),
        Err(_) => Err(HostErr::Spent),
    }
}

/// The size of an entry, in XDR bytes.
#[tactic(auto, unfolding(call_spec::specs::Accesses::entry_size))]
pub fn size_of(entry: &LedgerEntry) -> u64
    requires { entry_format.fits entry.now }
    ensures { result ≡ entry_size entry.now }
{
    entry.size()
}

/// Puts an entry at its key. The charge comes after the put. If it exceeds a limit, the run ends and its writes are dropped, so
/// the order cannot be seen.
#[tactic(auto, using(crate::proofs::Putting::put_refused))]
pub(crate) fn put<G: Ground, W: Watch>(
    storage: &mut Storage<'_, G, W>,
    budget: &mut Budget,
    key: LedgerKey,
    entry: LedgerEntry,
) -> Result<Answer, HostErr>
    requires key { key ≡ key_of entry }
    requires fits { entry_format.fits entry }
    requires hashed { HasCodeHash entry.data }
    ensures does { Pays result (λ env. access env Write key
        (puts env entry nothing)) storage.old storage.new budget.old budget.new }
    ensures made { IsMadeIfOk result }
    ensures later { IsLater storage.old storage.new }
    ensures key { IfErr result IsKeySpelled }
{
    let size = size_of(&entry);
    match storage.put(&key, entry) {
        Ok(()) => paid(budget, size),
        Err(error) => Err(end_of(key, error)),
    }
}
