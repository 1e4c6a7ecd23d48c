//! The instances of contracts.

ghost use Rattle.std.specs.Prelude.{◌≡◌, ◌≤◌, List, Option, IfOk, IfErr};
ghost use Rattle.std.specs.Bool.{Decides};
ghost use Rattle.value_types.specs.Datum.{map as map_datum, members_of};
ghost use Rattle.value_types.specs.Depth.{depth_of};
ghost use Rattle.value_types.specs.Views.{datum, datum_pair, datum_pairs};
ghost use Rattle.value_xdr.specs.Bytes.{IsBounded};
ghost use Rattle.ledger_types.specs.Entry.{entry_format};
ghost use Rattle.ledger_types.specs.declared.key.LedgerKey.{LedgerKey as LedgerKeyData};
ghost use Rattle.host_spec.specs.Hosted.{entry};
ghost use Rattle.host_spec.specs.MapRows.{Member};
ghost use Rattle.host_spec.specs.declared.error.HostErr.TheVariants as ends;
ghost use Rattle.contract_storage.specs.Stored.{IsRead, IsLater, HasBounds};
ghost use Rattle.call_spec.specs.World.{Write, made_seq};
ghost use Rattle.call_spec.specs.Accesses.{access, puts, effected};
ghost use Rattle.call_spec.specs.Keys.{instance_key, instance_entry};
ghost use Rattle.call_spec.specs.Found.{instance_at, instance_in, instance_of_data, with_entered};
ghost use Rattle.call_spec.specs.Frames.{is_same as is_same_copy};
ghost use Rattle.call_spec.specs.Creating.{makes_instance};
ghost use Rattle.host_ledger.specs.Worlds.{IsHeld, copied};
ghost use Rattle.instance_storage.specs.Held.{members_in};
ghost use Rattle.host_ledger.specs.Spelled.{IsKeySpelled};
ghost use Rattle.call_parts.specs.Entered.{IsTested, IsEntered, opens_instance};
ghost use Rattle.call_parts.specs.Steps.{Steps, Charges, Returns};

use crate::accesses::put;
use crate::charges::pay;
use crate::entries::instance_entry;
use crate::errors::{EXISTS, NO_INSTANCE, NOT_WASM};
use budget_meter::{Budget, Kind};
use contract_storage::{Storage, Watch};
use entry_lookup::Ground;
use host_frame::entry;
use host_ledger::{InstanceCopy, InstanceStorage, end_of, instance_key, size_of};
use host_spec::HostErr;
use ledger_spec::first_life;
use ledger_types::{LedgerEntry, LedgerEntryData, Settings};
use value_types::{Entries, Entry, Executable, Hash, ScVal};

/// Clones entries. Its only error is memory.
fn clone_entries(entries: &Entries) -> Result<Entries, HostErr>
    ensures ok { IfOk result (λ e. e ≡ entries.now) }
    ensures memory { IfErr result (λ e. e ≡ ends.NoMemory) }
{
    match entries.clone() {
        Ok(entries) => Ok(entries),
        Err(_) => Err(HostErr::NoMemory),
    }
}

/// Makes instance storage of entries. Its only error is memory.
fn storage_of(entries: Option<Entries>) -> Result<InstanceStorage, HostErr>
    requires { IsHeld entries }
    ensures ok { IfOk result (λ s. s ≡ entries) }
    ensures memory { IfErr result (λ e. e ≡ ends.NoMemory) }
{
    match InstanceStorage::new(entries) {
        Ok(storage) => Ok(storage),
        Err(_) => Err(HostErr::NoMemory),
    }
}

/// Copies the entries of instance storage. Its only error is memory.
fn entries_of(storage: &InstanceStorage) -> Result<Option<Entries>, HostErr>
    ensures ok { IfOk result (λ e. e ≡ storage.now) }
    ensures memory { IfErr result (λ e. e ≡ ends.NoMemory) }
{
    match storage.to_entries() {
        Ok(entries) => Ok(entries),
        Err(_) => Err(HostErr::NoMemory),
    }
}

/// Tests whether a value enters the host.
#[tactic(auto, using(crate::proofs::InstanceLaws::entry_ends))]
fn test_entry(value: &ScVal) -> Result<(), HostErr>
    requires { IsBounded (datum value.now) }
    ensures does { IsTested result (datum value.now) }
    ensures key { IfErr result IsKeySpelled }
{
    match entry(value) {
        Ok(()) => Ok(()),
        Err(error) => Err(HostErr::from(error)),
    }
}

/// Takes the entries out of a map.
fn take_entries(map: &mut ScVal) -> Option<Entries>
    ensures { (storage : Option (List Member)) → map.old ≡ ScVal.Map storage → result ≡ storage }
{
    match map {
        ScVal::Map(entries) => entries.take(),
        _ => None,
    }
}

/// The entries as instance storage, if their map enters the host.
fn entered(entries: Entries) -> Result<Option<Entries>, HostErr>
    requires bounded { IsBounded (map_datum (members_of entries)) }
    requires shallow { depth_of (map_datum (members_of entries)) ≤ 100 }
    ensures does { IsEntered result entries (entry (map_datum (members_of entries))) }
    ensures key { IfErr result IsKeySpelled }
{
    let mut map = ScVal::Map(Some(entries));
    match test_entry(&map) {
        Ok(()) => Ok(take_entries(&mut map)),
        Err(error) => Err(error),
    }
}

/// Copies the instance of a contract that runs WebAssembly.
fn entered_copy(code: Hash, entries: &Entries) -> Result<InstanceCopy, HostErr>
    requires bounded { IsBounded (map_datum (members_of entries.now)) }
    requires shallow { depth_of (map_datum (members_of entries.now)) ≤ 100 }
    ensures does { (key : LedgerKeyData) → Returns result copied
        (effected key (with_entered code (members_of entries.now) (entry (map_datum (members_of entries.now))))) }
    ensures held { IfOk result (λ copy. IsHeld copy.storage) }
    ensures key { IfErr result IsKeySpelled }
{
    let copy = clone_entries(entries)?;
    match entered(copy) {
        Ok(entries) => {
            let storage = storage_of(entries)?;
            Ok(InstanceCopy { code, storage })
        }
        Err(error) => Err(error),
    }
}

/// Copies the instance that a value is.
fn instance_in(val: &ScVal) -> Result<InstanceCopy, HostErr>
    requires bounded { IsBounded (datum val.now) }
    requires shallow { depth_of (datum val.now) ≤ 100 }
    ensures does { (key : LedgerKeyData) → Returns result copied (effected key (instance_in (datum val.now))) }
    ensures held { IfOk result (λ copy. IsHeld copy.storage) }
    ensures key { IfErr result IsKeySpelled }
{
    match val {
        ScVal::ContractInstance(instance) => match instance.executable {
            Executable::StellarAsset => Err(NOT_WASM),
            Executable::Wasm(code) => match &instance.storage {
                None => Ok(InstanceCopy {
                    code,
                    storage: InstanceStorage::null(),
                }),
                Some(entries) => entered_copy(code, entries),
            },
        },
        _ => Err(NO_INSTANCE),
    }
}

/// Copies the instance that an entry has.
fn instance_of(found: &LedgerEntry) -> Result<InstanceCopy, HostErr>
    requires { entry_format.fits found.now }
    ensures does { (key : LedgerKeyData) → Returns result copied (effected key (instance_of_data found.now.data)) }
    ensures held { IfOk result (λ copy. IsHeld copy.storage) }
    ensures key { IfErr result IsKeySpelled }
{
    match &found.data {
        LedgerEntryData::ContractCode(_) => Err(NO_INSTANCE),
        LedgerEntryData::ContractData(data) => instance_in(&data.val),
    }
}

/// Copies the instance that a live entry has, after the charge for the entry.
fn opened(budget: &mut Budget, found: &LedgerEntry) -> Result<InstanceCopy, HostErr>
    requires { entry_format.fits found.now }
    ensures does { (key : LedgerKeyData) → Charges result copied (effected key (opens_instance found.now)) budget.old budget.new }
    ensures held { IfOk result (λ copy. IsHeld copy.storage) }
    ensures key { IfErr result IsKeySpelled }
{
    match pay(budget, Kind::ValDeser, size_of(found)) {
        Ok(()) => instance_of(found),
        Err(error) => Err(error),
    }
}

/// Finds the instance of a contract, and copies its storage.
#[tactic(auto, using(host_ledger::proofs::Lemmas::access_spelled))]
pub fn find_instance<G: Ground, W: Watch>(
    storage: &mut Storage<'_, G, W>,
    budget: &mut Budget,
    contract: Hash,
) -> Result<InstanceCopy, HostErr>
    ensures does { Steps result copied (λ env. instance_at env contract) storage.old storage.new budget.old budget.new }
    ensures held { IfOk result (λ copy. IsHeld copy.storage) }
    ensures read { IsRead storage.old storage.new }
    ensures key { IfErr result IsKeySpelled }
{
    let key = instance_key(contract);
    match storage.get(&key) {
        Ok(found) => opened(budget, found),
        Err(error) => Err(end_of(key, error)),
    }
}

/// Whether two entries are the same.
#[tactic(auto, using(crate::proofs::InstanceLaws::pair_same, crate::proofs::InstanceLaws::key_same, crate::proofs::InstanceLaws::val_same))]
fn same_entry(a: &Entry, b: &Entry) -> bool
    ensures { Decides result (datum_pair a.now ≡ datum_pair b.now) }
{
    a.key == b.key && a.val == b.val
}

/// Whether two lists of entries are the same.
fn same_entries(first: &[Entry], second: &[Entry]) -> bool
    ensures { Decides result (datum_pairs first.now ≡ datum_pairs second.now) }
{
    match (first, second) {
        ([], []) => true,
        ([a, left @ ..], [b, right @ ..]) => same_entry(a, b) && same_entries(left, right),
        _ => false,
    }
}

/// Whether two instance storages have the same entries.
fn same_lists(first: Option<&[Entry]>, second: Option<&[Entry]>) -> bool
    ensures { Decides result (members_in first.entry ≡ members_in second.entry) }
{
    match (first, second) {
        (None, None) => true,
        (Some(first), Some(second)) => same_entries(first, second),
        _ => false,
    }
}

/// Whether two instance storages are the same.
fn same_storage(first: &InstanceStorage, second: &InstanceStorage) -> bool
    ensures { Decides result (first.now ≡ second.now) }
{
    same_lists(first.entries(), second.entries())
}

/// Whether two copies are the same.
#[tactic(auto, using(crate::proofs::InstanceLaws::copies_same, crate::proofs::InstanceLaws::codes_same, crate::proofs::InstanceLaws::storages_same))]
fn same_copy(first: &InstanceCopy, second: &InstanceCopy) -> bool
    ensures { Decides result (copied first.now ≡ copied second.now) }
{
    first.code == second.code && same_storage(&first.storage, &second.storage)
}

/// Whether a frame's copy of the instance is the one at its start. Takes no memory.
pub fn is_same(first: &InstanceCopy, copy: &InstanceCopy) -> bool
    ensures { result ≡ is_same_copy (copied first.now) (copied copy.now) }
{
    same_copy(first, copy)
}

/// Clones a copy of an instance. Its only error is memory.
pub fn clone_copy(copy: &InstanceCopy) -> Result<InstanceCopy, HostErr>
    ensures ok { IfOk result (λ c. c ≡ copy.now) }
    ensures memory { IfErr result (λ e. e ≡ ends.NoMemory) }
{
    match copy.storage.clone() {
        Ok(storage) => Ok(InstanceCopy {
            code: copy.code,
            storage,
        }),
        Err(_) => Err(HostErr::NoMemory),
    }
}

/// Writes a copy of an instance in ledger `n`.
pub fn write_instance<G: Ground, W: Watch>(
    storage: &mut Storage<'_, G, W>,
    budget: &mut Budget,
    n: u32,
    contract: Hash,
    copy: &InstanceCopy,
) -> Result<(), HostErr>
    requires held { IsHeld copy.now.storage }
    requires number { storage.old.n ≡ n }
    ensures does { Steps result (λ u. u) (λ env. access env Write (instance_key contract)
        (puts env (instance_entry (made_seq env) contract (copied copy.now)) tt))
        storage.old storage.new budget.old budget.new }
    ensures later { IsLater storage.old storage.new }
    ensures key { IfErr result IsKeySpelled }
{
    let entries = entries_of(&copy.storage)?;
    let entry = instance_entry(n, contract, copy.code, entries);
    let key = instance_key(contract);
    put(storage, budget, key, entry)
}

/// Makes the instance of a new contract in ledger `n`, with null storage, unless the contract exists.
#[tactic(auto, using(host_ledger::proofs::Lemmas::access_spelled))]
pub fn make_instance<G: Ground, W: Watch>(
    storage: &mut Storage<'_, G, W>,
    budget: &mut Budget,
    n: u32,
    settings: &Settings,
    contract: Hash,
    code: Hash,
) -> Result<(), HostErr>
    requires number { storage.old.n ≡ n }
    requires settings { storage.old.lives ≡ settings.now }
    requires bounds { HasBounds n settings.now }
    ensures does { Steps result (λ u. u) (λ env. access env Write (instance_key contract)
        (makes_instance env contract code)) storage.old storage.new budget.old budget.new }
    ensures later { IsLater storage.old storage.new }
    ensures key { IfErr result IsKeySpelled }
{
    let entry = instance_entry(n, contract, code, None);
    let size = size_of(&entry);
    let life = first_life(settings, n, &entry);
    let key = instance_key(contract);
    match storage.make(&key, entry, life) {
        Ok(true) => pay(budget, Kind::ValSer, size),
        Ok(false) => Err(EXISTS),
        Err(error) => Err(end_of(key, error)),
    }
}
