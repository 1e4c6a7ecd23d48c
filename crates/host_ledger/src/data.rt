//! Module l: contract data.

ghost use Rattle.std.specs.Prelude.{◌≡◌, [], ◌∷◌, IfErr};
ghost use Rattle.host_interface.specs.declared.kinds.ArgKind.TheVariants as kinds;
ghost use Rattle.contract_storage.specs.Stored.{IsRead, IsLater};
ghost use Rattle.call_spec.specs.World.{Copied};
ghost use Rattle.call_spec.specs.Storage.{put_contract_data, del_contract_data, has_contract_data, get_contract_data};
ghost use Rattle.call_spec.specs.Storage.{extend_contract_data_ttl};
ghost use Rattle.host_ledger.specs.Worlds.{IsReady, IsHeld, copied};
ghost use Rattle.host_ledger.specs.Answered.{Answers};
ghost use Rattle.host_acts.specs.Answered.{IsMadeIfOk};
ghost use Rattle.host_ledger.specs.Accessed.{Runs};
ghost use Rattle.host_acts.specs.Spelled.{IsKeySpelled};

use crate::context::made_seq;
use crate::copies::{del_in_copy, get_in_copy, in_copy, put_in_copy};
use crate::errors::INVALID_EXTENSION;
use crate::state::{HostLedger, InstanceCopy};
use budget_meter::Budget;
use contract_storage::{Storage, Watch};
use entry_lookup::Ground;
use host_acts::{
    StorageType, data_key, del_entry, extend_entry, get, has, put_entry, storage_type,
};
use host_frame::{Answer, Values, enter};
use host_spec::HostErr;
use value_types::Hash;

/// The body of `put_contract_data`.
fn put_data<G: Ground, W: Watch>(
    storage: &mut Storage<'_, G, W>,
    budget: &mut Budget,
    values: &Values<'_>,
    n: u32,
    contract: Hash,
    copy: &mut InstanceCopy,
    a: u64,
    b: u64,
    c: u64,
) -> Result<Answer, HostErr>
    requires held { IsHeld copy.old.storage }
    requires number { storage.old.n ≡ n }
    ensures does { Runs result (kinds.Value ∷ kinds.Value ∷ kinds.Unsigned ∷ []) put_contract_data
        (a ∷ b ∷ c ∷ []) values.now contract storage.old storage.new budget.old budget.new (copied copy.old) (copied copy.new) }
    ensures made { IsMadeIfOk result }
    ensures later { IsLater storage.old storage.new }
    ensures held { IsHeld copy.new.storage }
    ensures key { IfErr result IsKeySpelled }
{
    let key = values.value(a)?;
    let val = values.value(b)?;
    enter(budget, &[a, b])?;
    match storage_type(c)? {
        StorageType::Instance => put_in_copy(copy, values.allocator(), key.get(), val.get()),
        StorageType::Ledger(durability) => {
            put_entry(
                storage,
                budget,
                n,
                contract,
                key.get(),
                durability,
                val.get(),
            )
        }
    }
}

/// `put_contract_data`: puts data at a key.
pub fn put_contract_data<G: Ground, W: Watch>(
    host: &mut HostLedger<'_, G, W>,
    a: u64,
    b: u64,
    c: u64,
) -> Result<Answer, HostErr>
    requires { IsReady host.old }
    ensures does { Answers result (kinds.Value ∷ kinds.Value ∷ kinds.Unsigned ∷ []) put_contract_data
        (a ∷ b ∷ c ∷ []) host.old host.new }
    ensures key { IfErr result IsKeySpelled }
{
    let values = Values::new(&host.objects, &host.frame.shown);
    put_data(
        &mut host.storage,
        &mut host.budget,
        &values,
        made_seq(host.header),
        host.frame.contract,
        &mut host.frame.copy,
        a,
        b,
        c,
    )
}

/// The body of `has_contract_data`.
fn has_data<G: Ground, W: Watch>(
    storage: &mut Storage<'_, G, W>,
    budget: &mut Budget,
    values: &Values<'_>,
    contract: Hash,
    copy: &InstanceCopy,
    a: u64,
    b: u64,
) -> Result<Answer, HostErr>
    requires { IsHeld copy.now.storage }
    ensures does { Runs result (kinds.Value ∷ kinds.Unsigned ∷ []) has_contract_data
        (a ∷ b ∷ []) values.now contract storage.old storage.new budget.old budget.new (copied copy.now) (copied copy.now) }
    ensures made { IsMadeIfOk result }
    ensures read { IsRead storage.old storage.new }
    ensures key { IfErr result IsKeySpelled }
{
    let key = values.value(a)?;
    enter(budget, &[a])?;
    match storage_type(b)? {
        StorageType::Instance => Ok(Answer::boolean(in_copy(copy, key.get()).is_some())),
        StorageType::Ledger(durability) => {
            let key = data_key(contract, key.get(), durability)?;
            has(storage, key)
        }
    }
}

/// `has_contract_data`: whether there is data at a key.
pub fn has_contract_data<G: Ground, W: Watch>(
    host: &mut HostLedger<'_, G, W>,
    a: u64,
    b: u64,
) -> Result<Answer, HostErr>
    requires { IsReady host.old }
    ensures does { Answers result (kinds.Value ∷ kinds.Unsigned ∷ []) has_contract_data (a ∷ b ∷ []) host.old host.new }
    ensures key { IfErr result IsKeySpelled }
{
    let values = Values::new(&host.objects, &host.frame.shown);
    has_data(
        &mut host.storage,
        &mut host.budget,
        &values,
        host.frame.contract,
        &host.frame.copy,
        a,
        b,
    )
}

/// The body of `extend_contract_data_ttl`.
fn extend_data<G: Ground, W: Watch>(
    storage: &mut Storage<'_, G, W>,
    budget: &mut Budget,
    values: &Values<'_>,
    contract: Hash,
    a: u64,
    b: u64,
    c: u64,
    d: u64,
) -> Result<Answer, HostErr>
    ensures does { (copy : Copied) → Runs result
        (kinds.Value ∷ kinds.Unsigned ∷ kinds.U32 ∷ kinds.U32 ∷ []) extend_contract_data_ttl
        (a ∷ b ∷ c ∷ d ∷ []) values.now contract storage.old storage.new budget.old budget.new copy copy }
    ensures made { IsMadeIfOk result }
    ensures later { IsLater storage.old storage.new }
    ensures key { IfErr result IsKeySpelled }
{
    let key = values.value(a)?;
    let threshold = values.number32(c)?;
    let extend_to = values.number32(d)?;
    enter(budget, &[a, c, d])?;
    match storage_type(b)? {
        StorageType::Instance => Err(INVALID_EXTENSION),
        StorageType::Ledger(durability) => {
            extend_entry(
                storage,
                contract,
                key.get(),
                durability,
                threshold,
                extend_to,
            )
        }
    }
}

/// `extend_contract_data_ttl`: extends the life of data. Instance storage has no extension of its own.
pub fn extend_contract_data_ttl<G: Ground, W: Watch>(
    host: &mut HostLedger<'_, G, W>,
    a: u64,
    b: u64,
    c: u64,
    d: u64,
) -> Result<Answer, HostErr>
    requires { IsReady host.old }
    ensures does { Answers result (kinds.Value ∷ kinds.Unsigned ∷ kinds.U32 ∷ kinds.U32 ∷ []) extend_contract_data_ttl
        (a ∷ b ∷ c ∷ d ∷ []) host.old host.new }
    ensures key { IfErr result IsKeySpelled }
{
    let values = Values::new(&host.objects, &host.frame.shown);
    extend_data(
        &mut host.storage,
        &mut host.budget,
        &values,
        host.frame.contract,
        a,
        b,
        c,
        d,
    )
}

/// The body of `get_contract_data`.
fn get_data<G: Ground, W: Watch>(
    storage: &mut Storage<'_, G, W>,
    budget: &mut Budget,
    values: &Values<'_>,
    contract: Hash,
    copy: &InstanceCopy,
    a: u64,
    b: u64,
) -> Result<Answer, HostErr>
    requires { IsHeld copy.now.storage }
    ensures does { Runs result (kinds.Value ∷ kinds.Unsigned ∷ []) get_contract_data
        (a ∷ b ∷ []) values.now contract storage.old storage.new budget.old budget.new (copied copy.now) (copied copy.now) }
    ensures made { IsMadeIfOk result }
    ensures read { IsRead storage.old storage.new }
    ensures key { IfErr result IsKeySpelled }
{
    let key = values.value(a)?;
    enter(budget, &[a])?;
    match storage_type(b)? {
        StorageType::Instance => get_in_copy(copy, key.get()),
        StorageType::Ledger(durability) => {
            let key = data_key(contract, key.get(), durability)?;
            get(storage, budget, key)
        }
    }
}

/// `get_contract_data`: the data at a key.
pub fn get_contract_data<G: Ground, W: Watch>(
    host: &mut HostLedger<'_, G, W>,
    a: u64,
    b: u64,
) -> Result<Answer, HostErr>
    requires { IsReady host.old }
    ensures does { Answers result (kinds.Value ∷ kinds.Unsigned ∷ []) get_contract_data (a ∷ b ∷ []) host.old host.new }
    ensures key { IfErr result IsKeySpelled }
{
    let values = Values::new(&host.objects, &host.frame.shown);
    get_data(
        &mut host.storage,
        &mut host.budget,
        &values,
        host.frame.contract,
        &host.frame.copy,
        a,
        b,
    )
}

/// The body of `del_contract_data`.
fn del_data<G: Ground, W: Watch>(
    storage: &mut Storage<'_, G, W>,
    budget: &mut Budget,
    values: &Values<'_>,
    contract: Hash,
    copy: &mut InstanceCopy,
    a: u64,
    b: u64,
) -> Result<Answer, HostErr>
    requires { IsHeld copy.old.storage }
    ensures does { Runs result (kinds.Value ∷ kinds.Unsigned ∷ []) del_contract_data
        (a ∷ b ∷ []) values.now contract storage.old storage.new budget.old budget.new (copied copy.old) (copied copy.new) }
    ensures made { IsMadeIfOk result }
    ensures later { IsLater storage.old storage.new }
    ensures held { IsHeld copy.new.storage }
    ensures key { IfErr result IsKeySpelled }
{
    let key = values.value(a)?;
    enter(budget, &[a])?;
    match storage_type(b)? {
        StorageType::Instance => {
            del_in_copy(copy, key.get());
            Ok(Answer::void())
        }
        StorageType::Ledger(durability) => del_entry(storage, contract, key.get(), durability),
    }
}

/// `del_contract_data`: deletes the data at a key.
pub fn del_contract_data<G: Ground, W: Watch>(
    host: &mut HostLedger<'_, G, W>,
    a: u64,
    b: u64,
) -> Result<Answer, HostErr>
    requires { IsReady host.old }
    ensures does { Answers result (kinds.Value ∷ kinds.Unsigned ∷ []) del_contract_data (a ∷ b ∷ []) host.old host.new }
    ensures key { IfErr result IsKeySpelled }
{
    let values = Values::new(&host.objects, &host.frame.shown);
    del_data(
        &mut host.storage,
        &mut host.budget,
        &values,
        host.frame.contract,
        &mut host.frame.copy,
        a,
        b,
    )
}
