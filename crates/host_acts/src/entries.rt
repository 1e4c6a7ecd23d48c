//! Entries of contracts' data.

ghost use Rattle.std.specs.Prelude.{◌≡◌, IfOk, IfErr};
ghost use Rattle.value_types.specs.Views.{datum};
ghost use Rattle.ledger_types.specs.Entry.{entry_format};
ghost use Rattle.ledger_spec.specs.LedgerMap.{HasCodeHash};
ghost use Rattle.host_spec.specs.Hosted.{IsHosted};
ghost use Rattle.host_spec.specs.declared.error.ValueErr.TheVariants as errs;
ghost use Rattle.contract_storage.specs.Stored.{IsLater};
ghost use Rattle.call_spec.specs.World.{Write, World, Env, made_seq as made_in};
ghost use Rattle.call_spec.specs.Acts.{with_frame};
ghost use Rattle.call_spec.specs.Outcomes.{Says};
ghost use Rattle.host_acts.specs.Traced.{leaving};
ghost use Rattle.call_spec.specs.Keys.{data_key as data_key_at, data_entry as data_entry_at};
ghost use Rattle.call_spec.specs.Accesses.{access, puts};
ghost use Rattle.call_spec.specs.Rules.{nothing};
ghost use Rattle.call_spec.specs.Storage.{unless_backward, extending, deletes};
ghost use Rattle.host_frame.specs.Answered.{answer_of};
ghost use Rattle.host_acts.specs.Served.{Serves};
ghost use Rattle.host_acts.specs.Answered.{IsMadeIfOk};
ghost use Rattle.host_acts.specs.Spelled.{IsKeySpelled};

use crate::accesses::{del, extend, is_backward, put};
use crate::errors::INVALID_STORAGE_INPUT;
use crate::keys::data_key;
use crate::values::clone_value;
use budget_meter::Budget;
use contract_storage::{Storage, Watch};
use entry_lookup::Ground;
use host_frame::Answer;
use host_spec::{HostErr, ValueErr};
use ledger_types::{ContractDataEntry, Durability, LedgerEntry, LedgerEntryData};
use value_types::{Hash, ScAddress, ScVal, contract_fits};

/// The entry of a contract's data.
#[tactic(auto, using(crate::proofs::DataKeys::same_scval, crate::proofs::DataKeys::data_entry_fits))]
fn data_entry(
    n: u32,
    contract: Hash,
    key: &ScVal,
    durability: Durability,
    val: &ScVal,
) -> Result<LedgerEntry, ValueErr>
    requires key { IsHosted (datum key.now) }
    requires val { IsHosted (datum val.now) }
    ensures entry { IfOk result (λ e. e ≡ data_entry_at n contract (datum key.now) durability (datum val.now)) }
    ensures fits { IfOk result (λ e. entry_format.fits e) }
    ensures hashed { IfOk result (λ e. HasCodeHash e.data) }
    ensures memory { IfErr result (λ e. e ≡ errs.NoMemory) }
{
    contract_fits(contract);
    let key = clone_value(key)?;
    let val = clone_value(val)?;
    Ok(LedgerEntry {
        last_modified_ledger_seq: n,
        data: LedgerEntryData::ContractData(ContractDataEntry {
            contract: ScAddress::Contract(contract),
            key,
            durability,
            val,
        }),
    })
}

/// Puts the entry of a contract's data in the ledger with the number `n`, which is the storage's.
pub fn put_entry<G: Ground, W: Watch>(
    storage: &mut Storage<'_, G, W>,
    budget: &mut Budget,
    n: u32,
    contract: Hash,
    key: &ScVal,
    durability: Durability,
    val: &ScVal,
) -> Result<Answer, HostErr>
    requires key { IsHosted (datum key.now) }
    requires val { IsHosted (datum val.now) }
    requires number { storage.old.n ≡ n }
    ensures does { (env : Env) → Serves env storage.old → (w : World) → w.entries ≡ storage.old.map → w.meter ≡ budget.old
        → w.frame.contract ≡ contract
        → Says result answer_of (with_frame (λ frame. access env Write (data_key_at frame.contract (datum key.now) durability)
        (puts env (data_entry_at (made_in env) frame.contract (datum key.now) durability (datum val.now)) nothing)) w)
        (leaving storage.old storage.new w.trace
        (λ trace. record w { entries = storage.new.map; trace = trace; meter = budget.new })) }
    ensures made { IsMadeIfOk result }
    ensures later { IsLater storage.old storage.new }
    ensures key { IfErr result IsKeySpelled }
{
    let named = data_key(contract, key, durability)?;
    let entry = data_entry(n, contract, key, durability, val)?;
    put(storage, budget, named, entry)
}

/// Deletes the entry of a contract's data.
pub fn del_entry<G: Ground, W: Watch>(
    storage: &mut Storage<'_, G, W>,
    contract: Hash,
    key: &ScVal,
    durability: Durability,
) -> Result<Answer, HostErr>
    requires { IsHosted (datum key.now) }
    ensures does { (env : Env) → Serves env storage.old → (w : World) → w.entries ≡ storage.old.map → w.frame.contract ≡ contract
        → Says result answer_of (with_frame
        (λ frame. access env Write (data_key_at frame.contract (datum key.now) durability) deletes) w)
        (leaving storage.old storage.new w.trace (λ trace. record w { entries = storage.new.map; trace = trace })) }
    ensures made { IsMadeIfOk result }
    ensures later { IsLater storage.old storage.new }
    ensures key { IfErr result IsKeySpelled }
{
    let key = data_key(contract, key, durability)?;
    del(storage, key)
}

/// Extends the life of the entry of a contract's data.
pub fn extend_entry<G: Ground, W: Watch>(
    storage: &mut Storage<'_, G, W>,
    contract: Hash,
    key: &ScVal,
    durability: Durability,
    threshold: u32,
    extend_to: u32,
) -> Result<Answer, HostErr>
    requires { IsHosted (datum key.now) }
    ensures does { (env : Env) → Serves env storage.old → (w : World) → w.entries ≡ storage.old.map → w.frame.contract ≡ contract
        → Says result answer_of (unless_backward threshold extend_to
        (with_frame (λ frame. extending env (data_key_at frame.contract (datum key.now) durability) threshold extend_to)) w)
        (leaving storage.old storage.new w.trace (λ trace. record w { entries = storage.new.map; trace = trace })) }
    ensures made { IsMadeIfOk result }
    ensures later { IsLater storage.old storage.new }
    ensures key { IfErr result IsKeySpelled }
{
    if is_backward(threshold, extend_to) {
        return Err(INVALID_STORAGE_INPUT);
    }
    let key = data_key(contract, key, durability)?;
    extend(storage, key, threshold, extend_to)
}
