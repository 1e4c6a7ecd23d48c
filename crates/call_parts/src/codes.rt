//! The codes of contracts.

ghost use mir.Syntax.{named};
ghost use Rattle.std.specs.Prelude.{◌≡◌, ◌<◌, ◌^◌, [], length, is_some, IfOk, IfErr};
ghost use Rattle.std.specs.Borrow.{sem};
ghost use Rattle.std.specs.Io.BufRead.{Rests};
ghost use Rattle.sha2.specs.Sha256.{sha256};
ghost use Rattle.xdr_spec.specs.Format.{IsBytes};
ghost use Rattle.value_types.specs.Hash.{hash_of};
ghost use Rattle.ledger_types.specs.Entry.{entry_format};
ghost use Rattle.ledger_types.specs.declared.key.LedgerKey.{LedgerKey as LedgerKeyData};
ghost use Rattle.module_spec.specs.Loading.{module_of};
ghost use Rattle.contract_storage.specs.Stored.{IsRead, IsLater};
ghost use Rattle.contract_storage.specs.contracts.storage.Storage.{the_row};
ghost use Rattle.call_spec.specs.Errors.{NO_MODULE as NO_MODULE_ERROR};
ghost use Rattle.call_spec.specs.World.{Read, Write, made_seq};
ghost use Rattle.call_spec.specs.Acts.{after, gives, only_where};
ghost use Rattle.call_spec.specs.Accesses.{access, puts, effected};
ghost use Rattle.call_spec.specs.Keys.{code_key, code_entry};
ghost use Rattle.call_spec.specs.Found.{code_at, code_of_data};
ghost use Rattle.call_spec.specs.Creating.{is_there, puts_code, uploads};
ghost use Rattle.host_ledger.specs.Accessed.{named as named_by, Accesses};
ghost use Rattle.host_ledger.specs.Spelled.{IsKeySpelled};
ghost use Rattle.call_parts.specs.Entered.{judges_module, judges};
ghost use Rattle.call_parts.specs.Steps.{Steps, Charges, Returns};

use crate::accesses::{is_there, put};
use crate::charges::pay;
use crate::entries::{code_entry, code_hash};
use crate::errors::NO_MODULE;
use crate::modules::load_module;
use budget_meter::{Budget, Kind};
use contract_storage::{StoErr, Storage, Watch};
use entry_lookup::Ground;
use host_ledger::code_key;
use host_spec::HostErr;
use ledger_types::{LedgerEntry, LedgerEntryData};
use std::alloc::Global;
use value_types::Hash;

/// The code that an entry has. An entry of another kind counts as missing.
fn code_of(found: &LedgerEntry) -> Result<&[u8], StoErr>
    requires { entry_format.fits found.now }
    ensures does { (key : LedgerKeyData)
        → Returns (named_by key result) (λ code. code.now) (effected key (code_of_data found.now.data)) }
    ensures bytes { IfOk result (λ code. IsBytes code.now) }
    ensures few { IfOk result (λ code. length code.now < 2 ^ 32) }
{
    match &found.data {
        LedgerEntryData::ContractData(_) => Err(StoErr::Missing),
        LedgerEntryData::ContractCode(code) => Ok(code.code.as_slice()),
    }
}

/// Finds the code with a hash. A caller makes the host's error from the error and the code's key, by `end_of`.
pub fn find_code<'s, G: Ground, W: Watch>(
    storage: &'s mut Storage<'_, G, W>,
    hash: Hash,
) -> Result<&'s [u8], StoErr>
    // Once the entry is no longer borrowed.
    ensures* lent { sem 𝓛 (Rests (the_row (record { mir = named 1; lft = [] }) G.row W.row G.Ground W.Watch) storage.entry
        (λ new. (Accesses (named_by (code_key hash) result) (λ code. code.now) (λ env. code_at env hash) storage.old new)
        × IsRead storage.old new)) }
    ensures bytes { IfOk result (λ code. IsBytes code.now) }
    ensures few { IfOk result (λ code. length code.now < 2 ^ 32) }
{
    let key = code_key(hash);
    match storage.get(&key) {
        Ok(found) => code_of(found),
        Err(error) => Err(error),
    }
}

/// Tests that a code encodes a valid, linked module.
fn only_module(alloc: Global, code: &[u8]) -> Result<(), HostErr>
    ensures does { Returns result (λ u. u) (only_where (is_some (module_of code.now)) NO_MODULE_ERROR (gives tt)) }
    ensures key { IfErr result IsKeySpelled }
{
    match load_module(alloc, code) {
        Ok(Some(_)) => Ok(()),
        Ok(None) => Err(NO_MODULE),
        Err(error) => Err(error),
    }
}

/// Charges for the module of a code, and tests that the code encodes one.
fn judged_module(alloc: Global, budget: &mut Budget, len: u64, code: &[u8]) -> Result<(), HostErr>
    requires { len ≡ length code.now }
    ensures does { Charges result (λ u. u) (judges_module code.now) budget.old budget.new }
    ensures key { IfErr result IsKeySpelled }
{
    match pay(budget, Kind::VmInstantiation, len) {
        Ok(()) => only_module(alloc, code),
        Err(error) => Err(error),
    }
}

/// Charges for the hash and the module of a code, and tests that the code encodes one.
fn judged(alloc: Global, budget: &mut Budget, len: u64, code: &[u8]) -> Result<(), HostErr>
    requires { len ≡ length code.now }
    ensures does { Charges result (λ u. u) (judges code.now) budget.old budget.new }
    ensures key { IfErr result IsKeySpelled }
{
    match pay(budget, Kind::ComputeSha256Hash, len) {
        Ok(()) => judged_module(alloc, budget, len, code),
        Err(error) => Err(error),
    }
}

/// Puts the entry of a code.
fn put_code<G: Ground, W: Watch>(
    alloc: Global,
    storage: &mut Storage<'_, G, W>,
    budget: &mut Budget,
    n: u32,
    hash: Hash,
    code: &[u8],
) -> Result<Hash, HostErr>
    requires few { length code.now < 2 ^ 32 }
    requires hash { hash ≡ hash_of (sha256 code.now) }
    requires number { storage.old.n ≡ n }
    ensures does { Steps result (λ h. h) (λ env. access env Write (code_key hash)
        (puts env (code_entry (made_seq env) hash code.now) hash)) storage.old storage.new budget.old budget.new }
    ensures later { IsLater storage.old storage.new }
    ensures key { IfErr result IsKeySpelled }
{
    let entry = code_entry(alloc, n, hash, code)?;
    let key = code_key(hash);
    match put(storage, budget, key, entry) {
        Ok(()) => Ok(hash),
        Err(error) => Err(error),
    }
}

/// Puts the entry of a code, unless it is there.
fn store<G: Ground, W: Watch>(
    alloc: Global,
    storage: &mut Storage<'_, G, W>,
    budget: &mut Budget,
    n: u32,
    hash: Hash,
    code: &[u8],
) -> Result<Hash, HostErr>
    requires few { length code.now < 2 ^ 32 }
    requires hash { hash ≡ hash_of (sha256 code.now) }
    requires number { storage.old.n ≡ n }
    ensures does { Steps result (λ h. h) (λ env. after (access env Read (code_key hash) is_there)
        (λ there. puts_code there env hash code.now)) storage.old storage.new budget.old budget.new }
    ensures later { IsLater storage.old storage.new }
    ensures key { IfErr result IsKeySpelled }
{
    let key = code_key(hash);
    match is_there(storage, key) {
        Ok(true) => Ok(hash),
        Ok(false) => put_code(alloc, storage, budget, n, hash, code),
        Err(error) => Err(error),
    }
}

/// Uploads a code in ledger `n`: it has to encode a valid, linked module. Code that is there already stays as it is. Returns its
/// hash.
pub fn upload<G: Ground, W: Watch>(
    alloc: Global,
    storage: &mut Storage<'_, G, W>,
    budget: &mut Budget,
    n: u32,
    code: &[u8],
) -> Result<Hash, HostErr>
    requires few { length code.now < 2 ^ 32 }
    requires number { storage.old.n ≡ n }
    ensures does { Steps result (λ hash. hash) (λ env. uploads env code.now) storage.old storage.new budget.old budget.new }
    ensures later { IsLater storage.old storage.new }
    ensures key { IfErr result IsKeySpelled }
{
    let hash = code_hash(code);
    let len = code.len() as u64;
    match judged(alloc, budget, len, code) {
        Ok(()) => store(alloc, storage, budget, n, hash, code),
        Err(error) => Err(error),
    }
}
