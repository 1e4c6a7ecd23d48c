//! The generated ledger.

ghost use Rattle.std.specs.Prelude.{◌≡◌, IfOk, OnOk};
ghost use Rattle.budget_meter.specs.declared.terms.KindTerms.{KindTerms as KindTermsView};
ghost use Rattle.ledger_types.specs.Entry.{entry_format};
ghost use Rattle.ledger_spec.specs.LedgerMap.{HasCodeHash};
ghost use Rattle.set_generator.specs.GeneratedContracts.{bump_hash as bump_hash_in};
ghost use Rattle.set_generator.specs.GeneratedLedger.{terms_for, settings as settings_in, generated_header, kept, instance_of};
ghost use Rattle.set_generator.specs.GeneratedLedger.{counter_of, code_entry as code_entry_in, with_entry};
ghost use Rattle.set_generator.specs.GeneratedLedger.{generated_entries as generated_entries_in};

use crate::contracts::{BUMP, address, bump_hash, counter, text};
use crate::draws::CONTRACTS;
use budget_meter::{KindTerms, LinearCost, Terms};
use entry_map::{EntryMap, store_entry};
use ledger_file::Ledger;
use ledger_types::{
    ContractCodeEntry, ContractDataEntry, Durability, Header, LedgerEntry, LedgerEntryData,
    Settings,
};
use std::alloc::Global;
use value_types::{Executable, Hash, Instance, ScVal};
use xdr_core::NoMemory;

/// The ledger in which the entries were last modified.
const MODIFIED: u32 = 50;

/// The last ledger in which the entries are live.
const LIVE_UNTIL: u32 = 5000;

/// Returns the cost of a kind: a constant and a linear cost in instructions, and the same in bytes of memory.
fn terms(constant: u32, linear: u32, memory_constant: u32, memory_linear: u32) -> KindTerms
    ensures { result ≡ terms_for constant linear memory_constant memory_linear }
{
    KindTerms {
        instructions: LinearCost { constant, linear },
        memory: LinearCost {
            constant: memory_constant,
            linear: memory_linear,
        },
    }
}

fn settings() -> Settings
    ensures { result ≡ settings_in }
{
    Settings {
        min_temporary_ttl: 16,
        min_persistent_ttl: 4096,
        max_entry_ttl: 3_110_400,
        memory_limit: 41_943_040,
        terms: Terms {
            wasm_insn_exec: terms(1, 0, 0, 0),
            mem_alloc: terms(0, 0, 16, 128),
            mem_cpy: terms(0, 128, 0, 0),
            mem_cmp: terms(0, 128, 0, 0),
            dispatch_host_function: terms(10, 0, 0, 0),
            visit_object: terms(5, 0, 0, 0),
            val_ser: terms(0, 128, 0, 0),
            val_deser: terms(0, 128, 0, 0),
            compute_sha256_hash: terms(100, 128, 0, 0),
            vm_instantiation: terms(1000, 128, 0, 128),
            invoke_vm_function: terms(100, 0, 0, 0),
        },
    }
}

fn header() -> Header
    ensures { result ≡ generated_header }
{
    Header {
        network_id: Hash([7; 32]),
        protocol: 23,
        seq: 100,
        close_time: 1000,
        settings: settings(),
    }
}

/// Returns an entry that was last modified in ledger 50.
fn entry(content: LedgerEntryData) -> LedgerEntry
    ensures { result ≡ (kept content).entry }
{
    LedgerEntry {
        last_modified_ledger_seq: MODIFIED,
        data: content,
    }
}

/// Returns the instance of a contract.
fn instance(number: u8, code: Hash) -> LedgerEntry
    requires { code ≡ bump_hash_in }
    ensures value { result ≡ (instance_of number).entry }
    ensures fits { entry_format.fits result }
{
    entry(LedgerEntryData::ContractData(ContractDataEntry {
        contract: address(number),
        key: ScVal::LedgerKeyContractInstance,
        durability: Durability::Persistent,
        val: ScVal::ContractInstance(Instance {
            executable: Executable::Wasm(code),
            storage: None,
        }),
    }))
}

/// Returns the counter of a contract, at 0.
fn counter_entry(alloc: Global, number: u8) -> Result<LedgerEntry, NoMemory>
    ensures value { IfOk result (λ entry. entry ≡ (counter_of number).entry) }
    ensures fits { IfOk result (λ entry. entry_format.fits entry) }
{
    let key = counter(alloc)?;
    Ok(entry(LedgerEntryData::ContractData(ContractDataEntry {
        contract: address(number),
        key,
        durability: Durability::Persistent,
        val: ScVal::U32(0),
    })))
}

/// Returns the entry of the module.
fn code_entry(alloc: Global, code: Hash) -> Result<LedgerEntry, NoMemory>
    requires { code ≡ bump_hash_in }
    ensures value { IfOk result (λ entry. entry ≡ code_entry_in.entry) }
    ensures fits { IfOk result (λ entry. entry_format.fits entry) }
    ensures hashed { IfOk result (λ entry. HasCodeHash entry.data) }
{
    let module = text(alloc, &BUMP)?;
    Ok(entry(LedgerEntryData::ContractCode(ContractCodeEntry {
        hash: code,
        code: module,
    })))
}

/// Adds an entry that lives until ledger 5,000.
fn add(entries: &mut EntryMap, alloc: Global, entry: LedgerEntry) -> Result<(), NoMemory>
    requires fits { entry_format.fits entry }
    requires hashed { HasCodeHash entry.data }
    ensures { OnOk result (entries.new ≡ with_entry entries.old (record { entry = entry; live_until = 5000 })) }
{
    let (key, stored) = store_entry(alloc, entry, LIVE_UNTIL)?;
    let _old = entries.insert(&key, stored)?;
    Ok(())
}

/// Adds the instance and the counter of a contract.
fn add_contract(
    entries: &mut EntryMap,
    alloc: Global,
    number: u8,
    code: Hash,
) -> Result<(), NoMemory>
    requires { code ≡ bump_hash_in }
    ensures { OnOk result (entries.new ≡ with_entry (with_entry entries.old (instance_of number)) (counter_of number)) }
{
    add(entries, alloc, instance(number, code))?;
    let counter = counter_entry(alloc, number)?;
    add(entries, alloc, counter)
}

fn generated_entries(alloc: Global) -> Result<EntryMap, NoMemory>
    ensures { IfOk result (λ entries. entries ≡ generated_entries_in) }
{
    let code = bump_hash();
    let mut entries = EntryMap::new(alloc);
    let module = code_entry(alloc, code)?;
    add(&mut entries, alloc, module)?;
    for number in 0..CONTRACTS {
        add_contract(&mut entries, alloc, number, code)?;
    }
    Ok(entries)
}

/// Makes a ledger with 64 contracts, on which each generated transaction succeeds.
pub fn generated_ledger(alloc: Global) -> Result<Ledger, NoMemory>
    ensures header { IfOk result (λ ledger. ledger.header ≡ generated_header) }
    ensures entries { IfOk result (λ ledger. ledger.entries ≡ generated_entries_in) }
{
    let entries = generated_entries(alloc)?;
    Ok(Ledger {
        header: header(),
        entries,
    })
}
