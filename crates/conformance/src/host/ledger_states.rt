//! The ledger, the storage and the frame in which functions over the ledger are called.

ghost use Rattle.std.specs.Prelude.{◌≡◌, [], All, IfOk, IsTrue, OnOk};
ghost use Rattle.value_types.specs.Formats.{scval_format};
ghost use Rattle.value_types.specs.Views.{datum};
ghost use Rattle.ledger_types.specs.Key.{key_format};
ghost use Rattle.host_spec.specs.Hosted.{IsHosted};
ghost use Rattle.ledger_spec.specs.LedgerFile.{are_settings, has_next};
ghost use Rattle.call_spec.specs.World.{next_seq};
ghost use Rattle.host_ledger.specs.Worlds.{IsHeld};

use crate::errors::{made, unread};
use crate::hashes::read_hash;
use crate::host::ledger_prepared::PreparedLedger;
use case_text::CaseErr;
use contract_storage::{NoWatch, Storage};
use host_frame::entry;
use host_ledger::{Frame, InstanceCopy, InstanceStorage};
use invoke_types::{Args, Function, InvokeContractArgs};
use ledger_file::Ledger;
use ledger_types::LedgerKey;
use object_store::Shown;
use std::alloc::Global;
use value_types::{Blob, Bytes, Entries, Hash, ScAddress, ScVal};
use value_xdr::{decode, value_from_bytes};

/// The storage of a transaction that declares the prepared keys.
pub fn storage_of<'a>(
    alloc: Global,
    prepared: &PreparedLedger,
    ledger: &'a Ledger,
) -> Result<Storage<'a, Ledger, NoWatch>, CaseErr>
    requires settings { IsTrue (are_settings ledger.now.header.settings) }
    requires next { IsTrue (has_next ledger.now.header) }
    ensures number { IfOk result (λ s. s.n ≡ next_seq ledger.now.header) }
    ensures lives { IfOk result (λ s. s.lives ≡ ledger.now.header.settings) }
{
    let read_only = keys_of(alloc, &prepared.read_only)?;
    let read_write = keys_of(alloc, &prepared.read_write)?;
    enforcing(alloc, ledger, &read_only, &read_write)
}

fn enforcing<'a>(
    alloc: Global,
    ledger: &'a Ledger,
    read_only: &[LedgerKey],
    read_write: &[LedgerKey],
) -> Result<Storage<'a, Ledger, NoWatch>, CaseErr>
    requires settings { IsTrue (are_settings ledger.now.header.settings) }
    requires next { IsTrue (has_next ledger.now.header) }
    requires read_only { All (λ key. key_format.fits key) read_only.now }
    requires read_write { All (λ key. key_format.fits key) read_write.now }
    ensures number { IfOk result (λ s. s.n ≡ next_seq ledger.now.header) }
    ensures lives { IfOk result (λ s. s.lives ≡ ledger.now.header.settings) }
{
    let (n, lives) = (ledger.header.seq + 1, &ledger.header.settings);
    made(Storage::enforcing(alloc, ledger, n, lives, read_only, read_write, NoWatch))
}

fn keys_of(alloc: Global, spellings: &[Vec<u8>]) -> Result<Vec<LedgerKey>, CaseErr>
    ensures { IfOk result (λ keys. All (λ key. key_format.fits key) keys.items) }
{
    let mut keys = Vec::new(alloc);
    push_keys(alloc, &mut keys, spellings)?;
    Ok(keys)
}

fn push_keys(alloc: Global, keys: &mut Vec<LedgerKey>, spellings: &[Vec<u8>]) -> Result<(), CaseErr>
    requires { All (λ key. key_format.fits key) keys.old.items }
    ensures { OnOk result (All (λ key. key_format.fits key) keys.new.items) }
{
    for bytes in spellings {
        push_key(alloc, keys, bytes)?;
    }
    Ok(())
}

fn push_key(alloc: Global, keys: &mut Vec<LedgerKey>, bytes: &[u8]) -> Result<(), CaseErr>
    requires { All (λ key. key_format.fits key) keys.old.items }
    ensures { OnOk result (All (λ key. key_format.fits key) keys.new.items) }
{
    match decode::<LedgerKey>(alloc, bytes) {
        Ok(key) => Ok(keys.push(key)?),
        Err(error) => Err(unread(error, "a key")),
    }
}

/// The function of a contract that has no name and takes no arguments.
fn no_function(alloc: Global, contract: Hash) -> Function {
    let name = Blob::from_vec(Vec::new(alloc));
    let function = Bytes::from_blob(name);
    Function::ContractFn(InvokeContractArgs {
        contract: ScAddress::Contract(contract),
        function,
        args: Args::none(),
    })
}

/// The frame of the prepared contract, which no contract called and which has shown nothing.
pub fn frame_of(alloc: Global, prepared: &PreparedLedger) -> Result<Frame, CaseErr>
    ensures shown { IfOk result (λ f. f.shown ≡ []) }
    ensures held { IfOk result (λ f. IsHeld f.copy.storage) }
{
    let contract = read_hash(alloc, &prepared.contract)?;
    let code = read_hash(alloc, &prepared.code)?;
    let copied_code = read_hash(alloc, &prepared.copied_code)?;
    let storage = instance_storage(alloc, &prepared.copied_storage)?;
    Ok(Frame {
        contract,
        caller: None,
        function: no_function(alloc, contract),
        code,
        first: InstanceCopy {
            code,
            storage: InstanceStorage::null(),
        },
        copy: InstanceCopy {
            code: copied_code,
            storage: InstanceStorage::new(storage)?,
        },
        shown: Shown::new(alloc),
        path: Vec::new(alloc),
        begun: 0,
    })
}

fn instance_storage(alloc: Global, bytes: &[u8]) -> Result<Option<Entries>, CaseErr>
    ensures { IfOk result IsHeld }
{
    if bytes.is_empty() {
        return Ok(None);
    }
    match value_from_bytes(alloc, bytes) {
        Ok(value) => entries_of(value),
        Err(error) => Err(unread(error, "a map")),
    }
}

/// The entries of a map that may enter the host.
#[tactic(auto, using(host_frame::proofs::Lemmas::spelled_bounded, host_frame::proofs::Lemmas::entered_hosted))]
fn entries_of(value: ScVal) -> Result<Option<Entries>, CaseErr>
    requires { scval_format.fits value }
    ensures { IfOk result IsHeld }
{
    if entry(&value).is_err() || !is_map(&value) {
        return Err(CaseErr::Lacks("a map that may enter the host"));
    }
    Ok(map_entries(value))
}

fn is_map(value: &ScVal) -> bool {
    matches!(value, ScVal::Map(_))
}

/// The entries of a map. Another value has none.
fn map_entries(value: ScVal) -> Option<Entries>
    requires { IsHosted (datum value) }
    ensures { IsHeld result }
{
    match value {
        ScVal::Map(entries) => entries,
        _other => None,
    }
}
