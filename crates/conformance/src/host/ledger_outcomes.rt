//! The parts of an outcome of calls over the ledger.

ghost use Rattle.std.specs.Prelude.{IfSome, Some};
ghost use Rattle.std.specs.List.{AllByRecursion};
ghost use Rattle.ledger_types.specs.Key.{key_format};
ghost use Rattle.ledger_types.specs.Entry.{entry_format};
ghost use Rattle.ledger_spec.specs.LedgerMap.{key_bytes, IsKeptAt};
ghost use Rattle.invoke_types.specs.Event.{event_format};
ghost use Rattle.host_ledger.specs.Worlds.{IsHeld, IsReady};

use crate::errors::made;
use crate::host::ledger_prepared::PreparedLedger;
use crate::host::outcomes::push_size;
use case_text::{CaseErr, push_hex, push_str};
use contract_storage::{Change, NoWatch, Storage};
use entry_lookup::Ground;
use host_ledger::{HostLedger, InstanceCopy};
use host_spec::HostErr;
use invoke_types::ContractEvent;
use ledger_spec::Kept;
use ledger_types::{Durability, LedgerKey};
use std::alloc::Global;
use std::fmt::Write;
use value_types::{Entries, ScVal};
use value_xdr::{Xdr, encode, value_to_bytes};
use xdr_core::NoMemory;

/// Appends how a function ended that returned no word.
pub fn push_end(out: &mut String, end: &HostErr) -> Result<(), CaseErr> {
    match end {
        HostErr::Failed(error) => write!(out, "fails {error:?}")?,
        HostErr::Spent => out.push_str("spent")?,
        HostErr::Undeclared(key) => {
            out.push_str("undeclared ")?;
            out.push_str(key_name(key))?;
        }
        HostErr::Archived(key) => {
            out.push_str("archived ")?;
            out.push_str(key_name(key))?;
        }
        HostErr::NoMemory => return Err(CaseErr::NoMemory),
    }
    Ok(())
}

/// The kind of entry of a key.
fn key_name(key: &LedgerKey) -> &'static str {
    match key {
        LedgerKey::ContractData {
            key: ScVal::LedgerKeyContractInstance,
            ..
        } => "instance",
        LedgerKey::ContractData {
            durability: Durability::Temporary,
            ..
        } => "temporary",
        LedgerKey::ContractData { .. } => "persistent",
        LedgerKey::ContractCode(_) => "code",
        _ => "other",
    }
}

/// Appends what calls left: a line for each changed key, for each event, and for the frame's copy of the instance if it changed.
pub fn push_left<G: Ground>(
    alloc: Global,
    out: &mut String,
    host: &mut HostLedger<'_, G, NoWatch>,
    prepared: &PreparedLedger,
) -> Result<(), CaseErr>
    requires { IsReady host.old }
{
    push_changes(alloc, out, &host.storage)?;
    push_events(alloc, out, host.events.as_slice())?;
    push_copy(alloc, out, &host.frame.copy, prepared)
}

fn push_changes<G: Ground>(
    alloc: Global,
    out: &mut String,
    storage: &Storage<'_, G, NoWatch>,
) -> Result<(), CaseErr> {
    match storage.changes() {
        Ok(changes) => {
            for change in &changes {
                push_change(alloc, out, change)?;
            }
            Ok(())
        }
        Err(NoMemory) => Err(CaseErr::NoMemory),
    }
}

/// Appends `now ENTRY UNTIL`, or `gone KEY`.
fn push_change(alloc: Global, out: &mut String, change: &Change) -> Result<(), CaseErr>
    requires fits { key_format.fits change.now.key }
    requires kept { IfSome change.now.now (IsKeptAt (key_bytes change.now.key)) }
{
    match &change.now {
        Some(kept) => push_kept(alloc, out, kept),
        None => {
            push_encoded(alloc, out, "gone ", &change.key)?;
            push_str(out, "\n")
        }
    }
}

fn push_kept(alloc: Global, out: &mut String, kept: &Kept) -> Result<(), CaseErr>
    requires { entry_format.fits kept.now.entry }
{
    push_encoded(alloc, out, "now ", &kept.entry)?;
    let live_until = kept.live_until;
    writeln!(out, " {live_until}")?;
    Ok(())
}

fn push_events(alloc: Global, out: &mut String, events: &[ContractEvent]) -> Result<(), CaseErr>
    requires { AllByRecursion event_format.fits events.now }
{
    for event in events {
        push_encoded(alloc, out, "event ", event)?;
        out.push('\n')?;
    }
    Ok(())
}

/// Appends a word and the XDR of a value.
fn push_encoded<T: Xdr>(
    alloc: Global,
    out: &mut String,
    word: &str,
    value: &T,
) -> Result<(), CaseErr>
    requires { T.format.fits value.now }
{
    out.push_str(word)?;
    push_bytes(alloc, out, &made(encode(alloc, value))?)
}

/// Appends `copy CODE STORAGE` if the copy is not the prepared one.
fn push_copy(
    alloc: Global,
    out: &mut String,
    copy: &InstanceCopy,
    prepared: &PreparedLedger,
) -> Result<(), CaseErr>
    requires { IsHeld copy.now.storage }
{
    let code = copy.code.0.as_slice() != prepared.copied_code.as_slice();
    let storage = storage_bytes(alloc, copy.storage.to_entries()?)?;
    if code || storage != prepared.copied_storage {
        push_copied(alloc, out, &copy.code.0, &storage)?;
    }
    Ok(())
}

fn push_copied(
    alloc: Global,
    out: &mut String,
    code: &[u8],
    storage: &[u8],
) -> Result<(), CaseErr> {
    out.push_str("copy ")?;
    push_bytes(alloc, out, code)?;
    out.push_str(if storage.is_empty() { " null" } else { " " })?;
    push_bytes(alloc, out, storage)?;
    push_str(out, "\n")
}

/// The XDR of instance storage as a map. Null has none.
fn storage_bytes(alloc: Global, storage: Option<Entries>) -> Result<Vec<u8>, CaseErr>
    requires { IsHeld storage }
{
    match storage {
        None => Ok(Vec::new(alloc)),
        Some(entries) => map_bytes(alloc, entries),
    }
}

#[tactic(auto, using(host_frame::proofs::Lemmas::hosted_fits))]
fn map_bytes(alloc: Global, entries: Entries) -> Result<Vec<u8>, CaseErr>
    requires { IsHeld (Some entries) }
{
    let map = ScVal::Map(Some(entries));
    made(value_to_bytes(alloc, &map))
}

/// Appends bytes in hex digits, or their number if there are more than 1000.
fn push_bytes(alloc: Global, out: &mut String, bytes: &[u8]) -> Result<(), CaseErr> {
    if bytes.len() > 1000 {
        push_size(out, bytes.len() as u64)
    } else {
        push_hex(alloc, out, bytes)
    }
}
