//! Calls of functions of the host over the ledger and the running frame.

ghost use Rattle.std.specs.Prelude.{◌≡◌, true, length, IfOk, IfSome, IsTrue, OnOk};
ghost use Rattle.object_store.specs.Shown.{AreIndices};
ghost use Rattle.ledger_spec.specs.LedgerFile.{are_settings, has_next};
ghost use Rattle.host_spec.specs.Indices.{arguments_of};
ghost use Rattle.host_interface.specs.Named.{import_named};
ghost use Rattle.call_spec.specs.World.{next_seq};
ghost use Rattle.host_ledger.specs.Worlds.{IsReady};
ghost use Rattle.host_ledger.specs.Called.{is_over_ledger, IsLedgerCall, IsNamedCall};

use crate::host::frames::show_prepared;
use crate::host::ledger_outcomes::{push_end, push_left};
use crate::host::ledger_states::{frame_of, storage_of};
use crate::host::outcomes::{push_costs, push_shown};
use crate::host::prepared::Prepared;
use crate::ledgers::push_no_ledger;
use budget_meter::{Budget, Limits};
use case_text::{CaseErr, first_word, hex_numbers};
use contract_storage::{NoWatch, Storage};
use entry_lookup::Ground;
use host_interface::{HostImport, import_named};
use host_ledger::{Events, HostLedger, ledger_call};
use host_spec::HostErr;
use ledger_file::{Ledger, read_ledger};
use object_store::{Objects, Shown};
use std::alloc::Global;
use std::fmt::Write;

/// Whether a case's words name a function over the ledger.
pub fn names_ledger_call(rest: &str) -> bool {
    let (letter, rest) = first_word(rest);
    let (name, _words) = first_word(rest);
    match import_named(letter.as_bytes(), name.as_bytes()) {
        Some(import) => words_taken(import).is_some(),
        None => false,
    }
}

/// The number of words that a function over the ledger takes, or `None` for another function.
fn words_taken(import: HostImport) -> Option<usize>
    ensures over_ledger { IfSome result (λ _. is_over_ledger «import» ≡ true) }
    ensures arity { IfSome result (λ n. n ≡ length (arguments_of «import»)) }
{
    match import {
        HostImport::GetLedgerVersion
        | HostImport::GetLedgerSequence
        | HostImport::GetLedgerTimestamp
        | HostImport::GetLedgerNetworkId
        | HostImport::GetCurrentContractAddress
        | HostImport::GetMaxLiveUntilLedger => Some(0),
        HostImport::FailWithError | HostImport::UpdateCurrentContractWasm => Some(1),
        HostImport::ContractEvent
        | HostImport::HasContractData
        | HostImport::GetContractData
        | HostImport::DelContractData
        | HostImport::ExtendCurrentContractInstanceAndCodeTtl
        | HostImport::GetContractId => Some(2),
        HostImport::PutContractData => Some(3),
        HostImport::ExtendContractDataTtl => Some(4),
        _ => None,
    }
}

/// LETTER NAME WORD.. | ..: the outcomes of calls in the frame and the ledger that were prepared, one after another.
pub fn ledger_calls(
    alloc: Global,
    prepared: &Prepared,
    limits: Limits,
    calls: &str,
    out: &mut String,
) -> Result<(), CaseErr> {
    match read_ledger(alloc, &prepared.ledger.file, true) {
        Ok(ledger) => over_ledger(alloc, prepared, &ledger, limits, calls, out),
        Err(error) => push_no_ledger(out, error),
    }
}

fn over_ledger(
    alloc: Global,
    prepared: &Prepared,
    ledger: &Ledger,
    limits: Limits,
    calls: &str,
    out: &mut String,
) -> Result<(), CaseErr>
    requires settings { IsTrue (are_settings ledger.now.header.settings) }
    requires next { IsTrue (has_next ledger.now.header) }
{
    match storage_of(alloc, &prepared.ledger, ledger) {
        Ok(storage) => in_storage(alloc, prepared, ledger, storage, limits, calls, out),
        Err(error) => Err(error),
    }
}

fn in_storage<'a>(
    alloc: Global,
    prepared: &Prepared,
    ledger: &'a Ledger,
    storage: Storage<'a, Ledger, NoWatch>,
    limits: Limits,
    calls: &str,
    out: &mut String,
) -> Result<(), CaseErr>
    requires settings { IsTrue (are_settings ledger.now.header.settings) }
    requires next { IsTrue (has_next ledger.now.header) }
    requires number { storage.n ≡ next_seq ledger.now.header }
    requires lives { storage.lives ≡ ledger.now.header.settings }
{
    match frame_of(alloc, &prepared.ledger) {
        Ok(frame) => {
            let mut host = HostLedger {
                header: &ledger.header,
                storage,
                events: Events::new(alloc),
                budget: Budget::new(limits, ledger.header.settings.terms),
                objects: Objects::new(alloc),
                frame,
            };
            in_host(alloc, prepared, &mut host, calls, out)
        }
        Err(error) => Err(error),
    }
}

/// The outcomes of calls in a frame that has shown nothing yet.
fn in_host<G: Ground>(
    alloc: Global,
    prepared: &Prepared,
    host: &mut HostLedger<'_, G, NoWatch>,
    calls: &str,
    out: &mut String,
) -> Result<(), CaseErr>
    requires { IsReady host.old }
{
    let _number = show_prepared(alloc, &mut host.objects, &mut host.frame.shown, prepared)?;
    if make_calls(alloc, host, out, calls)? {
        push_left(alloc, out, host, &prepared.ledger)?;
    }
    Ok(())
}

/// Makes the calls, and appends a line for each. A call after one that failed finds what that one left. Returns whether no call
/// ended the whole run.
fn make_calls<G: Ground>(
    alloc: Global,
    host: &mut HostLedger<'_, G, NoWatch>,
    out: &mut String,
    calls: &str,
) -> Result<bool, CaseErr>
    requires { IsReady host.old }
    ensures { OnOk result (IsReady host.new) }
{
    for call in calls.split(" | ") {
        if !make_call(alloc, host, out, call)? {
            return Ok(false);
        }
    }
    Ok(true)
}

/// LETTER NAME WORD..: makes a call, and appends its outcome and the sums so far. Returns whether the run may go on.
fn make_call<G: Ground>(
    alloc: Global,
    host: &mut HostLedger<'_, G, NoWatch>,
    out: &mut String,
    call: &str,
) -> Result<bool, CaseErr>
    requires { IsReady host.old }
    ensures { OnOk result (IsReady host.new) }
{
    let (letter, rest) = first_word(call);
    let (name, words) = first_word(rest);
    let words = hex_numbers(alloc, words)?;
    make_named(alloc, host, out, letter.as_bytes(), name.as_bytes(), &words)
}

fn make_named<G: Ground>(
    alloc: Global,
    host: &mut HostLedger<'_, G, NoWatch>,
    out: &mut String,
    letter: &[u8],
    name: &[u8],
    words: &[u64],
) -> Result<bool, CaseErr>
    requires { IsReady host.old }
    ensures { OnOk result (IsReady host.new) }
{
    check_call(letter, name, words)?;
    let before = number_shown(&host.objects, &host.frame.shown);
    let came = named_call(host, letter, name, words);
    let goes_on = push_came(alloc, out, &host.objects, &host.frame.shown, before, came)?;
    push_costs(out, host.budget.spent())?;
    Ok(goes_on)
}

/// Makes a call. The state is ready for the next one.
fn named_call<G: Ground>(
    host: &mut HostLedger<'_, G, NoWatch>,
    letter: &[u8],
    name: &[u8],
    words: &[u64],
) -> Result<u64, HostErr>
    requires call { IsNamedCall (import_named letter.now name.now) words.now }
    requires ready { IsReady host.old }
    ensures { IsReady host.new }
{
    ledger_call(host, letter, name, words)
}

/// The same as `push_answer`, of an outcome that ends here.
fn push_came(
    alloc: Global,
    out: &mut String,
    objects: &Objects,
    shown: &Shown,
    before: usize,
    came: Result<u64, HostErr>,
) -> Result<bool, CaseErr>
    requires { AreIndices objects.now shown.now }
{
    push_answer(alloc, out, objects, shown, before, &came)
}

/// Appends the word that came and the objects that the frame has shown since, or how the call ended. Returns whether the run may
/// go on.
fn push_answer(
    alloc: Global,
    out: &mut String,
    objects: &Objects,
    shown: &Shown,
    before: usize,
    came: &Result<u64, HostErr>,
) -> Result<bool, CaseErr>
    requires { AreIndices objects.now shown.now }
{
    match came {
        Ok(word) => {
            write!(out, "{word:x}")?;
            push_shown(alloc, out, objects, shown, before)?;
            Ok(true)
        }
        Err(end) => {
            push_end(out, end)?;
            Ok(matches!(end, HostErr::Failed(_)))
        }
    }
}

/// Refuses what is no call of a function over the ledger.
fn check_call(letter: &[u8], name: &[u8], words: &[u64]) -> Result<(), CaseErr>
    ensures { IfOk result (λ _. IsNamedCall (import_named letter.now name.now) words.now) }
{
    match import_named(letter, name) {
        Some(import) => check_words(import, words),
        None => Err(CaseErr::Lacks("a function of the host")),
    }
}

fn check_words(import: HostImport, words: &[u64]) -> Result<(), CaseErr>
    ensures { IfOk result (λ _. IsLedgerCall «import» words.now) }
{
    match words_taken(import) {
        Some(number) if number == words.len() => Ok(()),
        _ => Err(CaseErr::Lacks("a function over the ledger with so many words")),
    }
}

/// The number of objects that the frame has shown.
fn number_shown(objects: &Objects, shown: &Shown) -> usize
    requires { AreIndices objects.now shown.now }
{
    for handle in 0..1_000_000 {
        if objects.shown(shown, handle).is_none() {
            return handle;
        }
    }
    1_000_000
}
