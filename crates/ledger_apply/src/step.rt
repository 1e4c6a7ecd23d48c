//! Runs one transaction in its cluster.

ghost use Rattle.std.specs.Prelude.{◌≡◌, ◌∷◌, [], IfOk, OnOk, IsTrue};
ghost use Rattle.ledger_spec.specs.LedgerFile.{are_settings, has_next};
ghost use Rattle.tx_xdr.specs.Envelope.{envelope_format};
ghost use Rattle.stage_runs.specs.Runs.{after as after_in, run_transaction as run_transaction_in};
ghost use Rattle.apply_spec.specs.Enforced.{enforced};
ghost use Rattle.tx_apply.specs.Done.{effect_of, IsWithin};
ghost use Rattle.ledger_parts.specs.Notes.{shown_note};
ghost use Rattle.ledger_parts.specs.Shown.{shown_step};
ghost use Rattle.set_steps.specs.Lives.{AreKeyed};
ghost use Rattle.set_steps.specs.LoggedLists.{written_sides, AddsLists};
ghost use Rattle.set_steps.specs.Sides.{AddsList, IsMade};
ghost use Rattle.set_steps.specs.State.{running_in};

use change_log::Changes;
use code_cache::Cache;
use ledger_parts::Entries;
use ledger_types::{Header, Verdicts};
use set_steps::{ClusterRun, Life, change_all, changes_log, put_written};
use std::alloc::Global;
use tx_apply::{TxDone, enforce};
use tx_xdr::Envelope;
use xdr_core::NoMemory;

/// Adds what a transaction is going to change to the log, if one is kept.
fn push_list<E: Entries>(
    alloc: Global,
    entries: &E,
    lives: &[Life],
    done: &TxDone,
    logs: bool,
    log: &mut Vec<Changes>,
) -> Result<(), NoMemory>
    requires keyed { AreKeyed lives.now }
    requires within { IsWithin done.now }
    ensures { OnOk result (AddsList logs (IsMade (E.shown entries.now) (E.own entries.now) (E.map entries.now) lives.now
        done.now.changes) log.old.items log.new.items) }
{
    if !logs {
        return Ok(());
    }
    let list = changes_log(alloc, entries, lives, done.changes.as_slice())?;
    log.push(list)?;
    Ok(())
}

/// Makes the changes of a transaction, and adds its extensions and its report.
fn after<E: Entries>(
    alloc: Global,
    entries: &mut E,
    running: ClusterRun,
    done: TxDone,
) -> Result<ClusterRun, NoMemory>
    requires within { IsWithin done }
    ensures run { IfOk result (λ r. running_in (E.own entries.new) r ≡ after_in (effect_of done)
        (running_in (E.own entries.old) running)) }
    ensures shown { IfOk result (λ _. E.shown entries.new ≡ E.shown entries.old) }
{
    let ClusterRun {
        pending,
        mut reports,
    } = running;
    change_all(alloc, entries, done.changes.into_vec())?;
    let pending = pending.with_all(alloc, done.extensions.into_vec())?;
    reports.push(done.result, done.success)?;
    Ok(ClusterRun { pending, reports })
}

/// Runs a transaction in its cluster, as `run_transaction` does, and adds what it changes to the log, if one is kept. That is
/// found before the changes are made, so that no entry is copied but into the log.
pub(crate) fn run_next<E: Entries>(
    alloc: Global,
    entries: &mut E,
    header: &Header,
    verdicts: &Verdicts,
    running: ClusterRun,
    envelope: &Envelope,
    codes: Option<&Cache<'_>>,
    logs: bool,
    log: &mut Vec<Changes>,
) -> Result<ClusterRun, NoMemory>
    requires fits { envelope_format.fits envelope.now }
    requires settings { IsTrue (are_settings header.now.settings) }
    requires next { IsTrue (has_next header.now) }
    ensures run { IfOk result (λ r. running_in (E.own entries.new) r
        ≡ run_transaction_in (shown_step (E.shown entries.old) (enforced header.now verdicts.now))
        (running_in (E.own entries.old) running) envelope.now) }
    ensures shown { IfOk result (λ _. E.shown entries.new ≡ E.shown entries.old) }
    ensures log { IfOk result (λ _. AddsLists logs (shown_note (E.shown entries.old) written_sides (E.own entries.old)
        (E.own entries.new) envelope.now ∷ []) log.old.items log.new.items) }
{
    let mut running = running;
    let lives = put_written(alloc, entries, &mut running.pending, envelope)?;
    let done = enforce(alloc, entries, header, verdicts, envelope, codes)?;
    push_list(alloc, entries, &lives, &done, logs, log)?;
    after(alloc, entries, running, done)
}

/// Runs a transaction in its cluster.
///
/// Before it runs, the pending extensions of its read-write keys are put in, even if it fails. Its changes are made at once. Its
/// own extensions are pending afterwards. For each of its keys this takes O(log n) comparisons, where n is the number of entries
/// and of pending keys. A code that `codes` has is loaded where it is first needed, and kept. The result does not depend on
/// `codes`.
pub fn run_transaction<E: Entries>(
    alloc: Global,
    entries: &mut E,
    header: &Header,
    verdicts: &Verdicts,
    running: ClusterRun,
    envelope: &Envelope,
    codes: Option<&Cache<'_>>,
) -> Result<ClusterRun, NoMemory>
    requires fits { envelope_format.fits envelope.now }
    requires settings { IsTrue (are_settings header.now.settings) }
    requires next { IsTrue (has_next header.now) }
    ensures run { IfOk result (λ r. running_in (E.own entries.new) r
        ≡ run_transaction_in (shown_step (E.shown entries.old) (enforced header.now verdicts.now))
        (running_in (E.own entries.old) running) envelope.now) }
    ensures shown { IfOk result (λ _. E.shown entries.new ≡ E.shown entries.old) }
{
    let mut log = Vec::new(alloc);
    run_next(
        alloc, entries, header, verdicts, running, envelope, codes, false, &mut log,
    )
}
