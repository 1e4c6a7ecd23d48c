//! Ends stages.

ghost use Rattle.std.specs.Prelude.{◌≡◌, ◌++◌, [], All, IfOk, OnOk};
ghost use Rattle.std.specs.FinMap.{get};
ghost use Rattle.ledger_types.specs.Key.{key_format};
ghost use Rattle.ledger_spec.specs.LedgerMap.{IsLedgerMap};
ghost use Rattle.stage_runs.specs.Runs.{put_all_in};
ghost use Rattle.change_log.specs.Groups.{changes};
ghost use Rattle.set_steps.specs.State.{pending_of, reports_of, IsKeyed};
ghost use Rattle.set_steps.specs.LoggedLists.{IsWritable};
ghost use Rattle.set_steps.specs.Lives.{before_lives, AreKeyed, Covers};
ghost use Rattle.set_steps.specs.Sides.{IsListOf};

use crate::entries::put_all;
use crate::lives::{Life, keep_life};
use crate::reports::Reports;
use crate::running::ClusterDone;
use crate::sides::lives_log;
use change_log::Changes;
use entry_map::EntryMap;
use ledger_parts::Lent;
use stage_runs::Extension;
use std::alloc::Global;
use xdr_core::NoMemory;

/// Ends a stage: puts in all pending extensions, and adds the reports in the order of the clusters. If there is room for the
/// reports, it takes no memory.
pub fn end_stage(
    entries: &mut EntryMap,
    reports: &mut Reports,
    done: Vec<ClusterDone>,
) -> Result<(), NoMemory>
    requires { All IsKeyed done.items }
    ensures entries { OnOk result (entries.new ≡ put_all_in entries.old (pending_of done.items)) }
    ensures reports { OnOk result (reports.new ≡ reports.old ++ reports_of done.items) }
{
    for one in done {
        put_all(entries, &one.pending);
        reports.append(one.reports)?;
    }
    Ok(())
}

/// Keeps the lives of the entries at the keys of extensions.
fn keep_lives(
    entries: &EntryMap,
    lives: &mut Vec<Life>,
    extensions: &[Extension],
) -> Result<(), NoMemory>
    requires { All (λ e. key_format.fits e.key) extensions.now }
    ensures { OnOk result (Covers entries.now extensions.now lives.old.items lives.new.items) }
{
    let ground = Lent { entries };
    for extension in extensions {
        keep_life(&ground, lives, &extension.key)?;
    }
    Ok(())
}

/// Returns the lives of the entries at the keys of the extensions that clusters left.
fn pending_lives(
    alloc: Global,
    entries: &EntryMap,
    done: &[ClusterDone],
) -> Result<Vec<Life>, NoMemory>
    requires { All IsKeyed done.now }
    ensures lives { IfOk result (λ lives. Covers entries.now (pending_of done.now) [] lives.items) }
    ensures map { IsLedgerMap entries.now }
{
    // What is known of `entries` as a map of a ledger comes from a call.
    let _count = entries.len();
    let mut lives = Vec::new(alloc);
    for left in done {
        keep_lives(entries, &mut lives, &left.pending)?;
    }
    Ok(lives)
}

/// Returns the change log of lives that were raised in a ledger's entries.
fn changes_in(alloc: Global, entries: &EntryMap, lives: &[Life]) -> Result<Changes, NoMemory>
    requires { AreKeyed lives.now }
    ensures list { IfOk result (IsListOf (λ q. before_lives lives.now q (get entries.now q)) (get entries.now)) }
    ensures map { IsLedgerMap entries.now }
{
    let _count = entries.len();
    let ground = Lent { entries };
    lives_log(alloc, &ground, lives)
}

/// Ends a stage, as `end_stage` does, and returns what its end changed. The merge itself takes no memory; the log does.
pub fn end_logged(
    alloc: Global,
    entries: &mut EntryMap,
    reports: &mut Reports,
    done: Vec<ClusterDone>,
) -> Result<Changes, NoMemory>
    requires { All IsKeyed done.items }
    ensures entries { OnOk result (entries.new ≡ put_all_in entries.old (pending_of done.items)) }
    ensures reports { OnOk result (reports.new ≡ reports.old ++ reports_of done.items) }
    ensures list { IfOk result (λ list. list ≡ changes entries.old entries.new) }
    ensures sound { IfOk result (λ _. IsWritable entries.old entries.new) }
{
    let lives = pending_lives(alloc, entries, &done)?;
    end_stage(entries, reports, done)?;
    let changes = changes_in(alloc, entries, &lives)?;
    Ok(changes)
}
