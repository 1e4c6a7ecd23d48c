//! Runs clusters, one after the other, and the beginning of a cluster.

ghost use Rattle.std.specs.Prelude.{◌≡◌, All, List, IfOk, IfSome, OnOk, IsTrue, filter, map, option_map, if◌then◌else◌};
ghost use Rattle.ledger_types.specs.Key.{key_format};
ghost use Rattle.ledger_spec.specs.LedgerFile.{are_settings, has_next};
ghost use Rattle.tx_xdr.specs.Envelope.{envelope_format};
ghost use Rattle.stage_runs.specs.Runs.{Reported, is_written, put_all_in, put_in};
ghost use Rattle.stage_runs.specs.Runs.{run_cluster as run_cluster_in, run_clusters as run_clusters_in, run_next_cluster};
ghost use Rattle.apply_spec.specs.Enforced.{enforced};
ghost use Rattle.set_steps.specs.Spelled.{AreEnvelopes, IsCluster};
ghost use Rattle.set_steps.specs.State.{between, done_in, IsKeyed};
ghost use Rattle.set_place.specs.Places.{met_on, met_in_cluster};
ghost use Rattle.set_place.specs.Reaching.{in_stage};

use ledger_apply::run_cluster;
use ledger_file::Ledger;
use ledger_parts::KeySet;
use ledger_types::{Header, Verdicts};
use set_steps::ClusterDone;
use stage_plan::read_write_of;
use stage_runs::Extension;
use std::alloc::Global;
use tx_xdr::{Cluster, Envelope};
use xdr_core::NoMemory;

/// Runs transactions of a cluster that has run none yet.
fn run_first(
    alloc: Global,
    ledger: &mut Ledger,
    header: &Header,
    verdicts: &Verdicts,
    envelopes: &[Envelope],
) -> Result<ClusterDone, NoMemory>
    requires fits { AreEnvelopes envelopes.now }
    requires settings { IsTrue (are_settings header.now.settings) }
    requires next { IsTrue (has_next header.now) }
    ensures run { IfOk result (λ d. done_in ledger.new.entries d
        ≡ run_cluster_in (enforced header.now verdicts.now) ledger.old.entries envelopes.now) }
    ensures keyed { IfOk result IsKeyed }
{
    let mut log = Vec::new(alloc);
    run_cluster(
        alloc, ledger, header, verdicts, envelopes, None, false, &mut log,
    )
}

/// Runs the next cluster of a stage, and adds what it leaves.
pub(crate) fn run_next(
    alloc: Global,
    ledger: &mut Ledger,
    header: &Header,
    verdicts: &Verdicts,
    done: &mut Vec<ClusterDone>,
    envelopes: &[Envelope],
) -> Result<(), NoMemory>
    requires fits { AreEnvelopes envelopes.now }
    requires settings { IsTrue (are_settings header.now.settings) }
    requires next { IsTrue (has_next header.now) }
    requires keyed { All IsKeyed done.old.items }
    ensures run { OnOk result ((reports : List Reported) → in_stage ledger.new.entries reports done.new.items
        ≡ run_next_cluster (enforced header.now verdicts.now)
        (in_stage ledger.old.entries reports done.old.items) envelopes.now) }
    ensures keyed { OnOk result (All IsKeyed done.new.items) }
{
    let left = run_first(alloc, ledger, header, verdicts, envelopes)?;
    done.push(left)?;
    Ok(())
}

/// Runs clusters of a stage that has run none yet. Returns what they leave beside the entries.
pub(crate) fn run_clusters(
    alloc: Global,
    ledger: &mut Ledger,
    header: &Header,
    verdicts: &Verdicts,
    clusters: &[Cluster],
) -> Result<Vec<ClusterDone>, NoMemory>
    requires fits { All IsCluster clusters.now }
    requires settings { IsTrue (are_settings header.now.settings) }
    requires next { IsTrue (has_next header.now) }
    ensures run { IfOk result (λ done. (reports : List Reported) → in_stage ledger.new.entries reports done.items
        ≡ run_clusters_in (enforced header.now verdicts.now)
        (between ledger.old.entries reports) (map (λ c. c.envelopes) clusters.now)) }
    ensures keyed { IfOk result (λ done. All IsKeyed done.items) }
{
    let mut done = Vec::new(alloc);
    for cluster in clusters {
        let envelopes = cluster.envelopes.as_slice();
        run_next(alloc, ledger, header, verdicts, &mut done, envelopes)?;
    }
    Ok(done)
}

/// Puts in an extension, if it is of a key that a transaction declares read-write.
fn put_if(ledger: &mut Ledger, written: bool, extension: &Extension)
    requires { key_format.fits extension.now.key }
    ensures { ledger.new.entries
        ≡ (if written then put_in ledger.old.entries extension.now else ledger.old.entries) }
{
    if written {
        ledger.entries.raise(&extension.key, extension.live_until);
    }
}

/// Puts in the pending extensions of the keys that a transaction declares read-write.
fn put_written(
    alloc: Global,
    ledger: &mut Ledger,
    pending: &[Extension],
    envelope: &Envelope,
) -> Result<(), NoMemory>
    requires fits { envelope_format.fits envelope.now }
    requires keyed { All (λ e. key_format.fits e.key) pending.now }
    ensures { OnOk result (ledger.new.entries
        ≡ put_all_in ledger.old.entries (filter (is_written envelope.now) pending.now)) }
{
    let mut keys = KeySet::new(alloc);
    keys.add_all(read_write_of(envelope))?;
    for extension in pending {
        let written = keys.has(&extension.key);
        put_if(ledger, written, extension);
    }
    Ok(())
}

/// Runs the transactions of a cluster that stand before an index, and puts in what the transaction at that index sees put in.
/// Returns that transaction, if there is one.
pub(crate) fn reach_in_cluster<'a>(
    alloc: Global,
    ledger: &mut Ledger,
    header: &Header,
    verdicts: &Verdicts,
    cluster: &'a [Envelope],
    index: usize,
) -> Result<Option<&'a Envelope>, NoMemory>
    requires fits { AreEnvelopes cluster.now }
    requires settings { IsTrue (are_settings header.now.settings) }
    requires next { IsTrue (has_next header.now) }
    ensures met { IfOk result (λ o. option_map (λ tx. met_on ledger.new.entries tx.now) o
        ≡ met_in_cluster (enforced header.now verdicts.now) ledger.old.entries index cluster.now) }
    ensures fits { IfOk result (λ o. IfSome o (λ tx. envelope_format.fits tx.now)) }
{
    match cluster.get(index) {
        None => Ok(None),
        Some(envelope) => {
            let before = &cluster[..index];
            let done = run_first(alloc, ledger, header, verdicts, before)?;
            put_written(alloc, ledger, &done.pending, envelope)?;
            Ok(Some(envelope))
        }
    }
}
