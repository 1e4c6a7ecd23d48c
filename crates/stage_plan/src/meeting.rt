//! The least conflict of a stage, by a map of all keys that its clusters declare.

ghost use Rattle.std.specs.Prelude.{◌≡◌, List, All, true, false, map, length, IfOk, OnOk, IfSome, IfNone, None};
ghost use Rattle.std.specs.List.{fold};
ghost use Rattle.std.specs.Option.{option_map};
ghost use Rattle.std.specs.FinMap.{empty, entries};
ghost use Rattle.ledger_types.specs.Key.{key_format};
ghost use Rattle.ledger_spec.specs.LedgerMap.{key_bytes};
ghost use Rattle.stage_runs.specs.Runs.{written_keys, clusters_in, HasNoConflict};
ghost use Rattle.stage_runs.specs.Conflicts.{IsLeastConflict};
ghost use Rattle.stage_plan.specs.Spelled.{IsCluster, IsStage};
ghost use Rattle.stage_plan.specs.DeclaredKeys.{read_keys};
ghost use Rattle.stage_plan.specs.Meetings.{joined, noted, noted_all, noted_cluster, AreKnown, lesser_at};
ghost use Rattle.stage_plan.specs.Spots.{spot_of};

use crate::conflict::Conflict;
use crate::declaring::{read_only_of, read_write_of};
use crate::key_map::KeyMap;
use ledger_types::LedgerKey;
use std::alloc::Global;
use tx_xdr::{Cluster, Stage};
use xdr_core::NoMemory;

/// What is known of a key from some clusters of a stage.
#[derive(Clone, Copy)]
struct Meeting {
    /// The index of the first cluster that declares the key.
    first: usize,
    /// Whether that cluster declares it read-write.
    writes: bool,
    /// The index of the first later cluster that conflicts with it on the key.
    second: Option<usize>,
}

/// Returns what is known of a key after the cluster with this index declares it.
fn joined(found: Option<Meeting>, number: usize, writes: bool) -> Meeting
    ensures { result ≡ joined number writes found }
{
    match found {
        None => Meeting {
            first: number,
            writes,
            second: None,
        },
        Some(meeting) => {
            if meeting.second.is_some() || meeting.first == number || !(meeting.writes || writes) {
                meeting
            } else {
                Meeting {
                    second: Some(number),
                    ..meeting
                }
            }
        }
    }
}

/// Notes that a cluster declares a key.
fn note<'a>(
    met: &mut KeyMap<'a, Meeting>,
    key: &'a LedgerKey,
    number: usize,
    writes: bool,
) -> Result<(), NoMemory>
    requires { key_format.fits key.now }
    ensures { OnOk result (met.new ≡ noted number writes met.old key.now) }
{
    let found = met.get(key);
    met.insert(key, joined(found, number, writes))
}

/// Notes that a cluster declares these keys.
fn note_all<'a>(
    met: &mut KeyMap<'a, Meeting>,
    keys: &'a [LedgerKey],
    number: usize,
    writes: bool,
) -> Result<(), NoMemory>
    requires { All key_format.fits keys.now }
    ensures { OnOk result (met.new ≡ noted_all number writes met.old keys.now) }
{
    for key in keys {
        note(met, key, number, writes)?;
    }
    Ok(())
}

/// Notes the keys that a cluster declares read-write.
fn note_written<'a>(
    met: &mut KeyMap<'a, Meeting>,
    cluster: &'a Cluster,
    number: usize,
) -> Result<(), NoMemory>
    requires { IsCluster cluster.now.envelopes }
    ensures { OnOk result (met.new ≡ noted_all number true met.old (written_keys cluster.now.envelopes)) }
{
    let envelopes = cluster.envelopes.as_slice();
    for envelope in envelopes {
        note_all(met, read_write_of(envelope), number, true)?;
    }
    Ok(())
}

/// Notes the keys that a cluster declares read-only.
fn note_read<'a>(
    met: &mut KeyMap<'a, Meeting>,
    cluster: &'a Cluster,
    number: usize,
) -> Result<(), NoMemory>
    requires { IsCluster cluster.now.envelopes }
    ensures { OnOk result (met.new ≡ noted_all number false met.old (read_keys cluster.now.envelopes)) }
{
    let envelopes = cluster.envelopes.as_slice();
    for envelope in envelopes {
        note_all(met, read_only_of(envelope), number, false)?;
    }
    Ok(())
}

/// Notes the keys that a cluster declares.
fn note_cluster<'a>(
    met: &mut KeyMap<'a, Meeting>,
    cluster: &'a Cluster,
    number: usize,
) -> Result<(), NoMemory>
    requires { IsCluster cluster.now.envelopes }
    ensures { OnOk result (met.new ≡ noted_cluster number met.old cluster.now.envelopes) }
{
    note_written(met, cluster, number)?;
    note_read(met, cluster, number)
}

/// Notes the keys that the clusters of a stage declare.
fn note_clusters<'a>(met: &mut KeyMap<'a, Meeting>, clusters: &'a [Cluster]) -> Result<(), NoMemory>
    requires none { met.old ≡ empty }
    requires spelled { All (λ c. IsCluster c.envelopes) clusters.now }
    ensures { OnOk result (AreKnown (map (λ c. c.envelopes) clusters.now) (length clusters.now) met.new) }
{
    for number in 0..clusters.len() {
        note_cluster(met, &clusters[number], number)?;
    }
    Ok(())
}

/// Returns the one with the lower indices of a conflict and that at a key, the first one if they are the same.
fn lesser<'a>(
    best: Option<Conflict<'a>>,
    key: &'a LedgerKey,
    meeting: Meeting,
) -> Option<Conflict<'a>>
    ensures spot { option_map spot_of result ≡ lesser_at (option_map spot_of best.entry) (key_bytes key.now, meeting) }
    ensures spelled { IfSome best.entry (λ f. key_format.fits f.key.now) → key_format.fits key.now
        → IfSome result (λ f. key_format.fits f.key.now) }
{
    let Some(b) = meeting.second else {
        return best;
    };
    let found = Conflict {
        a: meeting.first,
        b,
        key,
    };
    match best {
        None => Some(found),
        Some(least) => {
            if found.a < least.a || found.a == least.a && found.b < least.b {
                Some(found)
            } else {
                Some(least)
            }
        }
    }
}

/// Finds the least of the conflicts at all keys.
fn least<'a>(met: &KeyMap<'a, Meeting>) -> Option<Conflict<'a>>
    ensures spot { option_map spot_of result ≡ fold lesser_at None (entries met.now) }
    ensures spelled { IfSome result (λ f. key_format.fits f.key.now) }
{
    let mut best = None;
    for (key, meeting) in met.iter() {
        best = lesser(best, *key, *meeting);
    }
    best
}

/// Finds the least conflict of a stage, as `first_conflict` does. It takes memory for a map of all keys that the stage declares,
/// and O(n log n) comparisons of keys, where n is how many keys its transactions declare.
pub fn find_conflict<'a>(alloc: Global, stage: &'a Stage) -> Result<Option<Conflict<'a>>, NoMemory>
    requires spelled { IsStage stage.now }
    ensures some { IfOk result (λ found. IfSome found
        (λ f. IsLeastConflict (clusters_in stage.now) f.a f.b (key_bytes f.key.now))) }
    ensures none { IfOk result (λ found. IfNone found (HasNoConflict (clusters_in stage.now))) }
    ensures key { IfOk result (λ found. IfSome found (λ f. key_format.fits f.key.now)) }
{
    let mut met = KeyMap::new(alloc);
    note_clusters(&mut met, stage.clusters.as_slice())?;
    Ok(least(&met))
}
