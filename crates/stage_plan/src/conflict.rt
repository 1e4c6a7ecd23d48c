//! The least conflict of a stage.

ghost use Rattle.std.specs.Prelude.{◌≡◌, ◌<◌, ℕ, List, All, map, length, IfSome, IfNone};
ghost use Rattle.std.specs.List.{fold};
ghost use Rattle.std.specs.Option.{option_copied};
ghost use Rattle.ledger_spec.specs.LedgerMap.{key_bytes};
ghost use Rattle.stage_runs.specs.Runs.{clusters_in, HasNoConflict};
ghost use Rattle.stage_runs.specs.Conflicts.{IsConflict, IsLeastConflict};
ghost use Rattle.stage_plan.specs.Spelled.{IsCluster, IsStage};
ghost use Rattle.stage_plan.specs.Listed.{lesser_met};
ghost use Rattle.stage_plan.specs.Least.{IsLeastMeeting, IsFirstWith};

use crate::declaring::{meet_at, read_only_of, read_write_of};
use ledger_types::LedgerKey;
use std::cmp::Ordering;
use tx_xdr::{Cluster, Stage};

/// Two clusters of a stage that conflict, and the key on which they do.
#[derive(Clone, Copy)]
pub struct Conflict<'a> {
    /// The index of the first cluster in the stage.
    pub a: usize,
    /// The index of the second cluster, which is above `a`.
    pub b: usize,
    pub key: &'a LedgerKey,
}

/// Returns the lesser of two keys if the clusters conflict on the second key.
fn lesser<'a>(
    best: Option<&'a LedgerKey>,
    key: &'a LedgerKey,
    first: &Cluster,
    second: &Cluster,
) -> Option<&'a LedgerKey>
    ensures { option_copied result ≡ lesser_met first.now.envelopes second.now.envelopes (option_copied best.entry) key.now }
{
    if !meet_at(first, second, key) {
        return best;
    }
    match best {
        None => Some(key),
        Some(least) => match least.cmp(key) {
            Ordering::Greater => Some(key),
            Ordering::Less | Ordering::Equal => Some(least),
        },
    }
}

/// Returns the least of the keys on which two clusters conflict, and of `best`.
fn least_of<'a>(
    best: Option<&'a LedgerKey>,
    keys: &'a [LedgerKey],
    first: &Cluster,
    second: &Cluster,
) -> Option<&'a LedgerKey>
    ensures { option_copied result ≡ fold (lesser_met first.now.envelopes second.now.envelopes)
        (option_copied best.entry) keys.now }
{
    let mut least = best;
    for key in keys {
        least = lesser(least, key, first, second);
    }
    least
}

/// Finds the least key on which two clusters conflict.
fn least_meeting<'a>(first: &'a Cluster, second: &Cluster) -> Option<&'a LedgerKey>
    requires first { IsCluster first.now.envelopes }
    requires second { IsCluster second.now.envelopes }
    ensures { IsLeastMeeting first.now.envelopes second.now.envelopes (option_copied result) }
{
    let mut best = None;
    let envelopes = first.envelopes.as_slice();
    for envelope in envelopes {
        best = least_of(best, read_only_of(envelope), first, second);
        best = least_of(best, read_write_of(envelope), first, second);
    }
    best
}

/// Finds the least conflict of the cluster at index `a` with one after it.
fn first_with<'a>(clusters: &'a [Cluster], a: usize) -> Option<Conflict<'a>>
    requires within { a < length clusters.now }
    requires spelled { All (λ c. IsCluster c.envelopes) clusters.now }
    ensures some { IfSome result (λ f. IsFirstWith (map (λ c. c.envelopes) clusters.now) a f.a f.b (key_bytes f.key.now)) }
    ensures none { IfNone result ((d : ℕ) (q : List ℕ) → ¬ (IsConflict (map (λ c. c.envelopes) clusters.now) a d q)) }
{
    let first = &clusters[a];
    for b in a + 1..clusters.len() {
        if let Some(key) = least_meeting(first, &clusters[b]) {
            return Some(Conflict { a, b, key });
        }
    }
    None
}

/// Finds the least conflict of a stage: by the index of the first cluster, then by that of the second one, then by the XDR bytes
/// of the key. It takes no memory. For each pair of clusters it takes O(n^2) comparisons, where n is how many keys they declare.
pub fn first_conflict(stage: &Stage) -> Option<Conflict<'_>>
    requires spelled { IsStage stage.now }
    ensures some { IfSome result (λ f. IsLeastConflict (clusters_in stage.now) f.a f.b (key_bytes f.key.now)) }
    ensures none { IfNone result (HasNoConflict (clusters_in stage.now)) }
{
    let clusters = stage.clusters.as_slice();
    for a in 0..clusters.len() {
        if let Some(found) = first_with(clusters, a) {
            return Some(found);
        }
    }
    None
}
