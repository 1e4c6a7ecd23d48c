//! Builds a set from a list of envelopes.

ghost use Rattle.std.specs.Prelude.{◌≡◌, ◌<◌, ◌≤◌, IfOk, length};
ghost use Rattle.std.specs.List.{AllByRecursion};
ghost use Rattle.tx_xdr.specs.Envelope.{envelopes_format};
ghost use Rattle.tx_xdr.specs.Set.{set_format};
ghost use Rattle.set_build.specs.Built.{built_set, set_with, IsInStages};
ghost use Rattle.set_build.specs.Placed.{stages_in, cluster_count, IsSound, IsArranged};
ghost use Rattle.set_build.specs.Laws.{MeetsLaw, BuiltLaw, HasNone};

use crate::moving::moved;
use crate::plan::plan;
use std::alloc::Global;
use tx_xdr::{Envelope, Phase, Stage, TxSet};
use value_types::{Hash, Items};
use xdr_core::NoMemory;

/// A transaction meets a cluster exactly if the two conflict.
pub fn meets_is_conflict()
    ensures { MeetsLaw }
{}

/// The stages of a built set are sound, and have the transactions of the list.
pub fn built_stages_are_sound()
    ensures { BuiltLaw }
{}

/// Returns the set with these stages.
fn set_of(alloc: Global, stages: Vec<Stage>) -> Result<TxSet, NoMemory>
    ensures { IfOk result (λ set. set ≡ set_with stages.items) }
{
    let mut phases = Vec::new(alloc);
    phases.push(Phase::Parallel {
        base_fee: None,
        stages: Items::from_vec(stages),
    })?;
    Ok(TxSet {
        previous_ledger_hash: Hash([0; 32]),
        phases: Items::from_vec(phases),
    })
}

/// Builds a set from a list of envelopes, which go to the last stage in their order. An envelope that conflicts with no cluster
/// there is a new cluster, or joins the cluster with the fewest envelopes if there are `max_clusters`, from 1 to 1,024. An
/// envelope that conflicts with one cluster joins it, and one that conflicts with more opens a new stage.
///
/// It writes the XDR bytes of each key once, and takes O(k log k) comparisons of such bytes, where the envelopes declare k keys.
/// It never compares an envelope with each cluster.
pub fn build(
    alloc: Global,
    envelopes: Items<Envelope, 4294967295>,
    max_clusters: u32,
) -> Result<TxSet, NoMemory>
    requires spelled { envelopes_format.fits envelopes }
    requires some { 0 < max_clusters }
    requires few { max_clusters ≤ 1024 }
    ensures built { IfOk result (λ set. set ≡ built_set max_clusters envelopes) }
    ensures stages { IfOk result IsInStages }
    ensures sound { IfOk result (λ set. AllByRecursion (IsSound max_clusters) (stages_in set)) }
    ensures arranged { IfOk result (λ set. IsArranged envelopes (stages_in set)) }
    ensures free { IfOk result (λ set. HasNone (stages_in set)) }
    ensures few { IfOk result (λ set. cluster_count (stages_in set) ≤ length envelopes) }
    ensures fits { IfOk result (λ set. set_format.fits set) }
{
    let places = plan(alloc, envelopes.as_slice(), max_clusters as usize)?;
    let stages = moved(alloc, envelopes.into_vec(), &places)?;
    let set = set_of(alloc, stages)?;
    Ok(set)
}
