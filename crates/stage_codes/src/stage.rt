//! The codes of a stage.

ghost use Rattle.std.specs.Prelude.{◌≡◌, All, IfOk, OnOk};
ghost use Rattle.code_cache.specs.Cached.{AreRising};
ghost use Rattle.stage_plan.specs.DeclaredKeys.{read_keys};
ghost use Rattle.stage_plan.specs.Spelled.{IsCluster};
ghost use Rattle.stage_codes.specs.Found.{Adds, AreFound, HasKeyOf, IsCodeIn, IsShared, stage_keys};

use crate::found::{Codes, add_codes, in_order};
use code_cache::Code;
use entry_lookup::Ground;
use stage_plan::read_only_of;
use std::alloc::Global;
use tx_xdr::{Cluster, Envelope};
use xdr_core::NoMemory;

/// Adds the codes that the transactions of a cluster declare read-only.
fn add_cluster<'a, G: Ground>(
    ground: &'a G,
    codes: &mut Codes<'a>,
    envelopes: &[Envelope],
) -> Result<(), NoMemory>
    requires spelled { IsCluster envelopes.now }
    requires found { AreFound (G.map ground.now) codes.old.entries }
    ensures { OnOk result (Adds (G.map ground.now) codes.old codes.new (read_keys envelopes.now)) }
{
    for envelope in envelopes {
        add_codes(ground, codes, read_only_of(envelope))?;
    }
    Ok(())
}

/// Adds the codes that the transactions of clusters declare read-only.
fn add_clusters<'a, G: Ground>(
    ground: &'a G,
    codes: &mut Codes<'a>,
    clusters: &[Cluster],
) -> Result<(), NoMemory>
    requires spelled { All (λ c. IsCluster c.envelopes) clusters.now }
    requires found { AreFound (G.map ground.now) codes.old.entries }
    ensures { OnOk result (Adds (G.map ground.now) codes.old codes.new (stage_keys clusters.now)) }
{
    for cluster in clusters {
        add_cluster(ground, codes, cluster.envelopes.as_slice())?;
    }
    Ok(())
}

/// Returns the codes that the transactions of a stage declare read-only and that the ground has, sorted by their hashes. They
/// make a `Cache` that the clusters of the stage share. It takes O(n log n) comparisons of hashes and keys, where n is how many
/// keys the stage declares.
///
/// The ground is what all clusters may read. If the entries at the keys that some transaction of the stage declares read-write
/// are not in it, then it has no code that the stage may change.
pub fn stage_codes<'a, G: Ground>(
    alloc: Global,
    ground: &'a G,
    clusters: &[Cluster],
) -> Result<Vec<Code<'a>>, NoMemory>
    requires { All (λ c. IsCluster c.envelopes) clusters.now }
    ensures rising { IfOk result (λ codes. AreRising codes.items) }
    ensures entries { IfOk result (λ codes. All (IsCodeIn (G.map ground.now)) codes.items) }
    ensures shared { IfOk result (λ codes. All (IsShared (G.map ground.now) codes.items) (stage_keys clusters.now)) }
    ensures only { IfOk result (λ codes. All (λ c. HasKeyOf (stage_keys clusters.now) c.hash) codes.items) }
{
    let mut codes = Codes::new(alloc);
    add_clusters(ground, &mut codes, clusters)?;
    Ok(in_order(alloc, codes)?)
}

/// Returns the codes that the transactions of a cluster declare read-only and that the ground has, sorted by their hashes, as
/// `stage_codes` does for the clusters of a stage.
pub fn cluster_codes<'a, G: Ground>(
    alloc: Global,
    ground: &'a G,
    envelopes: &[Envelope],
) -> Result<Vec<Code<'a>>, NoMemory>
    requires { IsCluster envelopes.now }
    ensures rising { IfOk result (λ codes. AreRising codes.items) }
    ensures entries { IfOk result (λ codes. All (IsCodeIn (G.map ground.now)) codes.items) }
    ensures shared { IfOk result (λ codes. All (IsShared (G.map ground.now) codes.items) (read_keys envelopes.now)) }
    ensures only { IfOk result (λ codes. All (λ c. HasKeyOf (read_keys envelopes.now) c.hash) codes.items) }
{
    let mut codes = Codes::new(alloc);
    add_cluster(ground, &mut codes, envelopes)?;
    Ok(in_order(alloc, codes)?)
}
