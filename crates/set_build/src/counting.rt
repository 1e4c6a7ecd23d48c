//! How many stages and clusters a built set has.

ghost use Rattle.std.specs.Prelude.{◌≡◌, ◌<◌, length, map};
ghost use Rattle.stage_runs.specs.Runs.{clusters_in};
ghost use Rattle.set_build.specs.Built.{IsInStages};
ghost use Rattle.set_build.specs.Placed.{stages_in, cluster_count};

use tx_xdr::{Phase, Stage, TxSet};

/// The numbers of stages and of clusters of a set.
#[derive(Clone, Copy, Debug, PartialEq, Eq)]
pub struct Counts {
    pub stages: u64,
    /// The number of clusters of all stages.
    pub clusters: u64,
}

/// Counts the stages and the clusters of a built set.
pub fn counts_of(set: &TxSet) -> Counts
    requires built { IsInStages set.now }
    requires few { cluster_count (stages_in set.now) < 18446744073709551616 }
    ensures stages { result.stages ≡ length (stages_in set.now) }
    ensures clusters { result.clusters ≡ cluster_count (stages_in set.now) }
{
    let stages = stages_of(set);
    Counts {
        stages: stages.len() as u64,
        clusters: count_clusters(stages),
    }
}

/// Returns the stages of a built set.
fn stages_of(set: &TxSet) -> &[Stage]
    requires { IsInStages set.now }
    ensures { map clusters_in result.now ≡ stages_in set.now }
{
    match set.phases.as_slice().first() {
        Some(Phase::Parallel { stages, .. }) => stages.as_slice(),
        _ => &[],
    }
}

fn count_clusters(stages: &[Stage]) -> u64
    requires { cluster_count (map clusters_in stages.now) < 18446744073709551616 }
    ensures { result ≡ cluster_count (map clusters_in stages.now) }
{
    let mut count = 0;
    for stage in stages {
        count += stage.clusters.as_slice().len() as u64;
    }
    count
}
