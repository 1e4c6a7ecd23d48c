//! The state of a cluster's run.

use crate::pending::Pending;
use crate::reports::Reports;
use stage_runs::Extension;

/// A cluster between its transactions.
#[derive(Drop)]
pub struct ClusterRun {
    pub pending: Pending,
    pub reports: Reports,
}

/// What a cluster leaves beside its entries: the extensions that are still pending, and the reports of its transactions.
#[derive(Drop)]
pub struct ClusterDone {
    pub pending: Vec<Extension>,
    pub reports: Reports,
}
