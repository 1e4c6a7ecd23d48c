//! A cluster that a worker is to run, with its part of the entries.

use crate::running::ClusterDone;
use change_log::Changes;
use entry_map::EntryMap;
use tx_xdr::Envelope;
use xdr_core::NoMemory;

/// A cluster with the entries that it declares read-write, and room for what it leaves.
#[derive(Drop)]
pub struct Job<'a> {
    pub envelopes: &'a [Envelope],
    pub own: EntryMap,
    /// `Err(NoMemory)` until the cluster has run, and if memory ran out in its run.
    pub done: Result<ClusterDone, NoMemory>,
    /// What each of its transactions changed, if a log is kept.
    pub log: Vec<Changes>,
}
