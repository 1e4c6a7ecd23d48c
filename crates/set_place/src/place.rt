//! Places of a set.

/// A place of a transaction set: a stage of the set, a cluster of that stage, and a transaction of that cluster. Each is counted
/// from 0, the stages over the whole set. A component of a phase is a stage of one cluster.
#[derive(Clone, Copy, Debug, PartialEq, Eq)]
pub struct Place {
    pub stage: usize,
    pub cluster: usize,
    pub transaction: usize,
}
