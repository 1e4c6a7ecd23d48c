//! Snapshots of what meets demands.

/// A snapshot of an authority.
#[derive(Clone, Copy, Debug, PartialEq, Eq)]
pub struct Point {
    /// The number of nodes that had met demands.
    pub pairs: usize,
    /// The number of demands so far, if they are noted; otherwise 0.
    pub demands: usize,
}
