//! Where an envelope goes.

/// Where an envelope goes that is placed into the last stage.
#[derive(Clone, Copy)]
pub(crate) enum Place {
    /// Into a new stage, which it opens.
    NewStage,
    /// Into a new cluster at the end of the last stage.
    NewCluster,
    /// At the end of the cluster with this index in the last stage.
    InCluster(usize),
}
