//! The clusters that a transaction meets.

ghost use Rattle.std.specs.Prelude.{◌≡◌};
ghost use Rattle.set_build.specs.Known.{met_with};

/// How many clusters of a stage a transaction meets. More than one need not be told apart.
#[derive(Clone, Copy)]
pub(crate) enum Met {
    None,
    /// The cluster with this index.
    One(usize),
    Many,
}

impl Met {
    /// Returns the clusters of both.
    pub(crate) fn with(self, other: Met) -> Met
        ensures { result ≡ met_with self other }
    {
        match (self, other) {
            (Met::None, met) | (met, Met::None) => met,
            (Met::One(i), Met::One(j)) => { if i == j { Met::One(i) } else { Met::Many } }
            (Met::Many, _) | (_, Met::Many) => Met::Many,
        }
    }
}
