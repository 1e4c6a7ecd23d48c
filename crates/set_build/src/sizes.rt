//! The numbers of envelopes of the clusters of a stage.

ghost use Rattle.std.specs.Prelude.{◌≡◌, ◌<◌, ◌+◌, ◌++◌, ◌∷◌, [], length, get_or, set, OnOk};
ghost use Rattle.set_build.specs.Built.{first_least};
ghost use Rattle.set_build.specs.Known.{IsRanked};

use std::alloc::Global;
use std::collections::BTreeSet;
use xdr_core::NoMemory;

/// The number of envelopes of each cluster, and the same numbers in rising order.
#[derive(Drop)]
pub(crate) struct Sizes {
    counts: Vec<usize>,
    /// Each number with the index of its cluster.
    by_size: BTreeSet<(usize, usize)>,
}

impl Sizes {
    /// Returns the numbers of a stage without clusters.
    pub(crate) fn new(alloc: Global) -> Sizes
        ensures none { result.counts.items ≡ [] }
        ensures ranked { IsRanked result }
    {
        Sizes {
            counts: Vec::new(alloc),
            by_size: BTreeSet::new(alloc),
        }
    }

    /// Returns how many clusters there are.
    pub(crate) fn len(&self) -> usize
        ensures { result ≡ length self.now.counts.items }
    {
        self.counts.len()
    }

    /// Returns the index of the cluster with the fewest envelopes, of the first one if several have as many. It takes
    /// O(log n) steps.
    pub(crate) fn fewest(&self) -> usize
        requires ranked { IsRanked self.now }
        requires some { 0 < length self.now.counts.items }
        ensures { result ≡ first_least self.now.counts.items }
    {
        match self.by_size.first() {
            Some(least) => least.1,
            None => 0,
        }
    }

    /// Adds a cluster of one envelope.
    pub(crate) fn push(&mut self) -> Result<(), NoMemory>
        requires ranked { IsRanked self.old }
        ensures counts { OnOk result (self.new.counts.items ≡ self.old.counts.items ++ 1 ∷ []) }
        ensures ranked { OnOk result (IsRanked self.new) }
    {
        self.by_size.insert((1, self.counts.len()))?;
        self.counts.push(1)?;
        Ok(())
    }

    /// Adds an envelope to a cluster. It takes O(log n) steps.
    pub(crate) fn grow(&mut self, number: usize) -> Result<(), NoMemory>
        requires ranked { IsRanked self.old }
        requires within { number < length self.old.counts.items }
        requires room { get_or self.old.counts.items number 0 < 18446744073709551615 }
        ensures counts { OnOk result
            (self.new.counts.items ≡ set self.old.counts.items number (get_or self.old.counts.items number 0 + 1)) }
        ensures ranked { OnOk result (IsRanked self.new) }
    {
        let count = self.counts[number];
        self.by_size.remove(&(count, number));
        self.by_size.insert((count + 1, number))?;
        self.counts[number] = count + 1;
        Ok(())
    }
}
