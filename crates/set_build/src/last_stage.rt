//! What is known of the last stage while envelopes are placed.

ghost use Rattle.std.specs.Prelude.{◌≡◌, ◌<◌, [], OnOk};
ghost use Rattle.stage_runs.specs.Maps.{Bytes};
ghost use Rattle.set_build.specs.Known.{IsLast, IsRanked, IsThere, AreMarked, who, named};
ghost use Rattle.set_build.specs.Known.{met_by as met_by_in, place_by, keys_after, counts_after};
ghost use Rattle.set_build.specs.declared.place.Place.TheVariants.{NewCluster};

use crate::declarer::{Declarers, met_by, note_by};
use crate::envelope_keys::EnvelopeKeys;
use crate::met::Met;
use crate::place::Place;
use crate::sizes::Sizes;
use std::alloc::Global;
use xdr_core::NoMemory;

/// Who declares the keys of the last stage, and how many envelopes its clusters have.
#[derive(Drop)]
pub(crate) struct LastStage {
    keys: Declarers,
    sizes: Sizes,
}

impl LastStage {
    /// Returns a stage without clusters.
    pub(crate) fn new(alloc: Global) -> LastStage
        ensures { IsLast [] result }
    {
        LastStage {
            keys: Declarers::new(alloc),
            sizes: Sizes::new(alloc),
        }
    }

    /// Returns where an envelope goes that declares these keys.
    pub(crate) fn place(&self, keys: &EnvelopeKeys, max_clusters: usize) -> Place
        requires marked { AreMarked keys.now }
        requires ranked { IsRanked self.now.sizes }
        requires some { 0 < max_clusters }
        ensures { result ≡ place_by max_clusters self.now.sizes.counts.items
            (met_by_in (who self.now.keys) (named keys.now)) }
    {
        match met_by(&self.keys, keys) {
            Met::None => {
                if self.sizes.len() < max_clusters {
                    Place::NewCluster
                } else {
                    Place::InCluster(self.sizes.fewest())
                }
            }
            Met::One(number) => Place::InCluster(number),
            Met::Many => Place::NewStage,
        }
    }

    /// Notes an envelope of these keys that opens a cluster.
    fn open(&mut self, keys: EnvelopeKeys) -> Result<(), NoMemory>
        requires marked { AreMarked keys }
        requires ranked { IsRanked self.old.sizes }
        ensures keys { OnOk result ((q : Bytes) → who self.new.keys q
            ≡ keys_after (who self.old.keys) self.old.sizes.counts.items NewCluster (named keys) q) }
        ensures counts { OnOk result (self.new.sizes.counts.items ≡ counts_after self.old.sizes.counts.items NewCluster) }
        ensures ranked { OnOk result (IsRanked self.new.sizes) }
    {
        note_by(&mut self.keys, keys, self.sizes.len())?;
        self.sizes.push()
    }

    /// Notes an envelope of these keys that goes to a place. A new stage has no clusters yet.
    pub(crate) fn put(&mut self, place: Place, keys: EnvelopeKeys) -> Result<(), NoMemory>
        requires marked { AreMarked keys }
        requires ranked { IsRanked self.old.sizes }
        requires there { IsThere self.old.sizes.counts.items place }
        ensures keys { OnOk result ((q : Bytes) → who self.new.keys q
            ≡ keys_after (who self.old.keys) self.old.sizes.counts.items place (named keys) q) }
        ensures counts { OnOk result (self.new.sizes.counts.items ≡ counts_after self.old.sizes.counts.items place) }
        ensures ranked { OnOk result (IsRanked self.new.sizes) }
    {
        match place {
            Place::NewStage | Place::NewCluster => self.open(keys),
            Place::InCluster(number) => {
                note_by(&mut self.keys, keys, number)?;
                self.sizes.grow(number)
            }
        }
    }
}
