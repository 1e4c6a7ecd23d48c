//! Moves envelopes to their places.

ghost use Rattle.std.specs.Prelude.{◌≡◌, ◌<◌, ℕ, length, map, IfOk, OnOk};
ghost use Rattle.stage_runs.specs.Runs.{clusters_in};
ghost use Rattle.set_build.specs.Built.{building, built_stages, put, start, ended};
ghost use Rattle.set_build.specs.Known.{ArePlanned};
ghost use Rattle.set_build.specs.Moved.{shown, closed, HasPlace};
ghost use Rattle.set_build.specs.declared.place.Place.TheVariants.{NewCluster};

use crate::place::Place;
use std::alloc::Global;
use std::mem;
use tx_xdr::{Cluster, Envelope, Stage};
use value_types::Items;
use xdr_core::NoMemory;

/// Stages that are being built.
#[derive(Drop)]
pub(crate) struct Stages {
    /// The stages before the last one.
    earlier: Vec<Stage>,
    /// The clusters of the last stage.
    last: Vec<Vec<Envelope>>,
}

/// Returns clusters of these envelopes.
fn clusters_of(alloc: Global, last: Vec<Vec<Envelope>>) -> Result<Vec<Cluster>, NoMemory>
    ensures { IfOk result (λ clusters. map (λ c. c.envelopes) clusters.items ≡ map (λ v. v.items) last.items) }
{
    let mut clusters = Vec::new(alloc);
    for envelopes in last {
        clusters.push(Cluster {
            envelopes: Items::from_vec(envelopes),
        })?;
    }
    Ok(clusters)
}

impl Stages {
    fn new(alloc: Global) -> Stages
        ensures { shown result ≡ start }
    {
        Stages {
            earlier: Vec::new(alloc),
            last: Vec::new(alloc),
        }
    }

    /// Ends the last stage.
    fn close(&mut self, alloc: Global) -> Result<(), NoMemory>
        ensures { OnOk result (shown self.new ≡ closed (shown self.old)) }
    {
        let last = mem::replace(&mut self.last, Vec::new(alloc));
        let clusters = clusters_of(alloc, last)?;
        self.earlier.push(Stage {
            clusters: Items::from_vec(clusters),
        })?;
        Ok(())
    }

    /// Opens a cluster with an envelope.
    fn open(&mut self, alloc: Global, envelope: Envelope) -> Result<(), NoMemory>
        ensures { OnOk result (shown self.new ≡ put (shown self.old) NewCluster envelope) }
    {
        let mut envelopes = Vec::new(alloc);
        envelopes.push(envelope)?;
        self.last.push(envelopes)?;
        Ok(())
    }

    /// Moves an envelope to its place.
    fn put(&mut self, alloc: Global, place: Place, envelope: Envelope) -> Result<(), NoMemory>
        requires { HasPlace (shown self.old).last place }
        ensures { OnOk result (shown self.new ≡ put (shown self.old) place envelope) }
    {
        match place {
            Place::NewStage => {
                self.close(alloc)?;
                self.open(alloc, envelope)
            }
            Place::NewCluster => self.open(alloc, envelope),
            Place::InCluster(number) => {
                self.last[number].push(envelope)?;
                Ok(())
            }
        }
    }

    /// Returns the stages. A last stage without clusters is left out.
    fn end(mut self, alloc: Global) -> Result<Vec<Stage>, NoMemory>
        ensures { IfOk result (λ stages. map clusters_in stages.items ≡ ended (shown self).earlier (shown self).last) }
    {
        if !self.last.is_empty() {
            self.close(alloc)?;
        }
        let Stages { earlier, last: _ } = self;
        Ok(earlier)
    }
}

/// Moves envelopes to their places, one after the other.
fn move_all(
    alloc: Global,
    stages: &mut Stages,
    envelopes: Vec<Envelope>,
    places: &[Place],
) -> Result<(), NoMemory>
    requires start { shown stages.old ≡ start }
    requires planned { (max : ℕ) × (0 < max) × ArePlanned max envelopes.items (length envelopes.items) places.now }
    ensures { OnOk result ((max : ℕ) → ArePlanned max envelopes.items (length envelopes.items) places.now
        → shown stages.new ≡ building max envelopes.items) }
{
    let mut number = 0;
    for envelope in envelopes {
        stages.put(alloc, places[number], envelope)?;
        number += 1;
    }
    Ok(())
}

/// Moves envelopes to their places in stages.
pub(crate) fn moved(
    alloc: Global,
    envelopes: Vec<Envelope>,
    places: &[Place],
) -> Result<Vec<Stage>, NoMemory>
    requires { (max : ℕ) × (0 < max) × ArePlanned max envelopes.items (length envelopes.items) places.now }
    ensures { IfOk result (λ stages. (max : ℕ) → ArePlanned max envelopes.items (length envelopes.items) places.now
        → map clusters_in stages.items ≡ built_stages max envelopes.items) }
{
    let mut stages = Stages::new(alloc);
    move_all(alloc, &mut stages, envelopes, places)?;
    stages.end(alloc)
}
