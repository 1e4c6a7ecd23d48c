//! Where each envelope of a list goes.

ghost use Rattle.std.specs.Prelude.{◌<◌, ◌≤◌, length, All, IfOk};
ghost use Rattle.stage_plan.specs.Spelled.{DeclaresSpelled};
ghost use Rattle.set_build.specs.Known.{ArePlanned};

use crate::envelope_keys::EnvelopeKeys;
use crate::last_stage::LastStage;
use crate::place::Place;
use std::alloc::Global;
use tx_xdr::Envelope;
use xdr_core::NoMemory;

/// Returns where each envelope goes. It writes each key's XDR bytes once, and takes O(k log n) comparisons of bytes, where the
/// envelopes declare k keys and the stages n keys at most.
pub(crate) fn plan(
    alloc: Global,
    envelopes: &[Envelope],
    max_clusters: usize,
) -> Result<Vec<Place>, NoMemory>
    requires spelled { All DeclaresSpelled envelopes.now }
    requires few { length envelopes.now ≤ 4294967295 }
    requires some { 0 < max_clusters }
    ensures { IfOk result (λ places. ArePlanned max_clusters envelopes.now (length envelopes.now) places.items) }
{
    let mut last = LastStage::new(alloc);
    let mut places = Vec::new(alloc);
    for envelope in envelopes {
        let keys = EnvelopeKeys::of(alloc, envelope)?;
        let place = last.place(&keys, max_clusters);
        if let Place::NewStage = place {
            last = LastStage::new(alloc);
        }
        last.put(place, keys)?;
        places.push(place)?;
    }
    Ok(places)
}
