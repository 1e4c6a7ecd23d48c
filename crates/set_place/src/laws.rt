//! The laws of places of a set.

ghost use Rattle.set_place.specs.Laws.{PlaceLaw, OrderLaw, ReportedLaw, AppliedLaw};

/// What the transaction at a place meets, and that the run of the set reports what it does there.
pub fn places_are_reported()
    ensures place { PlaceLaw }
    ensures order { OrderLaw }
    ensures reported { ReportedLaw }
    ensures applied { AppliedLaw }
{}
