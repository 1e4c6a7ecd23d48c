//! What a transaction does to a map of all entries, and what a transaction set does to a ledger: definitions and their laws.
#![tactic(auto)]

ghost use Rattle.apply_spec.specs.Laws.{FramedLaw, ExtensionLaw, InvokeLaw};
ghost use Rattle.apply_spec.specs.Recorded.{RecordedLaw, OnlyLaw, AllowedLaw, OnceLaw, SmallerLaw};
ghost use Rattle.apply_spec.specs.SimulatedLaws.{SimulatedLaw, SmallerTrapsLaw};
ghost use Rattle.apply_spec.specs.ListLaws.{ResimulatedLaw, AgreesLaw, KeptRunLaw, StagesLaw};

/// The effect of a transaction depends on its declared keys alone, and is at those keys alone.
pub fn step_is_framed()
    ensures { FramedLaw }
{}

/// EXTEND_FOOTPRINT_TTL extends the live entries at read-only keys that expire before the requested ledger.
pub fn extension_is_exact()
    ensures { ExtensionLaw }
{}

/// INVOKE_HOST_FUNCTION has the effect of what becomes of the call, which is none unless the call ends in SUCCESS.
pub fn call_is_exact()
    ensures { InvokeLaw }
{}

/// The recorded footprint of a run has the keys with a write as read-write, and the other touched keys as read-only. It allows
/// the run, and no smaller footprint does.
pub fn footprints_are_recorded()
    ensures recorded { RecordedLaw }
    ensures only { OnlyLaw }
    ensures allowed { AllowedLaw }
    ensures once { OnceLaw }
    ensures smaller { SmallerLaw }
{}

/// What is simulated on one ledger is enforced on every ledger that agrees on the recorded keys. A call that succeeded traps with
/// every smaller footprint.
pub fn simulated_is_enforced()
    ensures same { SimulatedLaw }
    ensures smaller { SmallerTrapsLaw }
{}

/// What is simulated on one ledger is simulated on every ledger that agrees on the recorded keys: the same footprint, effect and
/// sums. So the run of a listed envelope is kept where the ledger still agrees.
pub fn kept_runs_are_the_same()
    ensures same { ResimulatedLaw }
    ensures agrees { AgreesLaw }
    ensures kept { KeptRunLaw }
{}

/// A list of envelopes runs like a set in which each of them is a stage of its own.
pub fn list_is_set()
    ensures { StagesLaw }
{}
