//! Which authorisation entries a transaction needs: the definitions, and the law that these entries are enough.
#![tactic(auto)]

ghost use Rattle.record_spec.specs.Agreed.{AgreedLaw, EnoughLaw};

/// A run with the recorded entries, signed by their accounts, ends as the recording run did: with the same end, value and events,
/// and a map that differs at nonces alone.
pub fn recorded_entries_suffice()
    ensures runs { AgreedLaw }
    ensures transactions { EnoughLaw }
{}
