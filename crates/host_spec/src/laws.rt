//! Laws of the definitions. Each law is the contract of a function with an empty body.

ghost use Rattle.host_spec.specs.Indices.{StandInOrder};

/// Each import's row of the host interface stands at the import's index.
pub fn rows_stand_in_order()
    ensures { StandInOrder }
{}
