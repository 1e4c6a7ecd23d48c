//! Laws of the table. Each law is the contract of a function with an empty body.

ghost use Rattle.host_interface.specs.Rows.{NamesDiffer};

/// No two rows have the same module and name.
pub fn names_differ()
    ensures { NamesDiffer }
{}
