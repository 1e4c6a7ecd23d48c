//! Laws of values that enter the host. Each law is the contract of a function with an empty body.

ghost use Rattle.std.specs.Prelude.{◌≡◌, Ok};
ghost use Rattle.value_types.specs.Datum.{Datum};
ghost use Rattle.value_types.specs.Views.{datum};
ghost use Rattle.value_types.specs.Formats.{scval_format};
ghost use Rattle.value_types.specs.declared.value.ScVal.{ScVal as ScValData};
ghost use Rattle.host_spec.specs.Hosted.{entry, IsHosted};

/// A value that bytes spell, and that passes the tests of entry, is one that the host holds.
pub fn entered_is_hosted()
    ensures { (v : ScValData) (d : Datum) → scval_format.fits v → entry (datum v) ≡ Ok d → (datum v ≡ d) × IsHosted (datum v) }
{}
