//! Sizes of values.

ghost use Rattle.std.specs.Prelude.{◌≡◌, ◌≤◌};
ghost use Rattle.value_types.specs.Views.{datum};
ghost use Rattle.value_xdr.specs.Bytes.{IsBounded};
ghost use Rattle.xdr_core.specs.Sizes.{capped};
ghost use Rattle.host_spec.specs.Hosted.{IsHosted, size_of};

use value_types::ScVal;
use value_xdr::val_size;

/// The bytes of a value's XDR, or `u64::MAX` if there are more.
pub fn measured(value: &ScVal) -> u64
    requires { IsBounded (datum value.now) }
    ensures { result ≡ capped (size_of (datum value.now)) }
{
    val_size(value)
}

/// The bytes of the XDR of a value that the host holds.
pub fn size_of(value: &ScVal) -> u64
    requires { IsHosted (datum value.now) }
    ensures size { result ≡ size_of (datum value.now) }
    ensures small { result ≤ 16777216 }
{
    measured(value)
}
