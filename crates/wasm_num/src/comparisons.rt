//! Comparisons (core section 4.3.2).

ghost use Rattle.std.specs.Prelude.{◌≡◌, ◌<◌, ◌^◌};
ghost use Rattle.wasm_spec.specs.Integers.{comparison_of, width};

use crate::widths::signed;
use wasm_spec::{Comparison, Sign, ValueType};

/// Returns whether a comparison of two integers of the type holds.
#[inline]
#[tactic(auto, unfolding(wasm_spec::specs::Integers::comparison_of))]
pub fn compare(value_type: ValueType, operation: Comparison, first: u64, second: u64) -> bool
    requires first { first < 2 ^ width value_type }
    requires second { second < 2 ^ width value_type }
    ensures { result ≡ comparison_of (width value_type) operation first second }
{
    match operation {
        Comparison::Eq => first == second,
        Comparison::Ne => first != second,
        Comparison::Lt(Sign::Unsigned) => first < second,
        Comparison::Lt(Sign::Signed) => signed(value_type, first) < signed(value_type, second),
        Comparison::Gt(Sign::Unsigned) => first > second,
        Comparison::Gt(Sign::Signed) => signed(value_type, first) > signed(value_type, second),
        Comparison::Le(Sign::Unsigned) => first <= second,
        Comparison::Le(Sign::Signed) => signed(value_type, first) <= signed(value_type, second),
        Comparison::Ge(Sign::Unsigned) => first >= second,
        Comparison::Ge(Sign::Signed) => signed(value_type, first) >= signed(value_type, second),
    }
}
