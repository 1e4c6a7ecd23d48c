//! Calls of functions of three arguments, but `vec_unpack_to_linear_memory`.

ghost use Rattle.std.specs.Prelude.{◌≤◌, [], ◌∷◌};
ghost use Rattle.host_values.specs.Rows.{AnswersApart, group_of};

use budget_meter::Budget;
use byte_calls::{bytes_insert, bytes_put, bytes_slice};
use collection_calls::{map_put, vec_insert, vec_put, vec_slice};
use host_frame::{Answer, Values};
use host_interface::HostImport;
use host_spec::ValueErr;

/// Calls a function of three arguments that does not use the memory.
#[tactic(auto, using(crate::proofs::Groups::after_three_words))]
pub fn three_words(
    import: HostImport,
    values: &Values<'_>,
    budget: &mut Budget,
    a: u64,
    b: u64,
    c: u64,
) -> Result<Answer, ValueErr>
    requires from { 9 ≤ group_of «import» }
    requires to { group_of «import» ≤ 9 }
    ensures { AnswersApart result «import» (a ∷ b ∷ c ∷ []) values.now budget.old budget.new }
{
    match import {
        HostImport::MapPut => map_put(values, budget, a, b, c),
        HostImport::VecPut => vec_put(values, budget, a, b, c),
        HostImport::VecInsert => vec_insert(values, budget, a, b, c),
        HostImport::VecSlice => vec_slice(values, budget, a, b, c),
        HostImport::BytesPut => bytes_put(values, budget, a, b, c),
        HostImport::BytesInsert => bytes_insert(values, budget, a, b, c),
        HostImport::BytesSlice => bytes_slice(values, budget, a, b, c),
        _ => unreachable!(),
    }
}
