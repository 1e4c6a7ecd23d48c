//! Calls of functions of four arguments, which copy between an object and the linear memory.

ghost use Rattle.std.specs.Prelude.{◌≤◌, [], ◌∷◌};
ghost use Rattle.host_spec.specs.Acts.{state};
ghost use Rattle.host_frame.specs.Made.{IsMemory};
ghost use Rattle.host_values.specs.Rows.{AnswersRow, group_of};

use budget_meter::Budget;
use byte_calls::{
    bytes_copy_from_linear_memory, bytes_copy_to_linear_memory, string_copy_to_linear_memory,
    symbol_copy_to_linear_memory,
};
use host_frame::{Answer, Values};
use host_interface::HostImport;
use host_spec::ValueErr;

/// Calls a function of four arguments: each copies between an object and the memory.
#[tactic(auto, using(crate::proofs::Groups::after_four_words))]
pub fn four_words(
    import: HostImport,
    values: &Values<'_>,
    memory: &mut [u8],
    budget: &mut Budget,
    a: u64,
    b: u64,
    c: u64,
    d: u64,
) -> Result<Answer, ValueErr>
    requires from { 10 ≤ group_of «import» }
    requires to { group_of «import» ≤ 10 }
    requires memory { IsMemory memory.old }
    ensures { AnswersRow result «import» (a ∷ b ∷ c ∷ d ∷ []) (state values.now memory.old budget.old)
        (state values.now memory.new budget.new) }
{
    match import {
        HostImport::BytesCopyToLinearMemory => bytes_copy_to_linear_memory(
            values, memory, budget, a, b, c, d,
        ),
        HostImport::StringCopyToLinearMemory => string_copy_to_linear_memory(
            values, memory, budget, a, b, c, d,
        ),
        HostImport::SymbolCopyToLinearMemory => symbol_copy_to_linear_memory(
            values, memory, budget, a, b, c, d,
        ),
        HostImport::BytesCopyFromLinearMemory => bytes_copy_from_linear_memory(
            values, memory, budget, a, b, c, d,
        ),
        _ => unreachable!(),
    }
}
