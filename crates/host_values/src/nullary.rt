//! Calls of functions without arguments.

ghost use Rattle.std.specs.Prelude.{◌≤◌, []};
ghost use Rattle.host_values.specs.Rows.{AnswersApart, group_of};

use budget_meter::Budget;
use byte_calls::bytes_new;
use collection_calls::{map_new, vec_new};
use host_frame::{Answer, Values};
use host_interface::HostImport;
use host_spec::ValueErr;

/// Calls a function without arguments: each makes an empty value.
#[tactic(auto, using(crate::proofs::Groups::after_without_words))]
pub fn without_words(
    import: HostImport,
    values: &Values<'_>,
    budget: &mut Budget,
) -> Result<Answer, ValueErr>
    requires from { 1 ≤ group_of «import» }
    requires to { group_of «import» ≤ 1 }
    ensures { AnswersApart result «import» ([]) values.now budget.old budget.new }
{
    match import {
        HostImport::MapNew => map_new(values, budget),
        HostImport::VecNew => vec_new(values, budget),
        HostImport::BytesNew => bytes_new(values, budget),
        _ => unreachable!(),
    }
}
