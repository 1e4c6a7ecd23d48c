//! Calls of functions of two arguments, but `vec_new_from_linear_memory`.

ghost use Rattle.std.specs.Prelude.{◌≤◌, [], ◌∷◌};
ghost use Rattle.host_spec.specs.Acts.{state};
ghost use Rattle.host_values.specs.Rows.{AnswersRow, group_of};

use budget_meter::Budget;
use byte_calls::{
    bytes_append, bytes_del, bytes_get, bytes_new_from_linear_memory, bytes_push,
    string_new_from_linear_memory, symbol_new_from_linear_memory,
};
use collection_calls::{
    map_del, map_get, map_has, map_key_by_pos, map_val_by_pos, vec_append, vec_del,
    vec_first_index_of, vec_get, vec_last_index_of, vec_push_back, vec_push_front,
};
use host_frame::{Answer, Values};
use host_interface::HostImport;
use host_spec::ValueErr;
use integer_calls::{obj_cmp, obj_from_i128_pieces, obj_from_u128_pieces};

/// Calls a function of two arguments. Those over numbers and the order of values come first.
#[tactic(auto, using(crate::proofs::Groups::after_two_words))]
pub fn two_words(
    import: HostImport,
    values: &Values<'_>,
    memory: &[u8],
    budget: &mut Budget,
    a: u64,
    b: u64,
) -> Result<Answer, ValueErr>
    requires from { 5 ≤ group_of «import» }
    requires to { group_of «import» ≤ 8 }
    ensures { AnswersRow result «import» (a ∷ b ∷ []) (state values.now memory.now budget.old)
        (state values.now memory.now budget.new) }
{
    match import {
        HostImport::ObjFromU128Pieces => obj_from_u128_pieces(values, budget, a, b),
        HostImport::ObjFromI128Pieces => obj_from_i128_pieces(values, budget, a, b),
        HostImport::ObjCmp => obj_cmp(values, budget, a, b),
        _ => two_collection(import, values, memory, budget, a, b),
    }
}

/// Calls a function of two arguments, over maps, vecs or bytes, or one that reads the memory.
#[tactic(auto, using(crate::proofs::Groups::after_two_collection))]
fn two_collection(
    import: HostImport,
    values: &Values<'_>,
    memory: &[u8],
    budget: &mut Budget,
    a: u64,
    b: u64,
) -> Result<Answer, ValueErr>
    requires from { 6 ≤ group_of «import» }
    requires to { group_of «import» ≤ 8 }
    ensures { AnswersRow result «import» (a ∷ b ∷ []) (state values.now memory.now budget.old)
        (state values.now memory.now budget.new) }
{
    match import {
        HostImport::MapGet => map_get(values, budget, a, b),
        HostImport::MapDel => map_del(values, budget, a, b),
        HostImport::MapHas => map_has(values, budget, a, b),
        HostImport::MapKeyByPos => map_key_by_pos(values, budget, a, b),
        HostImport::MapValByPos => map_val_by_pos(values, budget, a, b),
        HostImport::VecGet => vec_get(values, budget, a, b),
        HostImport::VecDel => vec_del(values, budget, a, b),
        HostImport::VecPushFront => vec_push_front(values, budget, a, b),
        HostImport::VecPushBack => vec_push_back(values, budget, a, b),
        HostImport::VecAppend => vec_append(values, budget, a, b),
        HostImport::VecFirstIndexOf => vec_first_index_of(values, budget, a, b),
        HostImport::VecLastIndexOf => vec_last_index_of(values, budget, a, b),
        _ => two_bytes(import, values, memory, budget, a, b),
    }
}

/// Calls a function of two arguments, over bytes, or one that reads the memory.
#[tactic(auto, using(crate::proofs::Groups::after_two_bytes))]
fn two_bytes(
    import: HostImport,
    values: &Values<'_>,
    memory: &[u8],
    budget: &mut Budget,
    a: u64,
    b: u64,
) -> Result<Answer, ValueErr>
    requires from { 7 ≤ group_of «import» }
    requires to { group_of «import» ≤ 8 }
    ensures { AnswersRow result «import» (a ∷ b ∷ []) (state values.now memory.now budget.old)
        (state values.now memory.now budget.new) }
{
    match import {
        HostImport::BytesGet => bytes_get(values, budget, a, b),
        HostImport::BytesDel => bytes_del(values, budget, a, b),
        HostImport::BytesPush => bytes_push(values, budget, a, b),
        HostImport::BytesAppend => bytes_append(values, budget, a, b),
        _ => two_from_memory(import, values, memory, budget, a, b),
    }
}

/// Calls a function of two arguments that makes bytes or a text of a range of the memory.
#[tactic(auto, using(crate::proofs::Groups::after_two_from_memory))]
fn two_from_memory(
    import: HostImport,
    values: &Values<'_>,
    memory: &[u8],
    budget: &mut Budget,
    a: u64,
    b: u64,
) -> Result<Answer, ValueErr>
    requires from { 8 ≤ group_of «import» }
    requires to { group_of «import» ≤ 8 }
    ensures { AnswersRow result «import» (a ∷ b ∷ []) (state values.now memory.now budget.old)
        (state values.now memory.now budget.new) }
{
    match import {
        HostImport::BytesNewFromLinearMemory => bytes_new_from_linear_memory(
            values, memory, budget, a, b,
        ),
        HostImport::StringNewFromLinearMemory => string_new_from_linear_memory(
            values, memory, budget, a, b,
        ),
        HostImport::SymbolNewFromLinearMemory => symbol_new_from_linear_memory(
            values, memory, budget, a, b,
        ),
        _ => unreachable!(),
    }
}
