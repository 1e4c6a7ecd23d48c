//! Calls of functions of one argument.

ghost use Rattle.std.specs.Prelude.{◌≤◌, [], ◌∷◌};
ghost use Rattle.host_values.specs.Rows.{AnswersApart, group_of};

use budget_meter::Budget;
use byte_calls::{
    bytes_back, bytes_front, bytes_len, bytes_pop, bytes_to_string, compute_hash_sha256,
    deserialize_from_bytes, serialize_to_bytes, string_len, string_to_bytes, symbol_len,
};
use collection_calls::{
    map_keys, map_len, map_values, vec_back, vec_front, vec_len, vec_pop_back, vec_pop_front,
};
use host_frame::{Answer, Values};
use host_interface::HostImport;
use host_spec::ValueErr;
use integer_calls::{
    duration_obj_from_u64, duration_obj_to_u64, get_address_from_muxed_address,
    get_id_from_muxed_address, obj_from_i64, obj_from_u64, obj_to_i64, obj_to_i128_hi64,
    obj_to_i128_lo64, obj_to_u64, obj_to_u128_hi64, obj_to_u128_lo64, timepoint_obj_from_u64,
    timepoint_obj_to_u64,
};

/// Calls a function of one argument. Those over numbers and addresses come first.
#[tactic(auto, using(crate::proofs::Groups::after_one_word))]
pub fn one_word(
    import: HostImport,
    values: &Values<'_>,
    budget: &mut Budget,
    a: u64,
) -> Result<Answer, ValueErr>
    requires from { 2 ≤ group_of «import» }
    requires to { group_of «import» ≤ 4 }
    ensures { AnswersApart result «import» (a ∷ []) values.now budget.old budget.new }
{
    match import {
        HostImport::ObjFromU64 => obj_from_u64(values, budget, a),
        HostImport::ObjToU64 => obj_to_u64(values, budget, a),
        HostImport::ObjFromI64 => obj_from_i64(values, budget, a),
        HostImport::ObjToI64 => obj_to_i64(values, budget, a),
        HostImport::ObjToU128Hi64 => obj_to_u128_hi64(values, budget, a),
        HostImport::ObjToU128Lo64 => obj_to_u128_lo64(values, budget, a),
        HostImport::ObjToI128Hi64 => obj_to_i128_hi64(values, budget, a),
        HostImport::ObjToI128Lo64 => obj_to_i128_lo64(values, budget, a),
        HostImport::TimepointObjFromU64 => timepoint_obj_from_u64(values, budget, a),
        HostImport::TimepointObjToU64 => timepoint_obj_to_u64(values, budget, a),
        HostImport::DurationObjFromU64 => duration_obj_from_u64(values, budget, a),
        HostImport::DurationObjToU64 => duration_obj_to_u64(values, budget, a),
        HostImport::GetAddressFromMuxedAddress => get_address_from_muxed_address(values, budget, a),
        HostImport::GetIdFromMuxedAddress => get_id_from_muxed_address(values, budget, a),
        _ => one_collection(import, values, budget, a),
    }
}

/// Calls a function of one argument, over maps, vecs or bytes.
#[tactic(auto, using(crate::proofs::Groups::after_one_collection))]
fn one_collection(
    import: HostImport,
    values: &Values<'_>,
    budget: &mut Budget,
    a: u64,
) -> Result<Answer, ValueErr>
    requires from { 3 ≤ group_of «import» }
    requires to { group_of «import» ≤ 4 }
    ensures { AnswersApart result «import» (a ∷ []) values.now budget.old budget.new }
{
    match import {
        HostImport::MapLen => map_len(values, budget, a),
        HostImport::MapKeys => map_keys(values, budget, a),
        HostImport::MapValues => map_values(values, budget, a),
        HostImport::VecLen => vec_len(values, budget, a),
        HostImport::VecPopFront => vec_pop_front(values, budget, a),
        HostImport::VecPopBack => vec_pop_back(values, budget, a),
        HostImport::VecFront => vec_front(values, budget, a),
        HostImport::VecBack => vec_back(values, budget, a),
        _ => one_text(import, values, budget, a),
    }
}

/// Calls a function of one argument, over bytes, strings or symbols.
#[tactic(auto, using(crate::proofs::Groups::after_one_text))]
fn one_text(
    import: HostImport,
    values: &Values<'_>,
    budget: &mut Budget,
    a: u64,
) -> Result<Answer, ValueErr>
    requires from { 4 ≤ group_of «import» }
    requires to { group_of «import» ≤ 4 }
    ensures { AnswersApart result «import» (a ∷ []) values.now budget.old budget.new }
{
    match import {
        HostImport::SerializeToBytes => serialize_to_bytes(values, budget, a),
        HostImport::DeserializeFromBytes => deserialize_from_bytes(values, budget, a),
        HostImport::BytesLen => bytes_len(values, budget, a),
        HostImport::BytesPop => bytes_pop(values, budget, a),
        HostImport::BytesFront => bytes_front(values, budget, a),
        HostImport::BytesBack => bytes_back(values, budget, a),
        HostImport::StringLen => string_len(values, budget, a),
        HostImport::SymbolLen => symbol_len(values, budget, a),
        HostImport::StringToBytes => string_to_bytes(values, budget, a),
        HostImport::BytesToString => bytes_to_string(values, budget, a),
        HostImport::ComputeHashSha256 => compute_hash_sha256(values, budget, a),
        _ => unreachable!(),
    }
}
