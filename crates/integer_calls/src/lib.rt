//! The rows of the host interface for integers, for the order of values, and for the parts of muxed addresses.
#![tactic(auto)]

mod addresses;
mod integers;
mod order;

pub use addresses::{get_address_from_muxed_address, get_id_from_muxed_address};
pub use integers::{
    duration_obj_from_u64, duration_obj_to_u64, obj_from_i64, obj_from_i128_pieces, obj_from_u64,
    obj_from_u128_pieces, obj_to_i64, obj_to_i128_hi64, obj_to_i128_lo64, obj_to_u64,
    obj_to_u128_hi64, obj_to_u128_lo64, timepoint_obj_from_u64, timepoint_obj_to_u64,
};
pub use order::obj_cmp;
