//! The rows of the host interface for maps and vecs.
#![tactic(auto)]

mod clones;
mod from_memory;
mod map_parts;
mod maps;
mod seeking;
mod to_memory;
mod vec_parts;
mod vecs;

pub use from_memory::vec_new_from_linear_memory;
pub use maps::{
    map_del, map_get, map_has, map_key_by_pos, map_keys, map_len, map_new, map_put, map_val_by_pos,
    map_values,
};
pub use to_memory::vec_unpack_to_linear_memory;
pub use vecs::{
    vec_append, vec_back, vec_del, vec_first_index_of, vec_front, vec_get, vec_insert,
    vec_last_index_of, vec_len, vec_new, vec_pop_back, vec_pop_front, vec_push_back,
    vec_push_front, vec_put, vec_slice,
};
