//! Laws of lists: of lists of byte strings in which one stands twice, and of lists that are joined.
//!
//! The crate has definitions and lemmas only.
//!
//! `proofs/Twice` is for loops that look for a byte string that stands twice. A loop that inserts each byte string into a
//! `BTreeSet` and stops at the first one that the set holds keeps two facts: no byte string of the prefix stands twice, and
//! the set holds exactly the prefix. The page has these facts for the empty prefix, one byte string more, and the stop.
//!
//! `proofs/Items` has the items of joined lists, by their indices, and what holds of all items.
#![tactic(auto)]
