//! The frame of a function over values: what its words mean, its charges, its answer, the linear memory.
//!
//! How a row is written
//!
//! A row of the host interface is a function of one clause, in a crate above this one:
//!
//! ```text
//! pub fn map_get(values: &Values<'_>, budget: &mut Budget, a: u64, b: u64) -> Result<Answer, ValueErr>
//!     ensures { Answers result (kinds.Map ∷ kinds.Value ∷ []) map_get (a ∷ b ∷ []) values.now budget.old budget.new }
//! {
//!     let (map, entries) = values.whole_map(a)?;
//!     let key = values.value(b)?;
//!     enter(budget, &[a, b])?;
//!     charge(budget, Kind::MemCmp, size_of(map) + size_of(key.get()))?;
//!     match value_at(key.get(), entries) {
//!         None => Err(ABSENT_KEY),
//!         Some(value) => Ok(Answer::value(value.clone()?)),
//!     }
//! }
//! ```
//!
//! 1. The clause names the kinds of the arguments, as the table of host_interface has them, and the rule, which host_spec
//!    defines. `Answers` is for a row that does not use the memory, `AnswersOver` for one that reads it (`memory.now` before the
//!    budgets), `AnswersInto` for one that writes to it (`memory.old memory.new`).
//! 2. The arguments are resolved from left to right, each by the call of `Values` for its kind, with `?`. A number of 64 bits
//!    that is a word itself (`Unsigned`, `Signed`) is taken as it is, or by `cast_signed`.
//! 3. `enter` charges the call. Its words are the tagged ones: all but the numbers of 64 bits.
//! 4. The tests and charges of the rule follow, in its order: `charge`, `size_of`, `range`, the errors of this crate.
//! 5. The answer is made by a constructor of `Answer`, whose `requires` says that the value is of the host's types and in good
//!    form. Its size and depth are tested when it is given. `Answer::Raw` is a word without a tag.
//!
//! What a row computes stands in a helper that ensures the value, that it is made (`IsMade`), and that its only error is memory.
//! A row then proves itself. If it does not, mend the helper's clauses. A lemma of `proofs/Making` that a row needs is named at
//! the row: `#[tactic(auto, using(host_frame::proofs::Making::few_entries, host_frame::proofs::Making::pairs_length))]`.
#![tactic(auto)]

mod answer;
mod answers;
mod charges;
mod errors;
mod giving;
mod held;
mod host_entry;
mod key_index;
mod laws;
mod memory;
mod sizes;
mod typed;
mod values;

pub use answer::{Answer, give};
pub use charges::{charge, enter};
pub use errors::{
    ABSENT_KEY, FULL_FRAME, INVALID_VALUE, OTHER_COUNT, OTHER_TYPE, OUTSIDE_MEMORY, OUTSIDE_OBJECT,
    TOO_LARGE,
};
pub use giving::give_each;
pub use held::{Held, HeldText};
pub use host_entry::{are_characters, entry, is_symbol};
pub use key_index::index_of;
pub use laws::entered_is_hosted;
pub use memory::{in_memory, range, write};
pub use sizes::{measured, size_of};
pub use values::Values;
