//! Small forms as values.

ghost use Rattle.std.specs.Prelude.{◌≡◌, ◌≤◌, Some, None, is_some, take, MatchOption, MatchResult, IfOk};
ghost use Rattle.value_types.specs.Datum.{symbol};
ghost use Rattle.value_types.specs.Views.{datum};
ghost use Rattle.host_spec.specs.Tags.{tag_of};
ghost use Rattle.host_spec.specs.Words.{tag_bits, small_meaning};
ghost use Rattle.host_spec.specs.Hosted.{IsHosted};
ghost use Rattle.object_store.specs.Refs.{IsBadOnly};

use crate::words::TakeErr;
use host_spec::Tag;
use std::alloc::Global;
use tagged_val::{Val, scalar_of};
use value_types::{Blob, ScVal};

/// Writes the text of a word with the tag of small symbols, and returns its length.
fn symbol_text(val: Val, buffer: &mut [u8; 9]) -> Option<usize>
    requires { tag_of (tag_bits val.0) ≡ Some Tag.SymbolSmall }
    ensures means { MatchOption result (small_meaning val.0 ≡ None)
        (λ n. (n ≤ 9) × (small_meaning val.0 ≡ Some (symbol (take n buffer.new)))) }
    ensures exists { is_some result ≡ is_some (small_meaning val.0) }
{
    val.symbol_text(buffer)
}

/// Whether a word is a small form.
#[tactic(auto, using(crate::proofs::SmallForms::no_tag, crate::proofs::SmallForms::with_tag))]
pub fn is_small(val: Val) -> bool
    ensures { result ≡ is_some (small_meaning val.0) }
{
    let Some(tag) = val.tag() else {
        return false;
    };
    if tag == Tag::SymbolSmall {
        symbol_text(val, &mut [0; 9]).is_some()
    } else {
        scalar_of(tag, val).is_some()
    }
}

/// The value of a word with the tag of small symbols.
fn symbol_value(alloc: Global, val: Val) -> Result<ScVal, TakeErr>
    requires { tag_of (tag_bits val.0) ≡ Some Tag.SymbolSmall }
    ensures means { MatchResult result (λ v. small_meaning val.0 ≡ Some (datum v)) (IsBadOnly (small_meaning val.0)) }
    ensures hosted { IfOk result (λ v. IsHosted (datum v)) }
{
    let mut buffer = [0; 9];
    let Some(len) = symbol_text(val, &mut buffer) else {
        return Err(TakeErr::Bad);
    };
    match Vec::from_slice(alloc, &buffer[..len]) {
        Err(_) => Err(TakeErr::NoMemory),
        Ok(text) => Ok(ScVal::Symbol(Blob::from_vec(text))),
    }
}

/// The value of a small form.
#[tactic(auto, using(crate::proofs::SmallForms::no_tag, crate::proofs::SmallForms::with_tag, crate::proofs::SmallHosted::scalar_hosted))]
pub fn small_value(alloc: Global, val: Val) -> Result<ScVal, TakeErr>
    ensures means { MatchResult result (λ v. small_meaning val.0 ≡ Some (datum v)) (IsBadOnly (small_meaning val.0)) }
    ensures hosted { IfOk result (λ v. IsHosted (datum v)) }
{
    let Some(tag) = val.tag() else {
        return Err(TakeErr::Bad);
    };
    if tag == Tag::SymbolSmall {
        return symbol_value(alloc, val);
    }
    match scalar_of(tag, val) {
        None => Err(TakeErr::Bad),
        Some(value) => Ok(value),
    }
}
