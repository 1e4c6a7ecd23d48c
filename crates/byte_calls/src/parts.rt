//! Items and ranges of bytes.

ghost use Rattle.std.specs.Prelude.{◌≡◌, ◌+◌, ◌-◌, ◌<◌, ◌≤◌, ◌^◌, ◌&&◌, Some, length, take, nat_lt, nat_le, slice_get};
ghost use Rattle.std.specs.Prelude.{slice_range, true, false, MatchOption, MatchResult, IfOk};
ghost use Rattle.value_types.specs.Datum.{bytes as bytes_datum};
ghost use Rattle.host_spec.specs.Hosted.{IsHosted};
ghost use Rattle.host_spec.specs.Errors.{OUTSIDE_OBJECT as outside, INVALID_VALUE as invalid};
ghost use Rattle.host_spec.specs.declared.error.ValueErr.TheVariants as errs;

use host_frame::{INVALID_VALUE, OUTSIDE_OBJECT};
use host_spec::ValueErr;

/// A number as a byte: `INVALID_VALUE` above 255.
pub fn byte_of(number: u32) -> Result<u8, ValueErr>
    ensures { MatchResult result (λ b. (nat_le number 255 ≡ true) × (b ≡ number))
        (λ e. (nat_le number 255 ≡ false) × (e ≡ errs.Failed invalid)) }
{
    if number <= 255 {
        Ok(number as u8)
    } else {
        Err(INVALID_VALUE)
    }
}

/// The index of a byte: `OUTSIDE_OBJECT` if there is none.
pub fn index_of(bytes: &[u8], index: u32) -> Result<usize, ValueErr>
    ensures { MatchResult result (λ i. (nat_lt index (length bytes.now) ≡ true) × (i ≡ index) × (i < length bytes.now))
        (λ e. (nat_lt index (length bytes.now) ≡ false) × (e ≡ errs.Failed outside)) }
{
    if (index as usize) < bytes.len() {
        Ok(index as usize)
    } else {
        Err(OUTSIDE_OBJECT)
    }
}

/// The index of a byte, or of the end: `OUTSIDE_OBJECT` behind the end.
pub fn gap_of(bytes: &[u8], index: u32) -> Result<usize, ValueErr>
    ensures { MatchResult result (λ i. (nat_le index (length bytes.now) ≡ true) × (i ≡ index) × (i ≤ length bytes.now))
        (λ e. (nat_le index (length bytes.now) ≡ false) × (e ≡ errs.Failed outside)) }
{
    if index as usize <= bytes.len() {
        Ok(index as usize)
    } else {
        Err(OUTSIDE_OBJECT)
    }
}

/// Returns the byte at an index, or None behind the end.
pub fn byte_at(bytes: &[u8], index: u32) -> Option<u8>
    ensures { result ≡ slice_get bytes.now index }
{
    bytes.get(index as usize).copied()
}

/// Returns the last byte, or None if there is none.
pub fn last_of(bytes: &[u8]) -> Option<u8>
    ensures { MatchOption result (nat_lt 0 (length bytes.now) ≡ false)
        (λ b. (nat_lt 0 (length bytes.now) ≡ true) × (slice_get bytes.now (length bytes.now - 1) ≡ Some b)) }
{
    bytes.last().copied()
}

/// The bytes from one index to another: `OUTSIDE_OBJECT` if these are no range of the bytes.
#[tactic(auto, using(host_frame::proofs::Lemmas::few_bytes))]
pub fn part_of(bytes: &[u8], from: u32, to: u32) -> Result<&[u8], ValueErr>
    requires { IsHosted (bytes_datum bytes.now) }
    ensures means { MatchResult result (λ s. (nat_le from to && nat_le to (length bytes.now) ≡ true)
        × (s.now ≡ slice_range bytes.now from to))
        (λ e. (nat_le from to && nat_le to (length bytes.now) ≡ false) × (e ≡ errs.Failed outside)) }
    ensures few { IfOk result (λ s. length s.now < 2 ^ 32) }
{
    let start = from as usize;
    let end = to as usize;
    if start <= end && end <= bytes.len() {
        Ok(&bytes[start..end])
    } else {
        Err(OUTSIDE_OBJECT)
    }
}

/// A range of an object: `OUTSIDE_OBJECT` if it ends behind the object.
pub fn range_of(bytes: &[u8], from: u32, len: u32) -> Result<&[u8], ValueErr>
    ensures { MatchResult result
        (λ s. (nat_le (from + len) (length bytes.now) ≡ true) × (s.now ≡ slice_range bytes.now from (from + len))
        × (length s.now ≡ len))
        (λ e. (nat_le (from + len) (length bytes.now) ≡ false) × (e ≡ errs.Failed outside)) }
{
    let start = from as usize;
    let end = start + len as usize;
    if end <= bytes.len() {
        Ok(&bytes[start..end])
    } else {
        Err(OUTSIDE_OBJECT)
    }
}

/// All but the last byte: `OUTSIDE_OBJECT` if there are none.
#[tactic(auto, using(host_frame::proofs::Lemmas::few_bytes))]
pub fn front_of(bytes: &[u8]) -> Result<&[u8], ValueErr>
    requires { IsHosted (bytes_datum bytes.now) }
    ensures means { MatchResult result (λ s. (nat_lt 0 (length bytes.now) ≡ true)
        × (s.now ≡ take (length bytes.now - 1) bytes.now))
        (λ e. (nat_lt 0 (length bytes.now) ≡ false) × (e ≡ errs.Failed outside)) }
    ensures few { IfOk result (λ s. length s.now < 2 ^ 32) }
{
    if bytes.is_empty() {
        return Err(OUTSIDE_OBJECT);
    }
    let (front, _) = bytes.split_at(bytes.len() - 1);
    Ok(front)
}
