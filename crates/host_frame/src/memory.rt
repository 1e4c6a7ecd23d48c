//! Ranges of the linear memory.

ghost use Rattle.std.specs.Prelude.{◌≡◌, ◌+◌, ◌≤◌, ◌<◌, ◌^◌, length, nat_le, slice_range, true, false, MatchResult};
ghost use Rattle.host_spec.specs.LinearMemory.{overwritten};
ghost use Rattle.host_spec.specs.Errors.{OUTSIDE_MEMORY as outside};
ghost use Rattle.host_spec.specs.declared.error.ValueErr.TheVariants as errs;

use crate::errors::OUTSIDE_MEMORY;
use host_spec::ValueErr;

/// Whether a range is in the memory: `OUTSIDE_MEMORY` if it is not.
pub fn in_memory(memory: &[u8], from: u32, len: u64) -> Result<(), ValueErr>
    requires { len < 2 ^ 40 }
    ensures { MatchResult result (λ _. nat_le (from + len) (length memory.now) ≡ true)
        (λ e. (nat_le (from + len) (length memory.now) ≡ false) × (e ≡ errs.Failed outside)) }
{
    if u64::from(from) + len <= memory.len() as u64 {
        Ok(())
    } else {
        Err(OUTSIDE_MEMORY)
    }
}

/// The bytes of a range.
pub fn range(memory: &[u8], from: u32, len: u64) -> Result<&[u8], ValueErr>
    requires { len < 2 ^ 40 }
    ensures { MatchResult result
        (λ s. (nat_le (from + len) (length memory.now) ≡ true) × (s.now ≡ slice_range memory.now from (from + len))
        × (length s.now ≡ len))
        (λ e. (nat_le (from + len) (length memory.now) ≡ false) × (e ≡ errs.Failed outside)) }
{
    let start = from as usize;
    let end = start + len as usize;
    if end <= memory.len() {
        Ok(&memory[start..end])
    } else {
        Err(OUTSIDE_MEMORY)
    }
}

/// Writes bytes from an index on.
pub fn write(memory: &mut [u8], to: u32, bytes: &[u8])
    requires { to + length bytes.now ≤ length memory.old }
    ensures { memory.new ≡ overwritten memory.old to bytes.now }
{
    let start = to as usize;
    memory[start..start + bytes.len()].copy_from_slice(bytes);
}
