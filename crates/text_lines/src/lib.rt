//! Numbers and hashes as text.
#![tactic(auto)]

ghost use Rattle.std.specs.Prelude.{◌≡◌, ◌++◌, OnOk, decimal};
ghost use Rattle.std.specs.Fmt.{signed_decimal};
ghost use Rattle.hex.specs.Hex.{encode_lower};

use itoa::Buffer;
use std::alloc::{AllocError, Global};

/// Appends a number in decimal, and then `after`.
pub fn push_number(line: &mut Vec<u8>, number: u64, after: &[u8]) -> Result<(), AllocError>
    ensures { OnOk result (line.new.items ≡ line.old.items ++ decimal number ++ after.now) }
{
    let mut digits = Buffer::new();
    line.extend_from_slice(digits.format(number).as_bytes())?;
    line.extend_from_slice(after)
}

/// Appends bytes as lower-case hex digits, and then `after`.
pub fn push_hex(
    alloc: Global,
    line: &mut Vec<u8>,
    bytes: &[u8],
    after: &[u8],
) -> Result<(), AllocError>
    ensures { OnOk result (line.new.items ≡ line.old.items ++ encode_lower bytes.now ++ after.now) }
{
    let digits = hex::encode(alloc, bytes)?;
    line.extend_from_slice(digits.as_bytes())?;
    line.extend_from_slice(after)
}

/// Appends a signed number in decimal, and then `after`.
pub fn push_signed(line: &mut Vec<u8>, number: i64, after: &[u8]) -> Result<(), AllocError>
    ensures { OnOk result (line.new.items ≡ line.old.items ++ signed_decimal number ++ after.now) }
{
    let mut buffer = Buffer::new();
    line.extend_from_slice(buffer.format(number).as_bytes())?;
    line.extend_from_slice(after)
}
