//! Integers in LEB128 (core section 5.2.2).

ghost use Rattle.std.specs.Prelude.{◌≡◌, ◌≤◌, ◌<◌, ◌^◌, ℕ, List, option_map, IfSome};
ghost use Rattle.wasm_read.specs.Reading.{leb_at, unsigned_last, signed_last};

/// Reads an unsigned number of `bits` bits. Returns it and the bytes after it.
pub fn unsigned(bytes: &[u8], bits: u32) -> Option<(u64, &[u8])>
    requires { bits ≤ 64 }
    ensures value { option_map (λ x. (x.0, x.1.now)) result ≡ leb_at unsigned_last bits bytes.now }
    ensures fits { IfSome result (λ x. x.0 < 2 ^ bits) }
{
    let (first, rest) = bytes.split_first()?;
    let byte = u64::from(*first);
    if byte < 128 {
        Some((unsigned_last(byte, bits)?, rest))
    } else if bits > 7 {
        let (high, rest) = unsigned(rest, bits - 7)?;
        Some((128 * high + (byte - 128), rest))
    } else {
        None
    }
}

/// Reads a signed number of `bits` bits. Returns its two's complement as an unsigned number, and the bytes after it.
pub fn signed(bytes: &[u8], bits: u32) -> Option<(u64, &[u8])>
    requires least { 0 < bits }
    requires most { bits ≤ 64 }
    ensures value { option_map (λ x. (x.0, x.1.now)) result ≡ leb_at signed_last bits bytes.now }
    ensures fits { IfSome result (λ x. x.0 < 2 ^ bits) }
{
    let (first, rest) = bytes.split_first()?;
    let byte = u64::from(*first);
    if byte < 128 {
        Some((signed_last(byte, bits)?, rest))
    } else if bits > 7 {
        let (high, rest) = signed(rest, bits - 7)?;
        Some((128 * high + (byte - 128), rest))
    } else {
        None
    }
}

/// Returns the value of the last byte of an unsigned number. Rejects unused bits other than 0.
fn unsigned_last(byte: u64, bits: u32) -> Option<u64>
    requires byte { byte < 128 }
    requires bits { bits ≤ 64 }
    ensures value { result ≡ unsigned_last bits byte }
    ensures fits { IfSome result (λ n. n < 2 ^ bits) }
{
    if bits >= 7 {
        return Some(byte);
    }
    if byte < 1 << bits { Some(byte) } else { None }
}

/// Returns the value of the last byte of a signed number. Rejects unused bits that differ from its sign, bit 6.
fn signed_last(byte: u64, bits: u32) -> Option<u64>
    requires byte { byte < 128 }
    requires least { 0 < bits }
    requires most { bits ≤ 64 }
    ensures value { result ≡ signed_last bits byte }
    ensures fits { IfSome result (λ n. n < 2 ^ bits) }
{
    let half = 1 << (bits - 1);
    if byte < 64 {
        if byte < half { Some(byte) } else { None }
    } else if 127 - byte < half {
        Some(half + (half - 1 - (127 - byte)))
    } else {
        None
    }
}
