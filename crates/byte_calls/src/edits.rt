//! Copies of bytes with an edit. Each takes memory once.

ghost use Rattle.std.specs.Prelude.{◌≡◌, ◌+◌, ◌-◌, ◌<◌, ◌≤◌, ◌^◌, ◌++◌, [], ◌∷◌, length, drop, slice_set, IfOk};
ghost use Rattle.std.specs.List.{insert, remove};
ghost use Rattle.value_types.specs.Datum.{bytes as bytes_datum};
ghost use Rattle.host_spec.specs.Hosted.{IsHosted};
ghost use Rattle.host_spec.specs.LinearMemory.{overwritten};

use std::alloc::{AllocError, Global};

/// A copy with another byte at an index.
#[tactic(auto, using(host_frame::proofs::Lemmas::few_bytes))]
pub fn with_put(alloc: Global, bytes: &[u8], index: usize, byte: u8) -> Result<Vec<u8>, AllocError>
    requires inside { index < length bytes.now }
    requires hosted { IsHosted (bytes_datum bytes.now) }
    ensures value { IfOk result (λ v. v.items ≡ slice_set bytes.now index byte) }
    ensures few { IfOk result (λ v. length v.items < 2 ^ 32) }
{
    let mut copy = Vec::from_slice(alloc, bytes)?;
    copy[index] = byte;
    Ok(copy)
}

/// A copy without the byte at an index.
#[tactic(auto, using(host_frame::proofs::Lemmas::few_bytes))]
pub fn without(alloc: Global, bytes: &[u8], index: usize) -> Result<Vec<u8>, AllocError>
    requires inside { index < length bytes.now }
    requires hosted { IsHosted (bytes_datum bytes.now) }
    ensures value { IfOk result (λ v. v.items ≡ remove bytes.now index) }
    ensures few { IfOk result (λ v. length v.items < 2 ^ 32) }
{
    let mut copy = Vec::from_slice(alloc, bytes)?;
    let _ = copy.remove(index);
    Ok(copy)
}

/// A copy with a byte at its end.
#[tactic(auto, using(host_frame::proofs::Lemmas::few_bytes))]
pub fn with_pushed(alloc: Global, bytes: &[u8], byte: u8) -> Result<Vec<u8>, AllocError>
    requires { IsHosted (bytes_datum bytes.now) }
    ensures value { IfOk result (λ v. v.items ≡ bytes.now ++ byte ∷ []) }
    ensures few { IfOk result (λ v. length v.items < 2 ^ 32) }
{
    let mut copy = Vec::with_capacity(alloc, bytes.len() + 1)?;
    copy.extend_from_slice(bytes)?;
    copy.push(byte)?;
    Ok(copy)
}

/// A copy with a byte before the one at an index, or at the end.
#[tactic(auto, using(host_frame::proofs::Lemmas::few_bytes))]
pub fn with_inserted(
    alloc: Global,
    bytes: &[u8],
    index: usize,
    byte: u8,
) -> Result<Vec<u8>, AllocError>
    requires inside { index ≤ length bytes.now }
    requires hosted { IsHosted (bytes_datum bytes.now) }
    ensures value { IfOk result (λ v. v.items ≡ insert bytes.now index byte) }
    ensures few { IfOk result (λ v. length v.items < 2 ^ 32) }
{
    let mut copy = Vec::with_capacity(alloc, bytes.len() + 1)?;
    copy.extend_from_slice(bytes)?;
    copy.insert(index, byte)?;
    Ok(copy)
}

/// Returns the bytes of both, one after the other.
#[tactic(auto, using(host_frame::proofs::Lemmas::few_bytes))]
pub fn joined(alloc: Global, front: &[u8], back: &[u8]) -> Result<Vec<u8>, AllocError>
    requires front { IsHosted (bytes_datum front.now) }
    requires back { IsHosted (bytes_datum back.now) }
    ensures value { IfOk result (λ v. v.items ≡ front.now ++ back.now) }
    ensures few { IfOk result (λ v. length v.items < 2 ^ 32) }
{
    let mut copy = Vec::with_capacity(alloc, front.len() + back.len())?;
    copy.extend_from_slice(front)?;
    copy.extend_from_slice(back)?;
    Ok(copy)
}

/// What lies behind an index: nothing behind the end.
fn rest(bytes: &[u8], index: usize) -> &[u8]
    ensures { result.now ≡ drop index bytes.now }
{
    if index < bytes.len() {
        &bytes[index..]
    } else {
        &[]
    }
}

/// A copy with these bytes from an index on. It is longer than the old bytes if they end earlier.
#[tactic(auto, using(host_frame::proofs::Lemmas::few_bytes))]
pub fn overwritten(
    alloc: Global,
    bytes: &[u8],
    index: usize,
    new: &[u8],
) -> Result<Vec<u8>, AllocError>
    requires inside { index ≤ length bytes.now }
    requires few { length new.now ≤ 4194304 }
    requires hosted { IsHosted (bytes_datum bytes.now) }
    ensures value { IfOk result (λ v. v.items ≡ overwritten bytes.now index new.now) }
    ensures few { IfOk result (λ v. length v.items < 2 ^ 32) }
{
    let (front, _) = bytes.split_at(index);
    let back = rest(bytes, index + new.len());
    let mut copy = Vec::with_capacity(alloc, front.len() + new.len() + back.len())?;
    copy.extend_from_slice(front)?;
    copy.extend_from_slice(new)?;
    copy.extend_from_slice(back)?;
    Ok(copy)
}
