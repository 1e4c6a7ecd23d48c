//! Module c: hashes.

ghost use Rattle.std.specs.Prelude.{◌≡◌, ◌<◌, ◌^◌, [], ◌∷◌, length, IfOk};
ghost use Rattle.sha2.specs.Sha256.{sha256};
ghost use Rattle.host_interface.specs.declared.kinds.ArgKind.TheVariants as kinds;
ghost use Rattle.host_spec.specs.HashRows.{compute_hash_sha256};
ghost use Rattle.host_frame.specs.Answered.{Answers};

use budget_meter::{Budget, Kind};
use host_frame::{Answer, Values, charge, enter};
use host_spec::ValueErr;
use sha2::{Digest, Sha256};
use std::alloc::{AllocError, Global};

/// The SHA-256 of some bytes.
#[tactic(auto, using(crate::proofs::Hashing::few_hashed))]
fn hash_of(alloc: Global, bytes: &[u8]) -> Result<Vec<u8>, AllocError>
    ensures value { IfOk result (λ v. v.items ≡ sha256 bytes.now) }
    ensures few { IfOk result (λ v. length v.items < 2 ^ 32) }
{
    let hash = Sha256::digest(bytes);
    Vec::from_slice(alloc, &hash)
}

/// `compute_hash_sha256`: the SHA-256 of bytes.
pub fn compute_hash_sha256(
    values: &Values<'_>,
    budget: &mut Budget,
    a: u64,
) -> Result<Answer, ValueErr>
    ensures { Answers result (kinds.Bytes ∷ []) compute_hash_sha256 (a ∷ []) values.now budget.old budget.new }
{
    let bytes = values.bytes(a)?;
    enter(budget, &[a])?;
    charge(budget, Kind::ComputeSha256Hash, bytes.len() as u64)?;
    Ok(Answer::bytes(hash_of(values.allocator(), bytes)?))
}
