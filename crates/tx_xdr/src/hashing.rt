//! The hashes of transactions and envelopes.

ghost use Rattle.std.specs.Prelude.{IfOk, ◌≡◌};
ghost use Rattle.sha2.specs.Sha256.{sha256};
ghost use Rattle.value_types.specs.Hash.{hash_of, hash_format};
ghost use Rattle.tx_xdr.specs.Transaction.{transaction_format};
ghost use Rattle.tx_xdr.specs.Envelope.{fee_bump_format, envelope_format};
ghost use Rattle.tx_xdr.specs.Hashes.{transaction_hash, fee_bump_hash as hash_of_fee_bump, envelope_hash as hash_of_envelope};

use crate::envelope::{Envelope, FeeBump};
use crate::numbers::{ENVELOPE_TYPE_TX, ENVELOPE_TYPE_TX_FEE_BUMP};
use crate::transaction::Transaction;
use sha2::{Digest, Sha256};
use std::alloc::Global;
use value_types::Hash;
use value_xdr::Xdr;
use xdr_core::{NoMemory, Out};

#[tactic(auto, unfolding(value_types::specs::Hash::hash_format))]
fn sha256_of(bytes: &[u8]) -> Hash
    ensures value { result ≡ hash_of (sha256 bytes.now) }
    ensures fits { hash_format.fits result }
{
    let digest = Sha256::digest(bytes);
    Hash(digest)
}

/// The hash that a transaction's signatures sign: the SHA-256 of the network's id, the envelope type and the transaction.
#[tactic(auto, unfolding(value_types::specs::Hash::hash_format, xdr_spec::specs::Format::number32))]
pub fn tx_hash(alloc: Global, network: &Hash, tx: &Transaction) -> Result<Hash, NoMemory>
    requires { transaction_format.fits tx.now }
    ensures value { IfOk result (λ hash. hash ≡ transaction_hash network.now tx.now) }
    ensures fits { IfOk result hash_format.fits }
{
    let mut out = Out::for_payload(alloc)?;
    out.put_fixed(&network.0)?;
    out.put_u32(ENVELOPE_TYPE_TX)?;
    tx.write(&mut out)?;
    let payload = out.into_vec();
    Ok(sha256_of(payload.as_slice()))
}

#[tactic(auto, unfolding(value_types::specs::Hash::hash_format, xdr_spec::specs::Format::number32))]
fn fee_bump_hash(alloc: Global, network: &Hash, fee_bump: &FeeBump) -> Result<Hash, NoMemory>
    requires { fee_bump_format.fits fee_bump.now }
    ensures value { IfOk result (λ hash. hash ≡ hash_of_fee_bump network.now fee_bump.now) }
    ensures fits { IfOk result hash_format.fits }
{
    let mut out = Out::for_payload(alloc)?;
    out.put_fixed(&network.0)?;
    out.put_u32(ENVELOPE_TYPE_TX_FEE_BUMP)?;
    fee_bump.write(&mut out)?;
    let payload = out.into_vec();
    Ok(sha256_of(payload.as_slice()))
}

/// The hash that an envelope's signatures sign: that of its transaction, or the SHA-256 of the network's id, the envelope type
/// and the fee bump.
#[tactic(auto, unfolding(crate::specs::Envelope::envelope_format, crate::specs::Envelope::signed_format, crate::specs::Envelope::signed_fee_bump_format))]
pub fn envelope_hash(alloc: Global, network: &Hash, envelope: &Envelope) -> Result<Hash, NoMemory>
    requires { envelope_format.fits envelope.now }
    ensures value { IfOk result (λ hash. hash ≡ hash_of_envelope network.now envelope.now) }
    ensures fits { IfOk result hash_format.fits }
{
    match envelope {
        Envelope::Transaction(signed) => tx_hash(alloc, network, &signed.tx),
        Envelope::FeeBump(signed) => fee_bump_hash(alloc, network, &signed.fee_bump),
    }
}
