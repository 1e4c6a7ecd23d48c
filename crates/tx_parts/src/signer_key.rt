//! Keys that have to sign a transaction.

ghost use Rattle.std.specs.Prelude.{◌≡◌, IfOk};
ghost use Rattle.xdr_core.specs.Reads.{Reads};
ghost use Rattle.tx_parts.specs.SignerKey.{number, kind_of, kind, type_format, type_lawful, arms, signer_key_format};
ghost use Rattle.tx_parts.specs.SignerKey.{signer_key_lawful};

use std::alloc::{AllocError, Global};
use value_types::{Bytes, Hash};
use value_xdr::{Xdr, named};
use xdr_core::{NoMemory, Out, ReadXdr, Words, add_sizes};

/// The types of signer keys (`SignerKeyType`).
#[derive(Clone, Copy, Debug, PartialEq, Eq)]
pub enum SignerKeyType {
    Ed25519,
    PreAuthTx,
    HashX,
    Ed25519SignedPayload,
}

impl SignerKeyType {
    /// The variant with this number, or `None` if no variant has it (RFC 4506, section 4.3).
    pub fn from_number(number: u32) -> Option<SignerKeyType>
        ensures { result ≡ kind_of number }
    {
        match number {
            0 => Some(SignerKeyType::Ed25519),
            1 => Some(SignerKeyType::PreAuthTx),
            2 => Some(SignerKeyType::HashX),
            3 => Some(SignerKeyType::Ed25519SignedPayload),
            _ => None,
        }
    }

    /// The number of the variant (RFC 4506, section 4.3).
    pub fn number(self) -> u32
        ensures { result ≡ number self }
    {
        match self {
            SignerKeyType::Ed25519 => 0,
            SignerKeyType::PreAuthTx => 1,
            SignerKeyType::HashX => 2,
            SignerKeyType::Ed25519SignedPayload => 3,
        }
    }
}

#[tactic(auto, unfolding(crate::specs::SignerKey::type_format, xdr_core::specs::Sizes::capped))]
impl Xdr for SignerKeyType {
    ghost format = { type_format };

    fn read_parts<W: Words>(_alloc: Global, input: &mut W) -> Result<SignerKeyType, ReadXdr> {
        let place = input.place();
        named(SignerKeyType::from_number(input.u32()?), place)
    }

    fn write_parts(&self, out: &mut Out) -> Result<(), NoMemory> {
        out.put_u32(self.number())
    }

    fn size(&self) -> u64 {
        4
    }

    ghost lawful = { type_lawful };
}

/// A key that has to sign (`SignerKey`).
#[derive(Drop)]
pub enum SignerKey {
    /// 0: an ed25519 public key.
    Ed25519(Hash),
    /// 1: the hash of the transaction.
    PreAuthTx(Hash),
    /// 2: the SHA-256 of the bytes that are given as the signature.
    HashX(Hash),
    /// 3: an ed25519 public key, and the payload that it signs.
    Ed25519SignedPayload { ed25519: Hash, payload: Bytes<64> },
}

impl Clone for SignerKey {
    ghost is_clone = { λ v w. w ≡ v };

    fn clone(&self) -> Result<SignerKey, AllocError> {
        match self {
            SignerKey::Ed25519(key) => Ok(SignerKey::Ed25519(*key)),
            SignerKey::PreAuthTx(hash) => Ok(SignerKey::PreAuthTx(*hash)),
            SignerKey::HashX(hash) => Ok(SignerKey::HashX(*hash)),
            SignerKey::Ed25519SignedPayload { ed25519, payload } => {
                Ok(SignerKey::Ed25519SignedPayload {
                    ed25519: *ed25519,
                    payload: payload.clone()?,
                })
            }
        }
    }
}

impl SignerKey {
    /// The discriminant of the union (RFC 4506, section 4.15).
    pub fn kind(&self) -> SignerKeyType
        ensures { result ≡ kind self.now }
    {
        match self {
            SignerKey::Ed25519(_) => SignerKeyType::Ed25519,
            SignerKey::PreAuthTx(_) => SignerKeyType::PreAuthTx,
            SignerKey::HashX(_) => SignerKeyType::HashX,
            SignerKey::Ed25519SignedPayload { .. } => SignerKeyType::Ed25519SignedPayload,
        }
    }
}

#[tactic(auto, unfolding(crate::specs::SignerKey::signer_key_format))]
fn read_signed_payload<W: Words>(alloc: Global, input: &mut W) -> Result<SignerKey, ReadXdr>
    ensures value { Reads (arms SignerKeyType.Ed25519SignedPayload).read (W.seen input.old) (W.seen input.new) result }
    ensures fits { IfOk result signer_key_format.fits }
{
    let ed25519 = Hash::read(alloc, input)?;
    let payload = Bytes::<64>::read(alloc, input)?;
    Ok(SignerKey::Ed25519SignedPayload { ed25519, payload })
}

#[tactic(auto, unfolding(crate::specs::SignerKey::signer_key_format))]
fn read_arm<W: Words>(
    alloc: Global,
    input: &mut W,
    kind: SignerKeyType,
) -> Result<SignerKey, ReadXdr>
    ensures value { Reads (arms kind).read (W.seen input.old) (W.seen input.new) result }
    ensures fits { IfOk result signer_key_format.fits }
{
    match kind {
        SignerKeyType::Ed25519 => Ok(SignerKey::Ed25519(Hash::read(alloc, input)?)),
        SignerKeyType::PreAuthTx => Ok(SignerKey::PreAuthTx(Hash::read(alloc, input)?)),
        SignerKeyType::HashX => Ok(SignerKey::HashX(Hash::read(alloc, input)?)),
        SignerKeyType::Ed25519SignedPayload => read_signed_payload(alloc, input),
    }
}

#[tactic(auto, unfolding(crate::specs::SignerKey::signer_key_format, crate::specs::SignerKey::type_format, xdr_core::specs::Sizes::capped))]
impl Xdr for SignerKey {
    ghost format = { signer_key_format };

    fn read_parts<W: Words>(alloc: Global, input: &mut W) -> Result<SignerKey, ReadXdr> {
        let kind = SignerKeyType::read(alloc, input)?;
        read_arm(alloc, input, kind)
    }

    fn write_parts(&self, out: &mut Out) -> Result<(), NoMemory> {
        self.kind().write(out)?;
        match self {
            SignerKey::Ed25519(key) => key.write(out),
            SignerKey::PreAuthTx(hash) => hash.write(out),
            SignerKey::HashX(hash) => hash.write(out),
            SignerKey::Ed25519SignedPayload { ed25519, payload } => {
                ed25519.write(out)?;
                payload.write(out)
            }
        }
    }

    fn size(&self) -> u64 {
        let body = match self {
            SignerKey::Ed25519(key) => key.size(),
            SignerKey::PreAuthTx(hash) => hash.size(),
            SignerKey::HashX(hash) => hash.size(),
            SignerKey::Ed25519SignedPayload { ed25519, payload } => add_sizes(
                ed25519.size(),
                payload.size(),
            ),
        };
        add_sizes(self.kind().size(), body)
    }

    ghost lawful = { signer_key_lawful };
}
