//! Accounts in transactions.

ghost use Rattle.std.specs.Prelude.{◌≡◌, ⊤, IfOk};
ghost use Rattle.xdr_core.specs.Reads.{Reads};
ghost use Rattle.tx_parts.specs.MuxedAccount.{number, kind_of, kind, type_format, type_lawful, arms, account_format};
ghost use Rattle.tx_parts.specs.MuxedAccount.{account_lawful};

use std::alloc::{AllocError, Global};
use value_types::Hash;
use value_xdr::{Xdr, named};
use xdr_core::{NoMemory, Out, ReadXdr, Words, add_sizes};

/// The types of account keys (`CryptoKeyType`, without the types that no account has).
#[derive(Clone, Copy, Debug, PartialEq, Eq)]
pub enum CryptoKeyType {
    Ed25519,
    MuxedEd25519,
}

impl CryptoKeyType {
    /// The variant with this number, or `None` if no variant has it (RFC 4506, section 4.3).
    pub fn from_number(number: u32) -> Option<CryptoKeyType>
        ensures { result ≡ kind_of number }
    {
        match number {
            0 => Some(CryptoKeyType::Ed25519),
            0x100 => Some(CryptoKeyType::MuxedEd25519),
            _ => None,
        }
    }

    /// The number of the variant (RFC 4506, section 4.3).
    pub fn number(self) -> u32
        ensures { result ≡ number self }
    {
        match self {
            CryptoKeyType::Ed25519 => 0,
            CryptoKeyType::MuxedEd25519 => 0x100,
        }
    }
}

#[tactic(auto, unfolding(crate::specs::MuxedAccount::type_format, xdr_core::specs::Sizes::capped))]
impl Xdr for CryptoKeyType {
    ghost format = { type_format };

    fn read_parts<W: Words>(_alloc: Global, input: &mut W) -> Result<CryptoKeyType, ReadXdr> {
        let place = input.place();
        named(CryptoKeyType::from_number(input.u32()?), place)
    }

    fn write_parts(&self, out: &mut Out) -> Result<(), NoMemory> {
        out.put_u32(self.number())
    }

    fn size(&self) -> u64 {
        4
    }

    ghost lawful = { type_lawful };
}

/// An account in a transaction (`MuxedAccount`).
#[derive(Debug, PartialEq, Eq)]
pub enum MuxedAccount {
    /// 0: an ed25519 public key.
    Ed25519(Hash),
    /// 0x100: one of several accounts that share an ed25519 public key.
    MuxedEd25519 { id: u64, ed25519: Hash },
}

impl Clone for MuxedAccount {
    ghost is_clone = { λ v w. w ≡ v };

    ghost is_infallible = { λ _. ⊤ };

    fn clone(&self) -> Result<MuxedAccount, AllocError> {
        Ok(*self)
    }
}

impl Copy for MuxedAccount {}

impl MuxedAccount {
    /// The discriminant of the union (RFC 4506, section 4.15).
    pub fn kind(self) -> CryptoKeyType
        ensures { result ≡ kind self }
    {
        match self {
            MuxedAccount::Ed25519(_) => CryptoKeyType::Ed25519,
            MuxedAccount::MuxedEd25519 { .. } => CryptoKeyType::MuxedEd25519,
        }
    }
}

#[tactic(auto, unfolding(crate::specs::MuxedAccount::account_format))]
fn read_arm<W: Words>(
    alloc: Global,
    input: &mut W,
    kind: CryptoKeyType,
) -> Result<MuxedAccount, ReadXdr>
    ensures value { Reads (arms kind).read (W.seen input.old) (W.seen input.new) result }
    ensures fits { IfOk result account_format.fits }
{
    match kind {
        CryptoKeyType::Ed25519 => Ok(MuxedAccount::Ed25519(Hash::read(alloc, input)?)),
        CryptoKeyType::MuxedEd25519 => {
            let id = u64::read(alloc, input)?;
            let ed25519 = Hash::read(alloc, input)?;
            Ok(MuxedAccount::MuxedEd25519 { id, ed25519 })
        }
    }
}

#[tactic(auto, unfolding(crate::specs::MuxedAccount::account_format, crate::specs::MuxedAccount::type_format, xdr_core::specs::Sizes::capped))]
impl Xdr for MuxedAccount {
    ghost format = { account_format };

    fn read_parts<W: Words>(alloc: Global, input: &mut W) -> Result<MuxedAccount, ReadXdr> {
        let kind = CryptoKeyType::read(alloc, input)?;
        read_arm(alloc, input, kind)
    }

    fn write_parts(&self, out: &mut Out) -> Result<(), NoMemory> {
        self.kind().write(out)?;
        match self {
            MuxedAccount::Ed25519(key) => key.write(out),
            MuxedAccount::MuxedEd25519 { id, ed25519 } => {
                id.write(out)?;
                ed25519.write(out)
            }
        }
    }

    fn size(&self) -> u64 {
        let body = match self {
            MuxedAccount::Ed25519(key) => key.size(),
            MuxedAccount::MuxedEd25519 { id, ed25519 } => add_sizes(id.size(), ed25519.size()),
        };
        add_sizes(self.kind().size(), body)
    }

    ghost lawful = { account_lawful };
}
