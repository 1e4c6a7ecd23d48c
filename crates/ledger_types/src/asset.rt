//! The assets of trust lines.

ghost use Rattle.std.specs.Prelude.{◌≡◌, ⊤, IfOk};
ghost use Rattle.xdr_core.specs.Reads.{Reads};
ghost use Rattle.ledger_types.specs.AssetCode.{code4_format, code4_lawful, code12_format, code12_lawful};
ghost use Rattle.ledger_types.specs.TrustLineAsset.{number, kind_of, kind, type_format, type_lawful, arms, asset_format};
ghost use Rattle.ledger_types.specs.TrustLineAsset.{asset_lawful};

use std::alloc::{AllocError, Global};
use value_types::{AccountId, Hash};
use value_xdr::{Xdr, hold_bytes, named};
use xdr_core::{NoMemory, Out, ReadXdr, Words, add_sizes};

/// The code of an asset, at most four characters (`AssetCode4`).
#[derive(Debug, PartialEq, Eq)]
pub struct AssetCode4(pub [u8; 4]);

impl Clone for AssetCode4 {
    ghost is_clone = { λ v w. w ≡ v };

    ghost is_infallible = { λ _. ⊤ };

    fn clone(&self) -> Result<AssetCode4, AllocError> {
        Ok(*self)
    }
}

impl Copy for AssetCode4 {}

#[tactic(auto, unfolding(crate::specs::AssetCode::code4_format, xdr_core::specs::Sizes::capped))]
impl Xdr for AssetCode4 {
    ghost format = { code4_format };

    fn read_parts<W: Words>(_alloc: Global, input: &mut W) -> Result<AssetCode4, ReadXdr> {
        let mut bytes = [0u8; 4];
        input.fill(&mut bytes)?;
        hold_bytes(&bytes);
        Ok(AssetCode4(bytes))
    }

    fn write_parts(&self, out: &mut Out) -> Result<(), NoMemory> {
        out.put_fixed(&self.0)
    }

    fn size(&self) -> u64 {
        4
    }

    ghost lawful = { code4_lawful };
}

/// The code of an asset, at most twelve characters (`AssetCode12`).
#[derive(Debug, PartialEq, Eq)]
pub struct AssetCode12(pub [u8; 12]);

impl Clone for AssetCode12 {
    ghost is_clone = { λ v w. w ≡ v };

    ghost is_infallible = { λ _. ⊤ };

    fn clone(&self) -> Result<AssetCode12, AllocError> {
        Ok(*self)
    }
}

impl Copy for AssetCode12 {}

#[tactic(auto, unfolding(crate::specs::AssetCode::code12_format, xdr_core::specs::Sizes::capped))]
impl Xdr for AssetCode12 {
    ghost format = { code12_format };

    fn read_parts<W: Words>(_alloc: Global, input: &mut W) -> Result<AssetCode12, ReadXdr> {
        let mut bytes = [0u8; 12];
        input.fill(&mut bytes)?;
        hold_bytes(&bytes);
        Ok(AssetCode12(bytes))
    }

    fn write_parts(&self, out: &mut Out) -> Result<(), NoMemory> {
        out.put_fixed(&self.0)
    }

    fn size(&self) -> u64 {
        12
    }

    ghost lawful = { code12_lawful };
}

/// The types of assets (`AssetType`).
#[derive(Clone, Copy, Debug, PartialEq, Eq)]
pub enum AssetType {
    Native,
    CreditAlphanum4,
    CreditAlphanum12,
    PoolShare,
}

impl AssetType {
    /// The variant with this number, or `None` if no variant has it (RFC 4506, section 4.3).
    pub fn from_number(number: u32) -> Option<AssetType>
        ensures { result ≡ kind_of number }
    {
        match number {
            0 => Some(AssetType::Native),
            1 => Some(AssetType::CreditAlphanum4),
            2 => Some(AssetType::CreditAlphanum12),
            3 => Some(AssetType::PoolShare),
            _ => None,
        }
    }

    /// The number of the variant (RFC 4506, section 4.3).
    pub fn number(self) -> u32
        ensures { result ≡ number self }
    {
        match self {
            AssetType::Native => 0,
            AssetType::CreditAlphanum4 => 1,
            AssetType::CreditAlphanum12 => 2,
            AssetType::PoolShare => 3,
        }
    }
}

#[tactic(auto, unfolding(crate::specs::TrustLineAsset::type_format, xdr_core::specs::Sizes::capped))]
impl Xdr for AssetType {
    ghost format = { type_format };

    fn read_parts<W: Words>(_alloc: Global, input: &mut W) -> Result<AssetType, ReadXdr> {
        let place = input.place();
        named(AssetType::from_number(input.u32()?), place)
    }

    fn write_parts(&self, out: &mut Out) -> Result<(), NoMemory> {
        out.put_u32(self.number())
    }

    fn size(&self) -> u64 {
        4
    }

    ghost lawful = { type_lawful };
}

/// The asset of a trust line (`TrustLineAsset`).
#[derive(Debug, PartialEq, Eq)]
pub enum TrustLineAsset {
    /// 0.
    Native,
    /// 1.
    CreditAlphanum4 {
        code: AssetCode4,
        issuer: AccountId,
    },
    /// 2.
    CreditAlphanum12 {
        code: AssetCode12,
        issuer: AccountId,
    },
    /// 3: a share of a liquidity pool.
    PoolShare(Hash),
}

impl Clone for TrustLineAsset {
    ghost is_clone = { λ v w. w ≡ v };

    ghost is_infallible = { λ _. ⊤ };

    fn clone(&self) -> Result<TrustLineAsset, AllocError> {
        Ok(*self)
    }
}

impl Copy for TrustLineAsset {}

impl TrustLineAsset {
    /// The discriminant of the union (RFC 4506, section 4.15).
    pub fn kind(self) -> AssetType
        ensures { result ≡ kind self }
    {
        match self {
            TrustLineAsset::Native => AssetType::Native,
            TrustLineAsset::CreditAlphanum4 { .. } => AssetType::CreditAlphanum4,
            TrustLineAsset::CreditAlphanum12 { .. } => AssetType::CreditAlphanum12,
            TrustLineAsset::PoolShare(_) => AssetType::PoolShare,
        }
    }
}

#[tactic(auto, unfolding(crate::specs::TrustLineAsset::asset_format))]
fn read_arm<W: Words>(
    alloc: Global,
    input: &mut W,
    kind: AssetType,
) -> Result<TrustLineAsset, ReadXdr>
    ensures value { Reads (arms kind).read (W.seen input.old) (W.seen input.new) result }
    ensures fits { IfOk result asset_format.fits }
{
    match kind {
        AssetType::Native => Ok(TrustLineAsset::Native),
        AssetType::CreditAlphanum4 => {
            let code = AssetCode4::read(alloc, input)?;
            let issuer = AccountId::read(alloc, input)?;
            Ok(TrustLineAsset::CreditAlphanum4 { code, issuer })
        }
        AssetType::CreditAlphanum12 => {
            let code = AssetCode12::read(alloc, input)?;
            let issuer = AccountId::read(alloc, input)?;
            Ok(TrustLineAsset::CreditAlphanum12 { code, issuer })
        }
        AssetType::PoolShare => Ok(TrustLineAsset::PoolShare(Hash::read(alloc, input)?)),
    }
}

#[tactic(auto, unfolding(crate::specs::TrustLineAsset::asset_format, crate::specs::TrustLineAsset::type_format, xdr_core::specs::Sizes::capped))]
impl Xdr for TrustLineAsset {
    ghost format = { asset_format };

    fn read_parts<W: Words>(alloc: Global, input: &mut W) -> Result<TrustLineAsset, ReadXdr> {
        let kind = AssetType::read(alloc, input)?;
        read_arm(alloc, input, kind)
    }

    fn write_parts(&self, out: &mut Out) -> Result<(), NoMemory> {
        self.kind().write(out)?;
        match self {
            TrustLineAsset::Native => Ok(()),
            TrustLineAsset::CreditAlphanum4 { code, issuer } => {
                code.write(out)?;
                issuer.write(out)
            }
            TrustLineAsset::CreditAlphanum12 { code, issuer } => {
                code.write(out)?;
                issuer.write(out)
            }
            TrustLineAsset::PoolShare(pool) => pool.write(out),
        }
    }

    fn size(&self) -> u64 {
        let body = match self {
            TrustLineAsset::Native => 0,
            TrustLineAsset::CreditAlphanum4 { code, issuer } => add_sizes(
                code.size(),
                issuer.size(),
            ),
            TrustLineAsset::CreditAlphanum12 { code, issuer } => add_sizes(
                code.size(),
                issuer.size(),
            ),
            TrustLineAsset::PoolShare(pool) => pool.size(),
        };
        add_sizes(self.kind().size(), body)
    }

    ghost lawful = { asset_lawful };
}
