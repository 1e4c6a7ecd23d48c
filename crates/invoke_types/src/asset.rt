//! Assets.

ghost use Rattle.std.specs.Prelude.{◌≡◌, ⊤, true, IfOk};
ghost use Rattle.xdr_core.specs.Reads.{Reads};
ghost use Rattle.invoke_types.specs.Asset.{is_asset, kind, arms, asset_format, asset_lawful};

use ledger_types::{AssetCode4, AssetCode12, AssetType};
use std::alloc::{AllocError, Global};
use value_types::AccountId;
use value_xdr::Xdr;
use xdr_core::{NoMemory, Out, ReadXdr, Why, Words, XdrErr, add_sizes};

/// An asset of the network (the XDR files' `Asset`).
#[derive(Debug)]
pub enum Asset {
    /// 0.
    Native,
    /// 1.
    CreditAlphanum4 {
        code: AssetCode4,
        issuer: AccountId,
    },
    /// 2.
    CreditAlphanum12 {
        code: AssetCode12,
        issuer: AccountId,
    },
}

impl Clone for Asset {
    ghost is_clone = { λ v w. w ≡ v };

    ghost is_infallible = { λ _. ⊤ };

    fn clone(&self) -> Result<Asset, AllocError> {
        Ok(*self)
    }
}

impl Copy for Asset {}

impl Asset {
    /// The discriminant of the union (RFC 4506, section 4.15).
    pub fn kind(self) -> AssetType
        ensures { result ≡ kind self }
    {
        match self {
            Asset::Native => AssetType::Native,
            Asset::CreditAlphanum4 { .. } => AssetType::CreditAlphanum4,
            Asset::CreditAlphanum12 { .. } => AssetType::CreditAlphanum12,
        }
    }
}

#[tactic(auto, unfolding(crate::specs::Asset::asset_format))]
fn read_arm<W: Words>(alloc: Global, input: &mut W, kind: AssetType) -> Result<Asset, ReadXdr>
    requires { is_asset kind ≡ true }
    ensures value { Reads (arms kind).read (W.seen input.old) (W.seen input.new) result }
    ensures fits { IfOk result asset_format.fits }
{
    match kind {
        AssetType::Native => Ok(Asset::Native),
        AssetType::CreditAlphanum4 => {
            let code = AssetCode4::read(alloc, input)?;
            let issuer = AccountId::read(alloc, input)?;
            Ok(Asset::CreditAlphanum4 { code, issuer })
        }
        AssetType::CreditAlphanum12 => {
            let code = AssetCode12::read(alloc, input)?;
            let issuer = AccountId::read(alloc, input)?;
            Ok(Asset::CreditAlphanum12 { code, issuer })
        }
        AssetType::PoolShare => unreachable!(),
    }
}

#[tactic(auto, unfolding(crate::specs::Asset::asset_format, ledger_types::specs::TrustLineAsset::type_format, xdr_core::specs::Sizes::capped))]
impl Xdr for Asset {
    ghost format = { asset_format };

    fn read_parts<W: Words>(alloc: Global, input: &mut W) -> Result<Asset, ReadXdr> {
        let place = input.place();
        let kind = AssetType::read(alloc, input)?;
        if kind == AssetType::PoolShare {
            return Err(ReadXdr::Bad(XdrErr {
                at: place,
                why: Why::Tag,
            }));
        }
        read_arm(alloc, input, kind)
    }

    fn write_parts(&self, out: &mut Out) -> Result<(), NoMemory> {
        self.kind().write(out)?;
        match self {
            Asset::Native => Ok(()),
            Asset::CreditAlphanum4 { code, issuer } => {
                code.write(out)?;
                issuer.write(out)
            }
            Asset::CreditAlphanum12 { code, issuer } => {
                code.write(out)?;
                issuer.write(out)
            }
        }
    }

    fn size(&self) -> u64 {
        let body = match self {
            Asset::Native => 0,
            Asset::CreditAlphanum4 { code, issuer } => add_sizes(code.size(), issuer.size()),
            Asset::CreditAlphanum12 { code, issuer } => add_sizes(code.size(), issuer.size()),
        };
        add_sizes(self.kind().size(), body)
    }

    ghost lawful = { asset_lawful };
}
