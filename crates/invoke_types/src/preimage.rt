//! Preimages of contract ids.

ghost use Rattle.std.specs.Prelude.{◌≡◌, ⊤, IfOk};
ghost use Rattle.xdr_core.specs.Reads.{Reads};
ghost use Rattle.invoke_types.specs.Preimage.{number, kind_of, kind, type_format, type_lawful, arms, preimage_format};
ghost use Rattle.invoke_types.specs.Preimage.{preimage_lawful};

use crate::asset::Asset;
use std::alloc::{AllocError, Global};
use value_types::{Hash, ScAddress};
use value_xdr::{Xdr, named};
use xdr_core::{NoMemory, Out, ReadXdr, Words, add_sizes};

/// The types of preimages of contract ids (the XDR files' `ContractIDPreimageType`).
#[derive(Clone, Copy, Debug, PartialEq, Eq)]
pub enum PreimageType {
    FromAddress,
    FromAsset,
}

impl PreimageType {
    /// The variant with this number, or `None` if no variant has it (RFC 4506, section 4.3).
    pub fn from_number(number: u32) -> Option<PreimageType>
        ensures { result ≡ kind_of number }
    {
        match number {
            0 => Some(PreimageType::FromAddress),
            1 => Some(PreimageType::FromAsset),
            _ => None,
        }
    }

    /// The number of the variant (RFC 4506, section 4.3).
    pub fn number(self) -> u32
        ensures { result ≡ number self }
    {
        match self {
            PreimageType::FromAddress => 0,
            PreimageType::FromAsset => 1,
        }
    }
}

#[tactic(auto, unfolding(crate::specs::Preimage::type_format, xdr_core::specs::Sizes::capped))]
impl Xdr for PreimageType {
    ghost format = { type_format };

    fn read_parts<W: Words>(_alloc: Global, input: &mut W) -> Result<PreimageType, ReadXdr> {
        let place = input.place();
        named(PreimageType::from_number(input.u32()?), place)
    }

    fn write_parts(&self, out: &mut Out) -> Result<(), NoMemory> {
        out.put_u32(self.number())
    }

    fn size(&self) -> u64 {
        4
    }

    ghost lawful = { type_lawful };
}

/// The preimage of a contract's id (the XDR files' `ContractIDPreimage`).
#[derive(Debug)]
pub enum Preimage {
    /// 0: the address of the deployer, and 32 bytes of its choice.
    FromAddress { address: ScAddress, salt: Hash },
    /// 1: the asset that the contract is for.
    FromAsset(Asset),
}

impl Clone for Preimage {
    ghost is_clone = { λ v w. w ≡ v };

    ghost is_infallible = { λ _. ⊤ };

    fn clone(&self) -> Result<Preimage, AllocError> {
        Ok(*self)
    }
}

impl Copy for Preimage {}

impl Preimage {
    /// The discriminant of the union (RFC 4506, section 4.15).
    pub fn kind(self) -> PreimageType
        ensures { result ≡ kind self }
    {
        match self {
            Preimage::FromAddress { .. } => PreimageType::FromAddress,
            Preimage::FromAsset(_) => PreimageType::FromAsset,
        }
    }
}

#[tactic(auto, unfolding(crate::specs::Preimage::preimage_format))]
fn read_arm<W: Words>(alloc: Global, input: &mut W, kind: PreimageType) -> Result<Preimage, ReadXdr>
    ensures value { Reads (arms kind).read (W.seen input.old) (W.seen input.new) result }
    ensures fits { IfOk result preimage_format.fits }
{
    match kind {
        PreimageType::FromAddress => {
            let address = ScAddress::read(alloc, input)?;
            let salt = Hash::read(alloc, input)?;
            Ok(Preimage::FromAddress { address, salt })
        }
        PreimageType::FromAsset => Ok(Preimage::FromAsset(Asset::read(alloc, input)?)),
    }
}

#[tactic(auto, unfolding(crate::specs::Preimage::preimage_format, crate::specs::Preimage::type_format, xdr_core::specs::Sizes::capped))]
impl Xdr for Preimage {
    ghost format = { preimage_format };

    fn read_parts<W: Words>(alloc: Global, input: &mut W) -> Result<Preimage, ReadXdr> {
        let kind = PreimageType::read(alloc, input)?;
        read_arm(alloc, input, kind)
    }

    fn write_parts(&self, out: &mut Out) -> Result<(), NoMemory> {
        self.kind().write(out)?;
        match self {
            Preimage::FromAddress { address, salt } => {
                address.write(out)?;
                salt.write(out)
            }
            Preimage::FromAsset(asset) => asset.write(out),
        }
    }

    fn size(&self) -> u64 {
        let body = match self {
            Preimage::FromAddress { address, salt } => add_sizes(address.size(), salt.size()),
            Preimage::FromAsset(asset) => asset.size(),
        };
        add_sizes(self.kind().size(), body)
    }

    ghost lawful = { preimage_lawful };
}
