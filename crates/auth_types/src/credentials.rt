//! Credentials of authorisation entries.

ghost use Rattle.std.specs.Prelude.{◌≡◌, IfOk};
ghost use Rattle.xdr_core.specs.Reads.{Reads};
ghost use Rattle.auth_types.specs.Credentials.{number, kind_of, kind, type_format, type_lawful, arms, address_credentials_format};
ghost use Rattle.auth_types.specs.Credentials.{address_credentials_lawful, credentials_format, credentials_lawful};

use std::alloc::{AllocError, Global};
use value_types::{ScAddress, ScVal};
use value_xdr::{Xdr, named};
use xdr_core::{NoMemory, Out, ReadXdr, Words, add_sizes};

/// The types of credentials (the XDR files' `SorobanCredentialsType`).
#[derive(Clone, Copy, Debug, PartialEq, Eq)]
pub enum CredentialsType {
    SourceAccount,
    Address,
}

impl CredentialsType {
    /// The variant with this number, or `None` if no variant has it (RFC 4506, section 4.3).
    pub fn from_number(number: u32) -> Option<CredentialsType>
        ensures { result ≡ kind_of number }
    {
        match number {
            0 => Some(CredentialsType::SourceAccount),
            1 => Some(CredentialsType::Address),
            _ => None,
        }
    }

    /// The number of the variant (RFC 4506, section 4.3).
    pub fn number(self) -> u32
        ensures { result ≡ number self }
    {
        match self {
            CredentialsType::SourceAccount => 0,
            CredentialsType::Address => 1,
        }
    }
}

#[tactic(auto, unfolding(crate::specs::Credentials::type_format, xdr_core::specs::Sizes::capped))]
impl Xdr for CredentialsType {
    ghost format = { type_format };

    fn read_parts<W: Words>(_alloc: Global, input: &mut W) -> Result<CredentialsType, ReadXdr> {
        let place = input.place();
        named(CredentialsType::from_number(input.u32()?), place)
    }

    fn write_parts(&self, out: &mut Out) -> Result<(), NoMemory> {
        out.put_u32(self.number())
    }

    fn size(&self) -> u64 {
        4
    }

    ghost lawful = { type_lawful };
}

/// Credentials of an address that signs (the XDR files' `SorobanAddressCredentials`).
#[derive(Drop)]
pub struct AddressCredentials {
    pub address: ScAddress,
    /// The nonce, which the address uses once.
    pub nonce: i64,
    /// The last ledger in which the signature is valid.
    pub signature_expiration_ledger: u32,
    /// The signature, in the form that the address expects.
    pub signature: ScVal,
}

impl Clone for AddressCredentials {
    ghost is_clone = { λ v w. w ≡ v };

    fn clone(&self) -> Result<AddressCredentials, AllocError> {
        let signature = self.signature.clone()?;
        Ok(AddressCredentials {
            address: self.address,
            nonce: self.nonce,
            signature_expiration_ledger: self.signature_expiration_ledger,
            signature,
        })
    }
}

#[tactic(auto, unfolding(crate::specs::Credentials::address_credentials_format, xdr_core::specs::Sizes::capped))]
impl Xdr for AddressCredentials {
    ghost format = { address_credentials_format };

    fn read_parts<W: Words>(alloc: Global, input: &mut W) -> Result<AddressCredentials, ReadXdr> {
        let address = ScAddress::read(alloc, input)?;
        let nonce = i64::read(alloc, input)?;
        let signature_expiration_ledger = u32::read(alloc, input)?;
        let signature = ScVal::read(alloc, input)?;
        Ok(AddressCredentials {
            address,
            nonce,
            signature_expiration_ledger,
            signature,
        })
    }

    fn write_parts(&self, out: &mut Out) -> Result<(), NoMemory> {
        self.address.write(out)?;
        self.nonce.write(out)?;
        self.signature_expiration_ledger.write(out)?;
        self.signature.write(out)
    }

    fn size(&self) -> u64 {
        let size = add_sizes(self.address.size(), self.nonce.size());
        let size = add_sizes(size, self.signature_expiration_ledger.size());
        add_sizes(size, self.signature.size())
    }

    ghost lawful = { address_credentials_lawful };
}

/// Credentials: who authorises (the XDR files' `SorobanCredentials`).
#[derive(Drop)]
pub enum Credentials {
    /// 0: the transaction's source, by the transaction's own signatures.
    SourceAccount,
    /// 1: an address, by a signature of its own.
    Address(AddressCredentials),
}

impl Clone for Credentials {
    ghost is_clone = { λ v w. w ≡ v };

    fn clone(&self) -> Result<Credentials, AllocError> {
        match self {
            Credentials::SourceAccount => Ok(Credentials::SourceAccount),
            Credentials::Address(address) => Ok(Credentials::Address(address.clone()?)),
        }
    }
}

impl Credentials {
    /// The discriminant of the union (RFC 4506, section 4.15).
    pub fn kind(&self) -> CredentialsType
        ensures { result ≡ kind self.now }
    {
        match self {
            Credentials::SourceAccount => CredentialsType::SourceAccount,
            Credentials::Address(_) => CredentialsType::Address,
        }
    }
}

#[tactic(auto, unfolding(crate::specs::Credentials::credentials_format))]
fn read_arm<W: Words>(
    alloc: Global,
    input: &mut W,
    kind: CredentialsType,
) -> Result<Credentials, ReadXdr>
    ensures value { Reads (arms kind).read (W.seen input.old) (W.seen input.new) result }
    ensures fits { IfOk result credentials_format.fits }
{
    match kind {
        CredentialsType::SourceAccount => Ok(Credentials::SourceAccount),
        CredentialsType::Address => {
            Ok(Credentials::Address(AddressCredentials::read(alloc, input)?))
        }
    }
}

#[tactic(auto, unfolding(crate::specs::Credentials::credentials_format, crate::specs::Credentials::type_format, xdr_core::specs::Sizes::capped))]
impl Xdr for Credentials {
    ghost format = { credentials_format };

    fn read_parts<W: Words>(alloc: Global, input: &mut W) -> Result<Credentials, ReadXdr> {
        let kind = CredentialsType::read(alloc, input)?;
        read_arm(alloc, input, kind)
    }

    fn write_parts(&self, out: &mut Out) -> Result<(), NoMemory> {
        self.kind().write(out)?;
        match self {
            Credentials::SourceAccount => Ok(()),
            Credentials::Address(address) => address.write(out),
        }
    }

    fn size(&self) -> u64 {
        let body = match self {
            Credentials::SourceAccount => 0,
            Credentials::Address(address) => address.size(),
        };
        add_sizes(self.kind().size(), body)
    }

    ghost lawful = { credentials_lawful };
}
