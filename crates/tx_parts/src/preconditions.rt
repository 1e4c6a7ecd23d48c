//! Preconditions of transactions.

ghost use Rattle.std.specs.Prelude.{◌≡◌, IfOk};
ghost use Rattle.xdr_core.specs.Reads.{Reads};
ghost use Rattle.tx_parts.specs.Preconditions.{v2_format, v2_lawful, number, kind_of, kind, type_format, type_lawful, arms};
ghost use Rattle.tx_parts.specs.Preconditions.{preconditions_format, preconditions_lawful};

use crate::bounds::{LedgerBounds, TimeBounds};
use crate::signer_key::SignerKey;
use std::alloc::{AllocError, Global};
use value_types::Items;
use value_xdr::{Xdr, named};
use xdr_core::{NoMemory, Out, ReadXdr, Words, add_sizes};

/// The preconditions of version 2 (`PreconditionsV2`).
#[derive(Drop)]
pub struct PreconditionsV2 {
    pub time_bounds: Option<TimeBounds>,
    pub ledger_bounds: Option<LedgerBounds>,
    /// The minimum sequence number of the source account. Without it, the account's number has to be one below the transaction's.
    pub min_seq_num: Option<i64>,
    /// The minimum age of the source account's sequence number, in seconds.
    pub min_seq_age: u64,
    /// The minimum age of the source account's sequence number, in ledgers.
    pub min_seq_ledger_gap: u32,
    /// Keys that have to sign besides.
    pub extra_signers: Items<SignerKey, 2>,
}

fn clone_signers(signers: &Items<SignerKey, 2>) -> Result<Items<SignerKey, 2>, AllocError>
    ensures { IfOk result (λ copies. copies ≡ signers.now) }
{
    signers.clone()
}

impl Clone for PreconditionsV2 {
    ghost is_clone = { λ v w. w ≡ v };

    fn clone(&self) -> Result<PreconditionsV2, AllocError> {
        Ok(PreconditionsV2 {
            time_bounds: self.time_bounds,
            ledger_bounds: self.ledger_bounds,
            min_seq_num: self.min_seq_num,
            min_seq_age: self.min_seq_age,
            min_seq_ledger_gap: self.min_seq_ledger_gap,
            extra_signers: clone_signers(&self.extra_signers)?,
        })
    }
}

#[tactic(auto, unfolding(crate::specs::Preconditions::v2_format))]
impl Xdr for PreconditionsV2 {
    ghost format = { v2_format };

    fn read_parts<W: Words>(alloc: Global, input: &mut W) -> Result<PreconditionsV2, ReadXdr> {
        let time_bounds = Option::<TimeBounds>::read(alloc, input)?;
        let ledger_bounds = Option::<LedgerBounds>::read(alloc, input)?;
        let min_seq_num = Option::<i64>::read(alloc, input)?;
        let min_seq_age = u64::read(alloc, input)?;
        let min_seq_ledger_gap = u32::read(alloc, input)?;
        let extra_signers = Items::<SignerKey, 2>::read(alloc, input)?;
        Ok(PreconditionsV2 {
            time_bounds,
            ledger_bounds,
            min_seq_num,
            min_seq_age,
            min_seq_ledger_gap,
            extra_signers,
        })
    }

    fn write_parts(&self, out: &mut Out) -> Result<(), NoMemory> {
        self.time_bounds.write(out)?;
        self.ledger_bounds.write(out)?;
        self.min_seq_num.write(out)?;
        self.min_seq_age.write(out)?;
        self.min_seq_ledger_gap.write(out)?;
        self.extra_signers.write(out)
    }

    #[tactic(auto, unfolding(crate::specs::Preconditions::v2_format, xdr_spec::specs::Format::number32, xdr_spec::specs::Format::number64, xdr_core::specs::Sizes::capped))]
    fn size(&self) -> u64 {
        let size = add_sizes(self.time_bounds.size(), self.ledger_bounds.size());
        let size = add_sizes(size, self.min_seq_num.size());
        let size = add_sizes(size, self.extra_signers.size());
        // The two ages have 8 and 4 bytes.
        size.saturating_add(12)
    }

    ghost lawful = { v2_lawful };
}

/// The types of preconditions (`PreconditionType`).
#[derive(Clone, Copy, Debug, PartialEq, Eq)]
pub enum PreconditionType {
    None,
    Time,
    V2,
}

impl PreconditionType {
    /// The variant with this number, or `None` if no variant has it (RFC 4506, section 4.3).
    pub fn from_number(number: u32) -> Option<PreconditionType>
        ensures { result ≡ kind_of number }
    {
        match number {
            0 => Some(PreconditionType::None),
            1 => Some(PreconditionType::Time),
            2 => Some(PreconditionType::V2),
            _ => None,
        }
    }

    /// The number of the variant (RFC 4506, section 4.3).
    pub fn number(self) -> u32
        ensures { result ≡ number self }
    {
        match self {
            PreconditionType::None => 0,
            PreconditionType::Time => 1,
            PreconditionType::V2 => 2,
        }
    }
}

#[tactic(auto, unfolding(crate::specs::Preconditions::type_format, xdr_core::specs::Sizes::capped))]
impl Xdr for PreconditionType {
    ghost format = { type_format };

    fn read_parts<W: Words>(_alloc: Global, input: &mut W) -> Result<PreconditionType, ReadXdr> {
        let place = input.place();
        named(PreconditionType::from_number(input.u32()?), place)
    }

    fn write_parts(&self, out: &mut Out) -> Result<(), NoMemory> {
        out.put_u32(self.number())
    }

    fn size(&self) -> u64 {
        4
    }

    ghost lawful = { type_lawful };
}

/// The preconditions of a transaction (`Preconditions`).
#[derive(Drop)]
pub enum Preconditions {
    /// 0.
    None,
    /// 1.
    Time(TimeBounds),
    /// 2.
    V2(PreconditionsV2),
}

impl Clone for Preconditions {
    ghost is_clone = { λ v w. w ≡ v };

    fn clone(&self) -> Result<Preconditions, AllocError> {
        match self {
            Preconditions::None => Ok(Preconditions::None),
            Preconditions::Time(bounds) => Ok(Preconditions::Time(*bounds)),
            Preconditions::V2(v2) => Ok(Preconditions::V2(v2.clone()?)),
        }
    }
}

impl Preconditions {
    /// The discriminant of the union (RFC 4506, section 4.15).
    pub fn kind(&self) -> PreconditionType
        ensures { result ≡ kind self.now }
    {
        match self {
            Preconditions::None => PreconditionType::None,
            Preconditions::Time(_) => PreconditionType::Time,
            Preconditions::V2(_) => PreconditionType::V2,
        }
    }
}

#[tactic(auto, unfolding(crate::specs::Preconditions::preconditions_format))]
fn read_arm<W: Words>(
    alloc: Global,
    input: &mut W,
    kind: PreconditionType,
) -> Result<Preconditions, ReadXdr>
    ensures value { Reads (arms kind).read (W.seen input.old) (W.seen input.new) result }
    ensures fits { IfOk result preconditions_format.fits }
{
    match kind {
        PreconditionType::None => Ok(Preconditions::None),
        PreconditionType::Time => Ok(Preconditions::Time(TimeBounds::read(alloc, input)?)),
        PreconditionType::V2 => Ok(Preconditions::V2(PreconditionsV2::read(alloc, input)?)),
    }
}

#[tactic(auto, unfolding(crate::specs::Preconditions::preconditions_format, crate::specs::Preconditions::type_format, xdr_core::specs::Sizes::capped))]
impl Xdr for Preconditions {
    ghost format = { preconditions_format };

    fn read_parts<W: Words>(alloc: Global, input: &mut W) -> Result<Preconditions, ReadXdr> {
        let kind = PreconditionType::read(alloc, input)?;
        read_arm(alloc, input, kind)
    }

    fn write_parts(&self, out: &mut Out) -> Result<(), NoMemory> {
        self.kind().write(out)?;
        match self {
            Preconditions::None => Ok(()),
            Preconditions::Time(bounds) => bounds.write(out),
            Preconditions::V2(v2) => v2.write(out),
        }
    }

    fn size(&self) -> u64 {
        let body = match self {
            Preconditions::None => 0,
            Preconditions::Time(bounds) => bounds.size(),
            Preconditions::V2(v2) => v2.size(),
        };
        add_sizes(self.kind().size(), body)
    }

    ghost lawful = { preconditions_lawful };
}
