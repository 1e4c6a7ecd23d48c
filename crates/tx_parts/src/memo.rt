//! Memos.

ghost use Rattle.std.specs.Prelude.{◌≡◌, IfOk};
ghost use Rattle.xdr_core.specs.Reads.{Reads};
ghost use Rattle.tx_parts.specs.Memo.{number, kind_of, kind, type_format, type_lawful, arms, memo_format, memo_lawful};

use std::alloc::{AllocError, Global};
use value_types::{Bytes, Hash};
use value_xdr::{Xdr, named};
use xdr_core::{NoMemory, Out, ReadXdr, Words, add_sizes};

/// The types of memos (`MemoType`).
#[derive(Clone, Copy, Debug, PartialEq, Eq)]
pub enum MemoType {
    None,
    Text,
    Id,
    Hash,
    Return,
}

impl MemoType {
    /// The variant with this number, or `None` if no variant has it (RFC 4506, section 4.3).
    pub fn from_number(number: u32) -> Option<MemoType>
        ensures { result ≡ kind_of number }
    {
        match number {
            0 => Some(MemoType::None),
            1 => Some(MemoType::Text),
            2 => Some(MemoType::Id),
            3 => Some(MemoType::Hash),
            4 => Some(MemoType::Return),
            _ => None,
        }
    }

    /// The number of the variant (RFC 4506, section 4.3).
    pub fn number(self) -> u32
        ensures { result ≡ number self }
    {
        match self {
            MemoType::None => 0,
            MemoType::Text => 1,
            MemoType::Id => 2,
            MemoType::Hash => 3,
            MemoType::Return => 4,
        }
    }
}

#[tactic(auto, unfolding(crate::specs::Memo::type_format, xdr_core::specs::Sizes::capped))]
impl Xdr for MemoType {
    ghost format = { type_format };

    fn read_parts<W: Words>(_alloc: Global, input: &mut W) -> Result<MemoType, ReadXdr> {
        let place = input.place();
        named(MemoType::from_number(input.u32()?), place)
    }

    fn write_parts(&self, out: &mut Out) -> Result<(), NoMemory> {
        out.put_u32(self.number())
    }

    fn size(&self) -> u64 {
        4
    }

    ghost lawful = { type_lawful };
}

/// A memo (`Memo`).
#[derive(Drop)]
pub enum Memo {
    /// 0.
    None,
    /// 1.
    Text(Bytes<28>),
    /// 2.
    Id(u64),
    /// 3: the hash of the thing that the transaction pays for.
    Hash(Hash),
    /// 4: the hash of the transaction that this one pays back.
    Return(Hash),
}

impl Clone for Memo {
    ghost is_clone = { λ v w. w ≡ v };

    fn clone(&self) -> Result<Memo, AllocError> {
        match self {
            Memo::None => Ok(Memo::None),
            Memo::Text(text) => Ok(Memo::Text(text.clone()?)),
            Memo::Id(id) => Ok(Memo::Id(*id)),
            Memo::Hash(hash) => Ok(Memo::Hash(*hash)),
            Memo::Return(hash) => Ok(Memo::Return(*hash)),
        }
    }
}

impl Memo {
    /// The discriminant of the union (RFC 4506, section 4.15).
    pub fn kind(&self) -> MemoType
        ensures { result ≡ kind self.now }
    {
        match self {
            Memo::None => MemoType::None,
            Memo::Text(_) => MemoType::Text,
            Memo::Id(_) => MemoType::Id,
            Memo::Hash(_) => MemoType::Hash,
            Memo::Return(_) => MemoType::Return,
        }
    }
}

#[tactic(auto, unfolding(crate::specs::Memo::memo_format))]
fn read_arm<W: Words>(alloc: Global, input: &mut W, kind: MemoType) -> Result<Memo, ReadXdr>
    ensures value { Reads (arms kind).read (W.seen input.old) (W.seen input.new) result }
    ensures fits { IfOk result memo_format.fits }
{
    match kind {
        MemoType::None => Ok(Memo::None),
        MemoType::Text => Ok(Memo::Text(Bytes::<28>::read(alloc, input)?)),
        MemoType::Id => Ok(Memo::Id(u64::read(alloc, input)?)),
        MemoType::Hash => Ok(Memo::Hash(Hash::read(alloc, input)?)),
        MemoType::Return => Ok(Memo::Return(Hash::read(alloc, input)?)),
    }
}

#[tactic(auto, unfolding(crate::specs::Memo::memo_format, crate::specs::Memo::type_format, xdr_core::specs::Sizes::capped))]
impl Xdr for Memo {
    ghost format = { memo_format };

    fn read_parts<W: Words>(alloc: Global, input: &mut W) -> Result<Memo, ReadXdr> {
        let kind = MemoType::read(alloc, input)?;
        read_arm(alloc, input, kind)
    }

    fn write_parts(&self, out: &mut Out) -> Result<(), NoMemory> {
        self.kind().write(out)?;
        match self {
            Memo::None => Ok(()),
            Memo::Text(text) => text.write(out),
            Memo::Id(id) => id.write(out),
            Memo::Hash(hash) => hash.write(out),
            Memo::Return(hash) => hash.write(out),
        }
    }

    fn size(&self) -> u64 {
        let body = match self {
            Memo::None => 0,
            Memo::Text(text) => text.size(),
            Memo::Id(id) => id.size(),
            Memo::Hash(hash) => hash.size(),
            Memo::Return(hash) => hash.size(),
        };
        add_sizes(self.kind().size(), body)
    }

    ghost lawful = { memo_lawful };
}
