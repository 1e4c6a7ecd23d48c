//! Changes of entries.

ghost use Rattle.std.specs.Prelude.{◌≡◌, IfOk};
ghost use Rattle.xdr_core.specs.Reads.{Reads};
ghost use Rattle.change_log.specs.Change.{kind, number, kind_of, type_format, type_lawful, arms, change_format, change_lawful};

use crate::entry::LoggedEntry;
use ledger_types::LedgerKey;
use std::alloc::Global;
use value_xdr::{Xdr, named};
use xdr_core::{NoMemory, Out, ReadXdr, Words, add_sizes};

/// The types of changes (`LedgerEntryChangeType`).
#[derive(Clone, Copy, Debug, PartialEq, Eq)]
pub enum LedgerEntryChangeType {
    Created,
    Updated,
    Removed,
    State,
}

impl LedgerEntryChangeType {
    /// The variant with this number, or `None` if no variant has it (RFC 4506, section 4.3).
    pub fn from_number(number: u32) -> Option<LedgerEntryChangeType>
        ensures { result ≡ kind_of number }
    {
        match number {
            0 => Some(LedgerEntryChangeType::Created),
            1 => Some(LedgerEntryChangeType::Updated),
            2 => Some(LedgerEntryChangeType::Removed),
            3 => Some(LedgerEntryChangeType::State),
            _ => None,
        }
    }

    /// The number of the variant (RFC 4506, section 4.3).
    pub fn number(self) -> u32
        ensures { result ≡ number self }
    {
        match self {
            LedgerEntryChangeType::Created => 0,
            LedgerEntryChangeType::Updated => 1,
            LedgerEntryChangeType::Removed => 2,
            LedgerEntryChangeType::State => 3,
        }
    }
}

#[tactic(auto, unfolding(crate::specs::Change::type_format, xdr_core::specs::Sizes::capped))]
impl Xdr for LedgerEntryChangeType {
    ghost format = { type_format };

    fn read_parts<W: Words>(
        _alloc: Global,
        input: &mut W,
    ) -> Result<LedgerEntryChangeType, ReadXdr> {
        let place = input.place();
        named(LedgerEntryChangeType::from_number(input.u32()?), place)
    }

    fn write_parts(&self, out: &mut Out) -> Result<(), NoMemory> {
        out.put_u32(self.number())
    }

    fn size(&self) -> u64 {
        4
    }

    ghost lawful = { type_lawful };
}

/// A change of an entry or of its live-until ledger (`LedgerEntryChange`).
#[derive(Drop)]
pub enum LedgerEntryChange {
    /// 0: the new entry.
    Created(LoggedEntry),
    /// 1: the entry after the change, which follows its `State`.
    Updated(LoggedEntry),
    /// 2: the key of the entry that is gone, which follows its `State`.
    Removed(LedgerKey),
    /// 3: the entry before the change.
    State(LoggedEntry),
}

impl LedgerEntryChange {
    /// The discriminant of the union (RFC 4506, section 4.15).
    pub fn kind(&self) -> LedgerEntryChangeType
        ensures { result ≡ kind self.now }
    {
        match self {
            LedgerEntryChange::Created(_) => LedgerEntryChangeType::Created,
            LedgerEntryChange::Updated(_) => LedgerEntryChangeType::Updated,
            LedgerEntryChange::Removed(_) => LedgerEntryChangeType::Removed,
            LedgerEntryChange::State(_) => LedgerEntryChangeType::State,
        }
    }
}

#[tactic(auto, unfolding(crate::specs::Change::change_format))]
fn read_arm<W: Words>(
    alloc: Global,
    input: &mut W,
    kind: LedgerEntryChangeType,
) -> Result<LedgerEntryChange, ReadXdr>
    ensures value { Reads (arms kind).read (W.seen input.old) (W.seen input.new) result }
    ensures fits { IfOk result change_format.fits }
{
    match kind {
        LedgerEntryChangeType::Created => {
            Ok(LedgerEntryChange::Created(LoggedEntry::read(alloc, input)?))
        }
        LedgerEntryChangeType::Updated => {
            Ok(LedgerEntryChange::Updated(LoggedEntry::read(alloc, input)?))
        }
        LedgerEntryChangeType::Removed => {
            Ok(LedgerEntryChange::Removed(LedgerKey::read(alloc, input)?))
        }
        LedgerEntryChangeType::State => {
            Ok(LedgerEntryChange::State(LoggedEntry::read(alloc, input)?))
        }
    }
}

#[tactic(auto, unfolding(crate::specs::Change::change_format, crate::specs::Change::type_format, xdr_core::specs::Sizes::capped))]
impl Xdr for LedgerEntryChange {
    ghost format = { change_format };

    fn read_parts<W: Words>(alloc: Global, input: &mut W) -> Result<LedgerEntryChange, ReadXdr> {
        let kind = LedgerEntryChangeType::read(alloc, input)?;
        read_arm(alloc, input, kind)
    }

    fn write_parts(&self, out: &mut Out) -> Result<(), NoMemory> {
        self.kind().write(out)?;
        match self {
            LedgerEntryChange::Created(entry) => entry.write(out),
            LedgerEntryChange::Updated(entry) => entry.write(out),
            LedgerEntryChange::Removed(key) => key.write(out),
            LedgerEntryChange::State(entry) => entry.write(out),
        }
    }

    fn size(&self) -> u64 {
        let body = match self {
            LedgerEntryChange::Created(entry) => entry.size(),
            LedgerEntryChange::Updated(entry) => entry.size(),
            LedgerEntryChange::Removed(key) => key.size(),
            LedgerEntryChange::State(entry) => entry.size(),
        };
        add_sizes(self.kind().size(), body)
    }

    ghost lawful = { change_lawful };
}
