//! The records of a ledger file: entries and their lives.

ghost use Rattle.std.specs.Prelude.{◌≡◌};
ghost use Rattle.ledger_types.specs.Record.{ttl_format, ttl_lawful, record_format, record_lawful};

use crate::entry::LedgerEntry;
use std::alloc::{AllocError, Global};
use std::marker::Model;
use value_types::Hash;
use value_xdr::Xdr;
use xdr_core::{NoMemory, Out, ReadXdr, Words, add_sizes};

/// The live-until ledger of a key's entry (`TTLEntry`).
#[derive(Debug, PartialEq, Eq)]
pub struct TtlEntry {
    /// The SHA-256 of the key's XDR.
    pub key_hash: Hash,
    /// The number of the last ledger in which the entry is live.
    pub live_until_ledger_seq: u32,
}

impl Clone for TtlEntry {
    ghost use Rattle.std.specs.Prelude.{◌≡◌, ⊤};

    ghost is_clone = { λ v w. w ≡ v };

    ghost is_infallible = { λ _. ⊤ };

    fn clone(&self) -> Result<TtlEntry, AllocError> {
        Ok(*self)
    }
}

impl Copy for TtlEntry {}

#[tactic(auto, unfolding(crate::specs::Record::ttl_format, xdr_core::specs::Sizes::capped))]
impl Xdr for TtlEntry {
    ghost format = { ttl_format };

    fn read_parts<W: Words>(alloc: Global, input: &mut W) -> Result<TtlEntry, ReadXdr> {
        let key_hash = Hash::read(alloc, input)?;
        let live_until_ledger_seq = u32::read(alloc, input)?;
        Ok(TtlEntry {
            key_hash,
            live_until_ledger_seq,
        })
    }

    fn write_parts(&self, out: &mut Out) -> Result<(), NoMemory> {
        self.key_hash.write(out)?;
        self.live_until_ledger_seq.write(out)
    }

    fn size(&self) -> u64 {
        add_sizes(self.key_hash.size(), self.live_until_ledger_seq.size())
    }

    ghost lawful = { ttl_lawful };
}

/// A record of a ledger file: an entry and its life (own).
#[derive(Drop)]
pub struct LedgerRecord {
    pub entry: LedgerEntry,
    pub ttl: TtlEntry,
}

impl Clone for LedgerRecord {
    ghost is_clone = { λ v w. w ≡ v };

    fn clone(&self) -> Result<LedgerRecord, AllocError> {
        let entry = self.entry.clone()?;
        Ok(LedgerRecord {
            entry,
            ttl: self.ttl,
        })
    }
}

#[tactic(auto, unfolding(crate::specs::Record::record_format, xdr_core::specs::Sizes::capped))]
impl Xdr for LedgerRecord {
    ghost format = { record_format };

    fn read_parts<W: Words>(alloc: Global, input: &mut W) -> Result<LedgerRecord, ReadXdr> {
        let entry = LedgerEntry::read(alloc, input)?;
        let ttl = TtlEntry::read(alloc, input)?;
        Ok(LedgerRecord { entry, ttl })
    }

    fn write_parts(&self, out: &mut Out) -> Result<(), NoMemory> {
        self.entry.write(out)?;
        self.ttl.write(out)
    }

    fn size(&self) -> u64 {
        add_sizes(self.entry.size(), self.ttl.size())
    }

    ghost lawful = { record_lawful };
}

/// A record on the heap. Contracts see the record.
#[derive(Drop)]
pub struct BoxedRecord {
    record: Box<LedgerRecord>,
}

impl Model for BoxedRecord {
    ghost use Rattle.ledger_types.specs.declared.record.LedgerRecord.{LedgerRecord};
    ghost use Rattle.ledger_types.specs.contracts.record.LedgerRecord as record_row;

    ghost Value = { LedgerRecord };

    ghost coded = { record_row.the_row.coded };

    ghost view = { λ b. b.record.value };
}

impl BoxedRecord {
    /// Moves the record out of the heap. It takes no memory.
    pub fn into_record(self) -> LedgerRecord
        ensures { result ≡ self }
    {
        let BoxedRecord { record } = self;
        Box::into_inner(record)
    }

    /// Returns the record.
    pub fn record(&self) -> &LedgerRecord
        ensures { result.now ≡ self.now }
    {
        &self.record
    }
}

impl Xdr for BoxedRecord {
    ghost format = { record_format };

    fn read_parts<W: Words>(alloc: Global, input: &mut W) -> Result<BoxedRecord, ReadXdr> {
        let record = LedgerRecord::read(alloc, input)?;
        let record = Box::new(alloc, record)?;
        Ok(BoxedRecord { record })
    }

    fn write_parts(&self, out: &mut Out) -> Result<(), NoMemory> {
        self.record.write_parts(out)
    }

    fn size(&self) -> u64 {
        self.record.size()
    }

    ghost lawful = { record_lawful };
}
