//! The entries of a change log.

ghost use Rattle.std.specs.Prelude.{◌≡◌, true, IfOk};
ghost use Rattle.xdr_core.specs.Reads.{Reads};
ghost use Rattle.change_log.specs.Entry.{kind, modified, allows, arms, body_format, logged_format, logged_lawful};

use ledger_types::{
    ContractCodeEntry, ContractDataEntry, LedgerEntry, LedgerEntryData, LedgerEntryType, TtlEntry,
};
use std::alloc::Global;
use value_xdr::{Xdr, read_head};
use xdr_core::{NoMemory, Out, ReadXdr, Why, Words, XdrErr, add_sizes};

/// The number of an empty extension point.
const NO_EXTENSION: u32 = 0;

/// The length of the last modified ledger and of the extension point, in bytes.
const ENDS_SIZE: u64 = 8;

/// An entry in a log (`LedgerEntry`, of the types 6, 7 and 9).
#[derive(Drop)]
pub enum LoggedEntry {
    /// 6 and 7: an entry of a contract.
    Entry(LedgerEntry),
    /// 9: the live-until ledger of such an entry. Its last modified ledger is 0 (own).
    Ttl(TtlEntry),
}

impl LoggedEntry {
    /// The type of the entry.
    pub fn kind(&self) -> LedgerEntryType
        ensures { result ≡ kind self.now }
    {
        match self {
            LoggedEntry::Entry(entry) => match &entry.data {
                LedgerEntryData::ContractData(_) => LedgerEntryType::ContractData,
                LedgerEntryData::ContractCode(_) => LedgerEntryType::ContractCode,
            },
            LoggedEntry::Ttl(_) => LedgerEntryType::Ttl,
        }
    }

    /// The number of the last ledger that modified the entry.
    fn last_modified(&self) -> u32
        ensures { result ≡ modified self.now }
    {
        match self {
            LoggedEntry::Entry(entry) => entry.last_modified_ledger_seq,
            LoggedEntry::Ttl(_) => 0,
        }
    }
}

/// Whether an entry with this last modified ledger may be of this type.
fn allows(last_modified: u32, kind: LedgerEntryType) -> bool
    ensures { result ≡ allows last_modified kind }
{
    match kind {
        LedgerEntryType::ContractData => true,
        LedgerEntryType::ContractCode => true,
        LedgerEntryType::Ttl => last_modified == 0,
        _ => false,
    }
}

/// Reads what follows the type of an entry.
#[tactic(auto, unfolding(crate::specs::Entry::body_format))]
fn read_arm<W: Words>(
    alloc: Global,
    input: &mut W,
    last_modified: u32,
    kind: LedgerEntryType,
) -> Result<LoggedEntry, ReadXdr>
    requires { allows last_modified kind ≡ true }
    ensures value { Reads (arms last_modified kind).read (W.seen input.old) (W.seen input.new) result }
    ensures fits { IfOk result (body_format last_modified).fits }
    ensures of_ledger { IfOk result (λ entry. modified entry ≡ last_modified) }
{
    match kind {
        LedgerEntryType::ContractData => {
            let entry = ContractDataEntry::read(alloc, input)?;
            read_head(input, NO_EXTENSION)?;
            Ok(LoggedEntry::Entry(LedgerEntry {
                last_modified_ledger_seq: last_modified,
                data: LedgerEntryData::ContractData(entry),
            }))
        }
        LedgerEntryType::ContractCode => {
            let entry = ContractCodeEntry::read(alloc, input)?;
            read_head(input, NO_EXTENSION)?;
            Ok(LoggedEntry::Entry(LedgerEntry {
                last_modified_ledger_seq: last_modified,
                data: LedgerEntryData::ContractCode(entry),
            }))
        }
        LedgerEntryType::Ttl => {
            let ttl = TtlEntry::read(alloc, input)?;
            read_head(input, NO_EXTENSION)?;
            Ok(LoggedEntry::Ttl(ttl))
        }
        _ => unreachable!(),
    }
}

/// Reads what follows the last modified ledger of an entry.
#[tactic(auto, unfolding(crate::specs::Entry::body_format, ledger_types::specs::EntryType::type_format))]
fn read_body<W: Words>(
    alloc: Global,
    input: &mut W,
    last_modified: u32,
) -> Result<LoggedEntry, ReadXdr>
    ensures value { Reads (body_format last_modified).read (W.seen input.old) (W.seen input.new) result }
    ensures fits { IfOk result (body_format last_modified).fits }
    ensures of_ledger { IfOk result (λ entry. modified entry ≡ last_modified) }
{
    let place = input.place();
    let kind = LedgerEntryType::read(alloc, input)?;
    if !allows(last_modified, kind) {
        return Err(ReadXdr::Bad(XdrErr {
            at: place,
            why: Why::Tag,
        }));
    }
    read_arm(alloc, input, last_modified, kind)
}

#[tactic(auto, unfolding(crate::specs::Entry::logged_format, crate::specs::Entry::body_format, ledger_types::specs::EntryType::type_format, xdr_core::specs::Sizes::capped))]
impl Xdr for LoggedEntry {
    ghost format = { logged_format };

    #[tactic(auto, unfolding(crate::specs::Entry::logged_format, xdr_spec::specs::Format::number32))]
    fn read_parts<W: Words>(alloc: Global, input: &mut W) -> Result<LoggedEntry, ReadXdr> {
        let last_modified = u32::read(alloc, input)?;
        read_body(alloc, input, last_modified)
    }

    fn write_parts(&self, out: &mut Out) -> Result<(), NoMemory> {
        out.put_u32(self.last_modified())?;
        self.kind().write(out)?;
        match self {
            LoggedEntry::Entry(entry) => match &entry.data {
                LedgerEntryData::ContractData(entry) => entry.write(out)?,
                LedgerEntryData::ContractCode(entry) => entry.write(out)?,
            },
            LoggedEntry::Ttl(ttl) => ttl.write(out)?,
        }
        out.put_u32(NO_EXTENSION)
    }

    fn size(&self) -> u64 {
        let body = match self {
            LoggedEntry::Entry(entry) => match &entry.data {
                LedgerEntryData::ContractData(entry) => entry.size(),
                LedgerEntryData::ContractCode(entry) => entry.size(),
            },
            LoggedEntry::Ttl(ttl) => ttl.size(),
        };
        add_sizes(add_sizes(self.kind().size(), body), ENDS_SIZE)
    }

    ghost lawful = { logged_lawful };
}
