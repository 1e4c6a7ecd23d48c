//! Change logs and their codec.

ghost use Rattle.std.specs.Prelude.{◌≡◌, IfOk, IfErr};
ghost use Rattle.xdr_spec.specs.Refusal.{Spells};
ghost use Rattle.xdr_core.specs.Reads.{IsValueUnlessMemory, IsRefusal};
ghost use Rattle.change_log.specs.Log.{stage_format, stage_lawful, log_format, log_lawful};
ghost use Rattle.change_log.specs.declared.log.Log.{Log as LogData};

use crate::change::LedgerEntryChange;
use std::alloc::Global;
use value_types::{Blob, Items};
use value_xdr::{Xdr, decode, encode};
use xdr_core::{NoMemory, Out, ReadXdr, Words, add_sizes};

/// The changes of a transaction, or of the end of a stage.
pub type Changes = Items<LedgerEntryChange, 4294967295>;

/// The changes of a stage of a transaction set.
#[derive(Drop)]
pub struct LoggedStage {
    /// The changes of each transaction, in the set's order.
    pub transactions: Items<Changes, 4294967295>,
    /// The changes of the stage's end: the extensions that were pending then.
    pub end: Changes,
}

#[tactic(auto, unfolding(crate::specs::Log::stage_format, xdr_core::specs::Sizes::capped))]
impl Xdr for LoggedStage {
    ghost format = { stage_format };

    fn read_parts<W: Words>(alloc: Global, input: &mut W) -> Result<LoggedStage, ReadXdr> {
        let transactions = Items::<Changes, 4294967295>::read(alloc, input)?;
        let end = Changes::read(alloc, input)?;
        Ok(LoggedStage { transactions, end })
    }

    fn write_parts(&self, out: &mut Out) -> Result<(), NoMemory> {
        self.transactions.write(out)?;
        self.end.write(out)
    }

    fn size(&self) -> u64 {
        add_sizes(self.transactions.size(), self.end.size())
    }

    ghost lawful = { stage_lawful };
}

/// What a transaction set changed in a ledger (own).
#[derive(Drop)]
pub struct Log {
    /// The number of the ledger that the set was applied to.
    pub old_seq: u32,
    /// Its close time.
    pub old_close_time: u64,
    /// The close time of the ledger after it.
    pub new_close_time: u64,
    pub stages: Items<LoggedStage, 4294967295>,
}

#[tactic(auto, unfolding(crate::specs::Log::log_format, xdr_core::specs::Sizes::capped))]
impl Xdr for Log {
    ghost format = { log_format };

    fn read_parts<W: Words>(alloc: Global, input: &mut W) -> Result<Log, ReadXdr> {
        let old_seq = u32::read(alloc, input)?;
        let old_close_time = u64::read(alloc, input)?;
        let new_close_time = u64::read(alloc, input)?;
        let stages = Items::<LoggedStage, 4294967295>::read(alloc, input)?;
        Ok(Log {
            old_seq,
            old_close_time,
            new_close_time,
            stages,
        })
    }

    fn write_parts(&self, out: &mut Out) -> Result<(), NoMemory> {
        self.old_seq.write(out)?;
        self.old_close_time.write(out)?;
        self.new_close_time.write(out)?;
        self.stages.write(out)
    }

    fn size(&self) -> u64 {
        let size = add_sizes(self.old_seq.size(), self.old_close_time.size());
        let size = add_sizes(size, self.new_close_time.size());
        add_sizes(size, self.stages.size())
    }

    ghost lawful = { log_lawful };
}

/// Reads the log of a file, which has no bytes after it.
pub fn read_log(alloc: Global, bytes: &[u8]) -> Result<Log, ReadXdr>
    // The bytes are the XDR of the log.
    ensures found { IfOk result (λ l. Spells log_format l bytes.now) }
    // A log with these bytes is read, unless memory runs out.
    ensures only { (l : LogData) → Spells log_format l bytes.now → IsValueUnlessMemory l result }
    // Other bytes are rejected, with the offset and reason of the first fault.
    ensures refused { IfErr result (λ e. IsRefusal log_format bytes.now e) }
{
    decode::<Log>(alloc, bytes)
}

/// Writes the file of a log.
pub fn write_log(alloc: Global, log: &Log) -> Result<Blob, NoMemory>
    requires { log_format.fits log.now }
    ensures { IfOk result (λ file. file ≡ log_format.spell log.now) }
{
    Ok(Blob::from_vec(encode(alloc, log)?))
}
