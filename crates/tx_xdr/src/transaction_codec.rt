//! The codec of transactions.

ghost use Rattle.tx_xdr.specs.Transaction.{transaction_format, transaction_lawful};

use crate::transaction::{Operation, Transaction, TransactionExt};
use std::alloc::Global;
use tx_parts::{Memo, MuxedAccount, Preconditions};
use value_types::Items;
use value_xdr::Xdr;
use xdr_core::{NoMemory, Out, ReadXdr, Words, add_sizes};

#[tactic(auto, unfolding(crate::specs::Transaction::transaction_format))]
impl Xdr for Transaction {
    ghost format = { transaction_format };

    fn read_parts<W: Words>(alloc: Global, input: &mut W) -> Result<Transaction, ReadXdr> {
        let source = MuxedAccount::read(alloc, input)?;
        let fee = u32::read(alloc, input)?;
        let seq_num = i64::read(alloc, input)?;
        let preconditions = Preconditions::read(alloc, input)?;
        let memo = Memo::read(alloc, input)?;
        let operations = Items::<Operation, 100>::read(alloc, input)?;
        let ext = TransactionExt::read(alloc, input)?;
        Ok(Transaction {
            source,
            fee,
            seq_num,
            preconditions,
            memo,
            operations,
            ext,
        })
    }

    fn write_parts(&self, out: &mut Out) -> Result<(), NoMemory> {
        self.source.write(out)?;
        self.fee.write(out)?;
        self.seq_num.write(out)?;
        self.preconditions.write(out)?;
        self.memo.write(out)?;
        self.operations.write(out)?;
        self.ext.write(out)
    }

    #[tactic(auto, unfolding(crate::specs::Transaction::transaction_format, xdr_spec::specs::Format::number32, xdr_spec::specs::Format::signed64, xdr_core::specs::Sizes::capped))]
    fn size(&self) -> u64 {
        let size = add_sizes(self.source.size(), self.preconditions.size());
        let size = add_sizes(size, self.memo.size());
        let size = add_sizes(size, self.operations.size());
        let size = add_sizes(size, self.ext.size());
        // The fee of 4 bytes and the sequence number of 8.
        size.saturating_add(12)
    }

    ghost lawful = { transaction_lawful };
}
