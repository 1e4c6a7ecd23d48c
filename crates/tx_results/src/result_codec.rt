//! The spelling of results and their sets.

ghost use Rattle.tx_results.specs.Results.{result_format, result_lawful, pair_format, pair_format_lawful, result_set_format};
ghost use Rattle.tx_results.specs.Results.{result_set_lawful};

use crate::numbers::NO_EXT;
use crate::results::{EnvelopeOutcome, ResultSet, TransactionResult, TransactionResultPair};
use std::alloc::Global;
use value_types::{Hash, Items};
use value_xdr::{Xdr, read_head};
use xdr_core::{NoMemory, Out, ReadXdr, Words, add_sizes};

#[tactic(auto, unfolding(crate::specs::Results::result_format))]
impl Xdr for TransactionResult {
    ghost format = { result_format };

    fn read_parts<W: Words>(alloc: Global, input: &mut W) -> Result<TransactionResult, ReadXdr> {
        let fee_charged = i64::read(alloc, input)?;
        let outcome = EnvelopeOutcome::read(alloc, input)?;
        read_head(input, NO_EXT)?;
        Ok(TransactionResult {
            fee_charged,
            outcome,
        })
    }

    fn write_parts(&self, out: &mut Out) -> Result<(), NoMemory> {
        self.fee_charged.write(out)?;
        self.outcome.write(out)?;
        out.put_u32(NO_EXT)
    }

    #[tactic(auto, unfolding(crate::specs::Results::result_format, xdr_spec::specs::Format::signed64, xdr_core::specs::Sizes::capped))]
    fn size(&self) -> u64 {
        // The fee of 8 bytes and the extension point of 4.
        self.outcome.size().saturating_add(12)
    }

    ghost lawful = { result_lawful };
}

#[tactic(auto, unfolding(crate::specs::Results::pair_format, xdr_core::specs::Sizes::capped))]
impl Xdr for TransactionResultPair {
    ghost format = { pair_format };

    fn read_parts<W: Words>(
        alloc: Global,
        input: &mut W,
    ) -> Result<TransactionResultPair, ReadXdr> {
        let hash = Hash::read(alloc, input)?;
        let result = TransactionResult::read(alloc, input)?;
        Ok(TransactionResultPair { hash, result })
    }

    fn write_parts(&self, out: &mut Out) -> Result<(), NoMemory> {
        self.hash.write(out)?;
        self.result.write(out)
    }

    fn size(&self) -> u64 {
        add_sizes(self.hash.size(), self.result.size())
    }

    ghost lawful = { pair_format_lawful };
}

#[tactic(auto, unfolding(crate::specs::Results::result_set_format))]
impl Xdr for ResultSet {
    ghost format = { result_set_format };

    fn read_parts<W: Words>(alloc: Global, input: &mut W) -> Result<ResultSet, ReadXdr> {
        let pairs = Items::<TransactionResultPair, 4294967295>::read(alloc, input)?;
        Ok(ResultSet { pairs })
    }

    fn write_parts(&self, out: &mut Out) -> Result<(), NoMemory> {
        self.pairs.write(out)
    }

    fn size(&self) -> u64 {
        self.pairs.size()
    }

    ghost lawful = { result_set_lawful };
}
