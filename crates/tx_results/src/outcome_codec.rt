//! The spelling of the outcomes of transactions and envelopes.

ghost use Rattle.std.specs.Prelude.{IfOk};
ghost use Rattle.xdr_core.specs.Reads.{Reads};
ghost use Rattle.tx_results.specs.Results.{code_format, code_lawful, outcome_format, outcome_lawful, outcome_arms};
ghost use Rattle.tx_results.specs.Results.{inner_result_format, inner_result_lawful, inner_pair_format, inner_pair_lawful};
ghost use Rattle.tx_results.specs.Results.{envelope_code_format, envelope_code_lawful, envelope_outcome_format};
ghost use Rattle.tx_results.specs.Results.{envelope_outcome_lawful, envelope_arms};

use crate::codes::{EnvelopeResultCode, TransactionResultCode};
use crate::numbers::NO_EXT;
use crate::operation::OperationResult;
use crate::results::{
    EnvelopeOutcome, InnerTransactionResult, InnerTransactionResultPair, TransactionOutcome,
};
use std::alloc::Global;
use value_types::{Hash, Items};
use value_xdr::{Xdr, named, read_head};
use xdr_core::{NoMemory, Out, ReadXdr, Why, Words, XdrErr, add_sizes};

#[tactic(auto, unfolding(crate::specs::Results::code_format, xdr_core::specs::Sizes::capped))]
impl Xdr for TransactionResultCode {
    ghost format = { code_format };

    fn read_parts<W: Words>(
        _alloc: Global,
        input: &mut W,
    ) -> Result<TransactionResultCode, ReadXdr> {
        let place = input.place();
        let number = input.u32()?;
        TransactionResultCode::from_number(number).ok_or(ReadXdr::Bad(XdrErr {
            at: place,
            why: Why::Tag,
        }))
    }

    fn write_parts(&self, out: &mut Out) -> Result<(), NoMemory> {
        out.put_u32(self.number())
    }

    fn size(&self) -> u64 {
        4
    }

    ghost lawful = { code_lawful };
}

#[tactic(auto, unfolding(crate::specs::Results::outcome_format))]
fn read_arm<W: Words>(
    alloc: Global,
    input: &mut W,
    code: TransactionResultCode,
) -> Result<TransactionOutcome, ReadXdr>
    ensures value { Reads (outcome_arms code).read (W.seen input.old) (W.seen input.new) result }
    ensures fits { IfOk result outcome_format.fits }
{
    match code {
        TransactionResultCode::Success => {
            Ok(TransactionOutcome::Success(Items::<OperationResult, 4294967295>::read(
                alloc, input,
            )?))
        }
        TransactionResultCode::Failed => {
            Ok(TransactionOutcome::Failed(Items::<OperationResult, 4294967295>::read(
                alloc, input,
            )?))
        }
        TransactionResultCode::TooEarly => Ok(TransactionOutcome::TooEarly),
        TransactionResultCode::TooLate => Ok(TransactionOutcome::TooLate),
        TransactionResultCode::MissingOperation => Ok(TransactionOutcome::MissingOperation),
        TransactionResultCode::Malformed => Ok(TransactionOutcome::Malformed),
        TransactionResultCode::SorobanInvalid => Ok(TransactionOutcome::SorobanInvalid),
    }
}

#[tactic(auto, unfolding(crate::specs::Results::outcome_format, crate::specs::Results::code_format, xdr_core::specs::Sizes::capped))]
impl Xdr for TransactionOutcome {
    ghost format = { outcome_format };

    fn read_parts<W: Words>(alloc: Global, input: &mut W) -> Result<TransactionOutcome, ReadXdr> {
        let code = TransactionResultCode::read(alloc, input)?;
        read_arm(alloc, input, code)
    }

    fn write_parts(&self, out: &mut Out) -> Result<(), NoMemory> {
        self.code().write(out)?;
        match self {
            TransactionOutcome::Success(results) | TransactionOutcome::Failed(results) => {
                results.write(out)
            }
            TransactionOutcome::TooEarly
            | TransactionOutcome::TooLate
            | TransactionOutcome::MissingOperation
            | TransactionOutcome::Malformed
            | TransactionOutcome::SorobanInvalid => Ok(()),
        }
    }

    fn size(&self) -> u64 {
        let body = match self {
            TransactionOutcome::Success(results) | TransactionOutcome::Failed(results) => {
                results.size()
            }
            TransactionOutcome::TooEarly
            | TransactionOutcome::TooLate
            | TransactionOutcome::MissingOperation
            | TransactionOutcome::Malformed
            | TransactionOutcome::SorobanInvalid => 0,
        };
        add_sizes(self.code().size(), body)
    }

    ghost lawful = { outcome_lawful };
}

#[tactic(auto, unfolding(crate::specs::Results::inner_result_format))]
impl Xdr for InnerTransactionResult {
    ghost format = { inner_result_format };

    fn read_parts<W: Words>(
        alloc: Global,
        input: &mut W,
    ) -> Result<InnerTransactionResult, ReadXdr> {
        let fee_charged = i64::read(alloc, input)?;
        let outcome = TransactionOutcome::read(alloc, input)?;
        read_head(input, NO_EXT)?;
        Ok(InnerTransactionResult {
            fee_charged,
            outcome,
        })
    }

    fn write_parts(&self, out: &mut Out) -> Result<(), NoMemory> {
        self.fee_charged.write(out)?;
        self.outcome.write(out)?;
        out.put_u32(NO_EXT)
    }

    #[tactic(auto, unfolding(crate::specs::Results::inner_result_format, xdr_spec::specs::Format::signed64, xdr_core::specs::Sizes::capped))]
    fn size(&self) -> u64 {
        // The fee of 8 bytes and the extension point of 4.
        self.outcome.size().saturating_add(12)
    }

    ghost lawful = { inner_result_lawful };
}

#[tactic(auto, unfolding(crate::specs::Results::inner_pair_format, xdr_core::specs::Sizes::capped))]
impl Xdr for InnerTransactionResultPair {
    ghost format = { inner_pair_format };

    fn read_parts<W: Words>(
        alloc: Global,
        input: &mut W,
    ) -> Result<InnerTransactionResultPair, ReadXdr> {
        let hash = Hash::read(alloc, input)?;
        let result = InnerTransactionResult::read(alloc, input)?;
        Ok(InnerTransactionResultPair { hash, result })
    }

    fn write_parts(&self, out: &mut Out) -> Result<(), NoMemory> {
        self.hash.write(out)?;
        self.result.write(out)
    }

    fn size(&self) -> u64 {
        add_sizes(self.hash.size(), self.result.size())
    }

    ghost lawful = { inner_pair_lawful };
}

#[tactic(auto, unfolding(crate::specs::Results::envelope_code_format, xdr_core::specs::Sizes::capped))]
impl Xdr for EnvelopeResultCode {
    ghost format = { envelope_code_format };

    fn read_parts<W: Words>(_alloc: Global, input: &mut W) -> Result<EnvelopeResultCode, ReadXdr> {
        let place = input.place();
        named(EnvelopeResultCode::from_number(input.u32()?), place)
    }

    fn write_parts(&self, out: &mut Out) -> Result<(), NoMemory> {
        out.put_u32(self.number())
    }

    fn size(&self) -> u64 {
        4
    }

    ghost lawful = { envelope_code_lawful };
}

#[tactic(auto, unfolding(crate::specs::Results::envelope_outcome_format, crate::specs::Results::outcome_format))]
fn read_envelope_arm<W: Words>(
    alloc: Global,
    input: &mut W,
    code: EnvelopeResultCode,
) -> Result<EnvelopeOutcome, ReadXdr>
    ensures value { Reads (envelope_arms code).read (W.seen input.old) (W.seen input.new) result }
    ensures fits { IfOk result envelope_outcome_format.fits }
{
    match code {
        EnvelopeResultCode::FeeBumpInnerSuccess => Ok(EnvelopeOutcome::FeeBumpInnerSuccess(
            InnerTransactionResultPair::read(alloc, input)?,
        )),
        EnvelopeResultCode::FeeBumpInnerFailed => Ok(EnvelopeOutcome::FeeBumpInnerFailed(
            InnerTransactionResultPair::read(alloc, input)?,
        )),
        EnvelopeResultCode::Transaction(code) => {
            Ok(EnvelopeOutcome::Transaction(read_arm(alloc, input, code)?))
        }
    }
}

#[tactic(auto, unfolding(crate::specs::Results::envelope_outcome_format, crate::specs::Results::outcome_format, crate::specs::Results::envelope_code_format, xdr_core::specs::Sizes::capped))]
impl Xdr for EnvelopeOutcome {
    ghost format = { envelope_outcome_format };

    fn read_parts<W: Words>(alloc: Global, input: &mut W) -> Result<EnvelopeOutcome, ReadXdr> {
        let code = EnvelopeResultCode::read(alloc, input)?;
        read_envelope_arm(alloc, input, code)
    }

    fn write_parts(&self, out: &mut Out) -> Result<(), NoMemory> {
        match self {
            // The transaction's outcome writes its own code.
            EnvelopeOutcome::Transaction(outcome) => outcome.write(out),
            EnvelopeOutcome::FeeBumpInnerSuccess(inner)
            | EnvelopeOutcome::FeeBumpInnerFailed(inner) => {
                self.code().write(out)?;
                inner.write(out)
            }
        }
    }

    fn size(&self) -> u64 {
        match self {
            EnvelopeOutcome::Transaction(outcome) => outcome.size(),
            EnvelopeOutcome::FeeBumpInnerSuccess(inner)
            | EnvelopeOutcome::FeeBumpInnerFailed(inner) => {
                add_sizes(self.code().size(), inner.size())
            }
        }
    }

    ghost lawful = { envelope_outcome_lawful };
}
