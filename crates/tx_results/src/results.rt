//! Results of transactions and fee bumps.

ghost use Rattle.std.specs.Prelude.{◌≡◌};
ghost use Rattle.tx_results.specs.Results.{code_of, envelope_code_of, outcome_in};

use crate::codes::{EnvelopeResultCode, TransactionResultCode};
use crate::operation::OperationResult;
use value_types::{Hash, Items};

/// The outcome of a transaction: its code, and the results of its operations if they ran.
#[derive(Drop)]
pub enum TransactionOutcome {
    Success(Items<OperationResult, 4294967295>),
    Failed(Items<OperationResult, 4294967295>),
    TooEarly,
    TooLate,
    MissingOperation,
    Malformed,
    SorobanInvalid,
}

impl TransactionOutcome {
    /// The discriminant of the union (RFC 4506, section 4.15).
    pub fn code(&self) -> TransactionResultCode
        ensures { result ≡ code_of self.now }
    {
        match self {
            TransactionOutcome::Success(_) => TransactionResultCode::Success,
            TransactionOutcome::Failed(_) => TransactionResultCode::Failed,
            TransactionOutcome::TooEarly => TransactionResultCode::TooEarly,
            TransactionOutcome::TooLate => TransactionResultCode::TooLate,
            TransactionOutcome::MissingOperation => TransactionResultCode::MissingOperation,
            TransactionOutcome::Malformed => TransactionResultCode::Malformed,
            TransactionOutcome::SorobanInvalid => TransactionResultCode::SorobanInvalid,
        }
    }
}

/// The outcome of a fee bump's inner transaction, and the fee that it paid itself (`InnerTransactionResult`).
#[derive(Drop)]
pub struct InnerTransactionResult {
    pub fee_charged: i64,
    pub outcome: TransactionOutcome,
}

/// The hash and the result of a fee bump's inner transaction (`InnerTransactionResultPair`).
#[derive(Drop)]
pub struct InnerTransactionResultPair {
    pub hash: Hash,
    pub result: InnerTransactionResult,
}

/// The outcome of an envelope.
#[derive(Drop)]
pub enum EnvelopeOutcome {
    /// That of a transaction which is not in a fee bump.
    Transaction(TransactionOutcome),
    FeeBumpInnerSuccess(InnerTransactionResultPair),
    FeeBumpInnerFailed(InnerTransactionResultPair),
}

impl EnvelopeOutcome {
    /// The discriminant of the union (RFC 4506, section 4.15).
    pub fn code(&self) -> EnvelopeResultCode
        ensures { result ≡ envelope_code_of self.now }
    {
        match self {
            EnvelopeOutcome::Transaction(outcome) => {
                EnvelopeResultCode::Transaction(outcome.code())
            }
            EnvelopeOutcome::FeeBumpInnerSuccess(_) => EnvelopeResultCode::FeeBumpInnerSuccess,
            EnvelopeOutcome::FeeBumpInnerFailed(_) => EnvelopeResultCode::FeeBumpInnerFailed,
        }
    }

    /// The transaction's own outcome: of a fee bump the inner one's.
    pub fn transaction(&self) -> &TransactionOutcome
        ensures { result.now ≡ outcome_in self.now }
    {
        match self {
            EnvelopeOutcome::Transaction(outcome) => outcome,
            EnvelopeOutcome::FeeBumpInnerSuccess(inner)
            | EnvelopeOutcome::FeeBumpInnerFailed(inner) => &inner.result.outcome,
        }
    }
}

/// The outcome of an envelope, and the fee that it paid (`TransactionResult`).
#[derive(Drop)]
pub struct TransactionResult {
    pub fee_charged: i64,
    pub outcome: EnvelopeOutcome,
}

/// An envelope's hash and its result (`TransactionResultPair`).
#[derive(Drop)]
pub struct TransactionResultPair {
    pub hash: Hash,
    pub result: TransactionResult,
}

/// The results of a set, in the set's order (`TransactionResultSet`).
#[derive(Drop)]
pub struct ResultSet {
    pub pairs: Items<TransactionResultPair, 4294967295>,
}
