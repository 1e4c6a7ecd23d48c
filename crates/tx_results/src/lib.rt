//! Results of transactions with their codecs (the Stellar XDR files, under RFC 4506).
#![tactic(auto)]

mod codes;
mod numbers;
mod operation;
mod operation_codec;
mod outcome_codec;
mod result_codec;
mod results;
mod writing;

pub use codes::{
    EnvelopeResultCode, ExtendResult, InnerKind, InvokeResultCode, OperationResultCode,
    TransactionResultCode,
};
pub use operation::{InnerResult, InvokeResult, OperationResult};
pub use results::{
    EnvelopeOutcome, InnerTransactionResult, InnerTransactionResultPair, ResultSet,
    TransactionOutcome, TransactionResult, TransactionResultPair,
};
pub use writing::{write_report, write_results};
