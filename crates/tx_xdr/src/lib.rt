//! Transactions and transaction sets with their codecs (the Stellar XDR files, under RFC 4506).
#![tactic(auto)]

mod cloning;
mod envelope;
mod envelope_codec;
mod ext_codec;
mod hashing;
mod numbers;
mod operation_codec;
mod reading;
mod set;
mod set_codec;
mod soroban_codec;
mod transaction;
mod transaction_codec;

pub use envelope::{Envelope, EnvelopeType, FeeBump, SignedFeeBump, SignedTransaction};
pub use hashing::{envelope_hash, tx_hash};
pub use reading::{read_envelope, read_set};
pub use set::{Cluster, Component, Phase, PhaseType, Stage, TxSet};
pub use transaction::{
    Footprint, Operation, OperationBody, OperationType, SorobanData, Transaction, TransactionExt,
    TransactionExtType,
};
