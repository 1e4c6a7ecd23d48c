//! Envelopes: transactions and fee bumps with their signatures.

ghost use Rattle.std.specs.Prelude.{◌≡◌};
ghost use Rattle.tx_xdr.specs.Envelope.{number, type_of, kind, transaction_in};

use crate::transaction::Transaction;
use tx_parts::{DecoratedSignature, MuxedAccount};
use value_types::Items;

/// A transaction with its signatures (`TransactionV1Envelope`).
#[derive(Drop)]
pub struct SignedTransaction {
    pub tx: Transaction,
    pub signatures: Items<DecoratedSignature, 20>,
}

/// A fee bump without its signatures: another account pays the fee of a signed transaction (`FeeBumpTransaction`, CAP-0015).
#[derive(Drop)]
pub struct FeeBump {
    /// The account that pays.
    pub fee_source: MuxedAccount,
    /// The maximum fee, in stroops.
    pub fee: i64,
    pub inner: SignedTransaction,
}

/// A fee bump with its signatures (`FeeBumpTransactionEnvelope`).
#[derive(Drop)]
pub struct SignedFeeBump {
    pub fee_bump: FeeBump,
    pub signatures: Items<DecoratedSignature, 20>,
}

/// The types of envelopes (`EnvelopeType`, without transactions of version 0 and without what is only hashed).
#[derive(Clone, Copy, Debug, PartialEq, Eq)]
pub enum EnvelopeType {
    Transaction,
    FeeBump,
}

impl EnvelopeType {
    /// The variant with this number, or `None` if no variant has it (RFC 4506, section 4.3).
    pub fn from_number(number: u32) -> Option<EnvelopeType>
        ensures { result ≡ type_of number }
    {
        match number {
            2 => Some(EnvelopeType::Transaction),
            5 => Some(EnvelopeType::FeeBump),
            _ => None,
        }
    }

    /// The number of the variant (RFC 4506, section 4.3).
    pub fn number(self) -> u32
        ensures { result ≡ number self }
    {
        match self {
            EnvelopeType::Transaction => 2,
            EnvelopeType::FeeBump => 5,
        }
    }
}

/// An envelope (`TransactionEnvelope`).
#[derive(Drop)]
pub enum Envelope {
    /// 2.
    Transaction(SignedTransaction),
    /// 5.
    FeeBump(SignedFeeBump),
}

impl Envelope {
    /// The discriminant of the union (RFC 4506, section 4.15).
    pub fn kind(&self) -> EnvelopeType
        ensures { result ≡ kind self.now }
    {
        match self {
            Envelope::Transaction(_) => EnvelopeType::Transaction,
            Envelope::FeeBump(_) => EnvelopeType::FeeBump,
        }
    }

    /// The transaction that runs: of a fee bump the inner one.
    pub fn transaction(&self) -> &Transaction
        ensures { result.now ≡ transaction_in self.now }
    {
        match self {
            Envelope::Transaction(signed) => &signed.tx,
            Envelope::FeeBump(signed) => &signed.fee_bump.inner.tx,
        }
    }
}
