//! Transactions with their operations, footprints and resources.

ghost use Rattle.std.specs.Prelude.{◌≡◌, []};
ghost use Rattle.tx_xdr.specs.Operation as operations;
ghost use Rattle.tx_xdr.specs.Ext as exts;
ghost use Rattle.tx_xdr.specs.Soroban.{footprint_format};

use auth_types::AuthEntry;
use invoke_types::HostFunction;
use ledger_types::LedgerKey;
use std::alloc::Global;
use tx_parts::{Memo, MuxedAccount, Preconditions};
use value_types::Items;

/// The types of operations (`OperationType`, without classic operations).
#[derive(Clone, Copy, Debug, PartialEq, Eq)]
pub enum OperationType {
    InvokeHostFunction,
    ExtendFootprintTtl,
    RestoreFootprint,
}

impl OperationType {
    /// The variant with this number, or `None` if no variant has it (RFC 4506, section 4.3).
    pub fn from_number(number: u32) -> Option<OperationType>
        ensures { result ≡ operations.type_of number }
    {
        match number {
            24 => Some(OperationType::InvokeHostFunction),
            25 => Some(OperationType::ExtendFootprintTtl),
            26 => Some(OperationType::RestoreFootprint),
            _ => None,
        }
    }

    /// The number of the variant (RFC 4506, section 4.3).
    pub fn number(self) -> u32
        ensures { result ≡ operations.number self }
    {
        match self {
            OperationType::InvokeHostFunction => 24,
            OperationType::ExtendFootprintTtl => 25,
            OperationType::RestoreFootprint => 26,
        }
    }
}

/// The body of an operation.
#[derive(Drop)]
pub enum OperationBody {
    /// 24: calls a host function.
    InvokeHostFunction {
        host_function: HostFunction,
        /// The authorisation entries.
        auth: Items<AuthEntry, 4294967295>,
    },
    /// 25: extends the entries of the read-only footprint to live until the current ledger's number plus `extend_to`.
    ExtendFootprintTtl {
        extend_to: u32,
    },
    /// 26: restores the archived entries of the read-write footprint.
    RestoreFootprint,
}

impl OperationBody {
    /// The discriminant of the union (RFC 4506, section 4.15).
    pub fn kind(&self) -> OperationType
        ensures { result ≡ operations.kind self.now }
    {
        match self {
            OperationBody::InvokeHostFunction { .. } => OperationType::InvokeHostFunction,
            OperationBody::ExtendFootprintTtl { .. } => OperationType::ExtendFootprintTtl,
            OperationBody::RestoreFootprint => OperationType::RestoreFootprint,
        }
    }
}

/// An operation of a transaction.
#[derive(Drop)]
pub struct Operation {
    /// The source account; without one, the transaction's.
    pub source: Option<MuxedAccount>,
    pub body: OperationBody,
}

/// The ledger keys that a transaction declares.
#[derive(Drop)]
pub struct Footprint {
    pub read_only: Items<LedgerKey, 4294967295>,
    pub read_write: Items<LedgerKey, 4294967295>,
}

impl Footprint {
    /// The footprint without keys. It takes no memory.
    #[tactic(auto, unfolding(crate::specs::Soroban::footprint_format, xdr_spec::specs::Format::list))]
    pub fn empty(alloc: Global) -> Footprint
        ensures keys { result ≡ record { read_only = []; read_write = [] } }
        ensures fits { footprint_format.fits result }
    {
        Footprint {
            read_only: Items::from_vec(Vec::new(alloc)),
            read_write: Items::from_vec(Vec::new(alloc)),
        }
    }
}

/// The footprint and the resources that a transaction declares (`SorobanTransactionData`).
#[derive(Drop)]
pub struct SorobanData {
    pub footprint: Footprint,
    /// The maximum number of instructions.
    pub instructions: u32,
    /// The maximum number of bytes of entries that it may read.
    pub disk_read_bytes: u32,
    /// The maximum number of bytes of entries that it may write.
    pub write_bytes: u32,
    /// The fee offered for resources, in stroops.
    pub resource_fee: i64,
}

/// The types of extensions of a transaction.
#[derive(Clone, Copy, Debug, PartialEq, Eq)]
pub enum TransactionExtType {
    None,
    Soroban,
}

impl TransactionExtType {
    /// The variant with this number, or `None` if no variant has it (RFC 4506, section 4.3).
    pub fn from_number(number: u32) -> Option<TransactionExtType>
        ensures { result ≡ exts.type_of number }
    {
        match number {
            0 => Some(TransactionExtType::None),
            1 => Some(TransactionExtType::Soroban),
            _ => None,
        }
    }

    /// The number of the variant (RFC 4506, section 4.3).
    pub fn number(self) -> u32
        ensures { result ≡ exts.number self }
    {
        match self {
            TransactionExtType::None => 0,
            TransactionExtType::Soroban => 1,
        }
    }
}

/// The extension of a transaction.
#[derive(Drop)]
pub enum TransactionExt {
    /// 0: a transaction that declares nothing.
    None,
    /// 1.
    Soroban(SorobanData),
}

impl TransactionExt {
    /// The discriminant of the union (RFC 4506, section 4.15).
    pub fn kind(&self) -> TransactionExtType
        ensures { result ≡ exts.kind self.now }
    {
        match self {
            TransactionExt::None => TransactionExtType::None,
            TransactionExt::Soroban(_) => TransactionExtType::Soroban,
        }
    }
}

/// A transaction without its signatures.
#[derive(Drop)]
pub struct Transaction {
    pub source: MuxedAccount,
    /// The maximum fee, in stroops.
    pub fee: u32,
    /// The sequence number that the source account has afterwards.
    pub seq_num: i64,
    pub preconditions: Preconditions,
    pub memo: Memo,
    pub operations: Items<Operation, 100>,
    pub ext: TransactionExt,
}
