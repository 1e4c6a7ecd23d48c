//! Clones of transactions and envelopes.

ghost use Rattle.std.specs.Prelude.{◌≡◌, IfOk};

use crate::envelope::{Envelope, FeeBump, SignedFeeBump, SignedTransaction};
use crate::transaction::{
    Footprint, Operation, OperationBody, SorobanData, Transaction, TransactionExt,
};
use auth_types::AuthEntry;
use ledger_types::LedgerKey;
use std::alloc::AllocError;
use tx_parts::DecoratedSignature;
use value_types::Items;

fn clone_auth(
    auth: &Items<AuthEntry, 4294967295>,
) -> Result<Items<AuthEntry, 4294967295>, AllocError>
    ensures { IfOk result (λ copies. copies ≡ auth.now) }
{
    auth.clone()
}

fn clone_keys(
    keys: &Items<LedgerKey, 4294967295>,
) -> Result<Items<LedgerKey, 4294967295>, AllocError>
    ensures { IfOk result (λ copies. copies ≡ keys.now) }
{
    keys.clone()
}

fn clone_operations(operations: &Items<Operation, 100>) -> Result<Items<Operation, 100>, AllocError>
    ensures { IfOk result (λ copies. copies ≡ operations.now) }
{
    operations.clone()
}

fn clone_signatures(
    signatures: &Items<DecoratedSignature, 20>,
) -> Result<Items<DecoratedSignature, 20>, AllocError>
    ensures { IfOk result (λ copies. copies ≡ signatures.now) }
{
    signatures.clone()
}

impl Clone for OperationBody {
    ghost is_clone = { λ v w. w ≡ v };

    fn clone(&self) -> Result<OperationBody, AllocError> {
        match self {
            OperationBody::InvokeHostFunction {
                host_function,
                auth,
            } => {
                let host_function = host_function.clone()?;
                let auth = clone_auth(auth)?;
                Ok(OperationBody::InvokeHostFunction {
                    host_function,
                    auth,
                })
            }
            OperationBody::ExtendFootprintTtl { extend_to } => {
                Ok(OperationBody::ExtendFootprintTtl {
                    extend_to: *extend_to,
                })
            }
            OperationBody::RestoreFootprint => Ok(OperationBody::RestoreFootprint),
        }
    }
}

impl Clone for Operation {
    ghost is_clone = { λ v w. w ≡ v };

    fn clone(&self) -> Result<Operation, AllocError> {
        Ok(Operation {
            source: self.source,
            body: self.body.clone()?,
        })
    }
}

impl Clone for Footprint {
    ghost is_clone = { λ v w. w ≡ v };

    fn clone(&self) -> Result<Footprint, AllocError> {
        let read_only = clone_keys(&self.read_only)?;
        let read_write = clone_keys(&self.read_write)?;
        Ok(Footprint {
            read_only,
            read_write,
        })
    }
}

impl Clone for SorobanData {
    ghost is_clone = { λ v w. w ≡ v };

    fn clone(&self) -> Result<SorobanData, AllocError> {
        Ok(SorobanData {
            footprint: self.footprint.clone()?,
            instructions: self.instructions,
            disk_read_bytes: self.disk_read_bytes,
            write_bytes: self.write_bytes,
            resource_fee: self.resource_fee,
        })
    }
}

impl Clone for TransactionExt {
    ghost is_clone = { λ v w. w ≡ v };

    fn clone(&self) -> Result<TransactionExt, AllocError> {
        match self {
            TransactionExt::None => Ok(TransactionExt::None),
            TransactionExt::Soroban(soroban) => Ok(TransactionExt::Soroban(soroban.clone()?)),
        }
    }
}

impl Clone for Transaction {
    ghost is_clone = { λ v w. w ≡ v };

    fn clone(&self) -> Result<Transaction, AllocError> {
        let preconditions = self.preconditions.clone()?;
        let memo = self.memo.clone()?;
        let operations = clone_operations(&self.operations)?;
        let ext = self.ext.clone()?;
        Ok(Transaction {
            source: self.source,
            fee: self.fee,
            seq_num: self.seq_num,
            preconditions,
            memo,
            operations,
            ext,
        })
    }
}

impl Clone for SignedTransaction {
    ghost is_clone = { λ v w. w ≡ v };

    fn clone(&self) -> Result<SignedTransaction, AllocError> {
        let tx = self.tx.clone()?;
        let signatures = clone_signatures(&self.signatures)?;
        Ok(SignedTransaction { tx, signatures })
    }
}

impl Clone for FeeBump {
    ghost is_clone = { λ v w. w ≡ v };

    fn clone(&self) -> Result<FeeBump, AllocError> {
        Ok(FeeBump {
            fee_source: self.fee_source,
            fee: self.fee,
            inner: self.inner.clone()?,
        })
    }
}

impl Clone for SignedFeeBump {
    ghost is_clone = { λ v w. w ≡ v };

    fn clone(&self) -> Result<SignedFeeBump, AllocError> {
        let fee_bump = self.fee_bump.clone()?;
        let signatures = clone_signatures(&self.signatures)?;
        Ok(SignedFeeBump {
            fee_bump,
            signatures,
        })
    }
}

impl Clone for Envelope {
    ghost is_clone = { λ v w. w ≡ v };

    fn clone(&self) -> Result<Envelope, AllocError> {
        match self {
            Envelope::Transaction(signed) => Ok(Envelope::Transaction(signed.clone()?)),
            Envelope::FeeBump(signed) => Ok(Envelope::FeeBump(signed.clone()?)),
        }
    }
}
