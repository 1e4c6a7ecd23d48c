//! Transaction sets (`GeneralizedTransactionSet`).

ghost use Rattle.std.specs.Prelude.{◌≡◌};
ghost use Rattle.tx_xdr.specs.Set.{phase_number, phase_type_of, phase_type};

use crate::envelope::Envelope;
use value_types::{Hash, Items};

/// Transactions that run one after the other in a phase of components (`TxSetComponent`, of type 0).
#[derive(Drop)]
pub struct Component {
    /// The fee of each operation, in stroops, if it is less than was offered.
    pub base_fee: Option<i64>,
    pub envelopes: Items<Envelope, 4294967295>,
}

/// Transactions that run one after the other (`DependentTxCluster`).
#[derive(Drop)]
pub struct Cluster {
    pub envelopes: Items<Envelope, 4294967295>,
}

/// Clusters that may run beside each other (`ParallelTxExecutionStage`).
#[derive(Drop)]
pub struct Stage {
    pub clusters: Items<Cluster, 4294967295>,
}

/// The types of phases.
#[derive(Clone, Copy, Debug, PartialEq, Eq)]
pub enum PhaseType {
    Components,
    Parallel,
}

impl PhaseType {
    /// The variant with this number, or `None` if no variant has it (RFC 4506, section 4.3).
    pub fn from_number(number: u32) -> Option<PhaseType>
        ensures { result ≡ phase_type_of number }
    {
        match number {
            0 => Some(PhaseType::Components),
            1 => Some(PhaseType::Parallel),
            _ => None,
        }
    }

    /// The number of the variant (RFC 4506, section 4.3).
    pub fn number(self) -> u32
        ensures { result ≡ phase_number self }
    {
        match self {
            PhaseType::Components => 0,
            PhaseType::Parallel => 1,
        }
    }
}

/// A part of a set (`TransactionPhase`).
#[derive(Drop)]
pub enum Phase {
    /// 0: components that run one after the other.
    Components(Items<Component, 4294967295>),
    /// 1: stages that run one after the other.
    Parallel {
        base_fee: Option<i64>,
        stages: Items<Stage, 4294967295>,
    },
}

impl Phase {
    /// The discriminant of the union (RFC 4506, section 4.15).
    pub fn phase_type(&self) -> PhaseType
        ensures { result ≡ phase_type self.now }
    {
        match self {
            Phase::Components(_) => PhaseType::Components,
            Phase::Parallel { .. } => PhaseType::Parallel,
        }
    }
}

/// A transaction set, of version 1 (`TransactionSetV1`).
#[derive(Drop)]
pub struct TxSet {
    pub previous_ledger_hash: Hash,
    pub phases: Items<Phase, 4294967295>,
}
