//! The codec of transaction sets.

ghost use Rattle.std.specs.Prelude.{IfOk};
ghost use Rattle.xdr_core.specs.Reads.{Reads};
ghost use Rattle.tx_xdr.specs.Set.{component_format, component_lawful, cluster_format, cluster_lawful, stage_format};
ghost use Rattle.tx_xdr.specs.Set.{stage_lawful, phase_type_format, phase_type_lawful, phase_arms, phase_format, phase_lawful};
ghost use Rattle.tx_xdr.specs.Set.{set_format, set_lawful};

use crate::envelope::Envelope;
use crate::set::{Cluster, Component, Phase, PhaseType, Stage, TxSet};
use std::alloc::Global;
use value_types::{Hash, Items};
use value_xdr::{Xdr, named, read_head};
use xdr_core::{NoMemory, Out, ReadXdr, Words, add_sizes};

/// The number of the only type of components (TXSET_COMP_TXS_MAYBE_DISCOUNTED_FEE).
const MAYBE_DISCOUNTED_FEE: u32 = 0;
/// The version of a set.
const VERSION: u32 = 1;

#[tactic(auto, unfolding(crate::specs::Set::component_format, xdr_core::specs::Sizes::capped))]
impl Xdr for Component {
    ghost format = { component_format };

    fn read_parts<W: Words>(alloc: Global, input: &mut W) -> Result<Component, ReadXdr> {
        read_head(input, MAYBE_DISCOUNTED_FEE)?;
        let base_fee = Option::<i64>::read(alloc, input)?;
        let envelopes = Items::<Envelope, 4294967295>::read(alloc, input)?;
        Ok(Component {
            base_fee,
            envelopes,
        })
    }

    fn write_parts(&self, out: &mut Out) -> Result<(), NoMemory> {
        out.put_u32(MAYBE_DISCOUNTED_FEE)?;
        self.base_fee.write(out)?;
        self.envelopes.write(out)
    }

    fn size(&self) -> u64 {
        add_sizes(self.base_fee.size(), self.envelopes.size()).saturating_add(4)
    }

    ghost lawful = { component_lawful };
}

#[tactic(auto, unfolding(crate::specs::Set::cluster_format, xdr_core::specs::Sizes::capped))]
impl Xdr for Cluster {
    ghost format = { cluster_format };

    fn read_parts<W: Words>(alloc: Global, input: &mut W) -> Result<Cluster, ReadXdr> {
        let envelopes = Items::<Envelope, 4294967295>::read(alloc, input)?;
        Ok(Cluster { envelopes })
    }

    fn write_parts(&self, out: &mut Out) -> Result<(), NoMemory> {
        self.envelopes.write(out)
    }

    fn size(&self) -> u64 {
        self.envelopes.size()
    }

    ghost lawful = { cluster_lawful };
}

#[tactic(auto, unfolding(crate::specs::Set::stage_format, xdr_core::specs::Sizes::capped))]
impl Xdr for Stage {
    ghost format = { stage_format };

    fn read_parts<W: Words>(alloc: Global, input: &mut W) -> Result<Stage, ReadXdr> {
        let clusters = Items::<Cluster, 4294967295>::read(alloc, input)?;
        Ok(Stage { clusters })
    }

    fn write_parts(&self, out: &mut Out) -> Result<(), NoMemory> {
        self.clusters.write(out)
    }

    fn size(&self) -> u64 {
        self.clusters.size()
    }

    ghost lawful = { stage_lawful };
}

#[tactic(auto, unfolding(crate::specs::Set::phase_type_format, xdr_core::specs::Sizes::capped))]
impl Xdr for PhaseType {
    ghost format = { phase_type_format };

    fn read_parts<W: Words>(_alloc: Global, input: &mut W) -> Result<PhaseType, ReadXdr> {
        let place = input.place();
        named(PhaseType::from_number(input.u32()?), place)
    }

    fn write_parts(&self, out: &mut Out) -> Result<(), NoMemory> {
        out.put_u32(self.number())
    }

    fn size(&self) -> u64 {
        4
    }

    ghost lawful = { phase_type_lawful };
}

#[tactic(auto, unfolding(crate::specs::Set::phase_format))]
fn read_parallel<W: Words>(alloc: Global, input: &mut W) -> Result<Phase, ReadXdr>
    ensures value { Reads (phase_arms PhaseType.Parallel).read (W.seen input.old) (W.seen input.new) result }
    ensures fits { IfOk result phase_format.fits }
{
    let base_fee = Option::<i64>::read(alloc, input)?;
    let stages = Items::<Stage, 4294967295>::read(alloc, input)?;
    Ok(Phase::Parallel { base_fee, stages })
}

#[tactic(auto, unfolding(crate::specs::Set::phase_format))]
fn read_arm<W: Words>(alloc: Global, input: &mut W, phase_type: PhaseType) -> Result<Phase, ReadXdr>
    ensures value { Reads (phase_arms phase_type).read (W.seen input.old) (W.seen input.new) result }
    ensures fits { IfOk result phase_format.fits }
{
    match phase_type {
        PhaseType::Components => {
            let components = Items::<Component, 4294967295>::read(alloc, input)?;
            Ok(Phase::Components(components))
        }
        PhaseType::Parallel => read_parallel(alloc, input),
    }
}

#[tactic(auto, unfolding(crate::specs::Set::phase_format, crate::specs::Set::phase_type_format, xdr_core::specs::Sizes::capped))]
impl Xdr for Phase {
    ghost format = { phase_format };

    fn read_parts<W: Words>(alloc: Global, input: &mut W) -> Result<Phase, ReadXdr> {
        let phase_type = PhaseType::read(alloc, input)?;
        read_arm(alloc, input, phase_type)
    }

    fn write_parts(&self, out: &mut Out) -> Result<(), NoMemory> {
        self.phase_type().write(out)?;
        match self {
            Phase::Components(components) => components.write(out),
            Phase::Parallel { base_fee, stages } => {
                base_fee.write(out)?;
                stages.write(out)
            }
        }
    }

    fn size(&self) -> u64 {
        let body = match self {
            Phase::Components(components) => components.size(),
            Phase::Parallel { base_fee, stages } => add_sizes(base_fee.size(), stages.size()),
        };
        add_sizes(self.phase_type().size(), body)
    }

    ghost lawful = { phase_lawful };
}

#[tactic(auto, unfolding(crate::specs::Set::set_format, xdr_core::specs::Sizes::capped))]
impl Xdr for TxSet {
    ghost format = { set_format };

    fn read_parts<W: Words>(alloc: Global, input: &mut W) -> Result<TxSet, ReadXdr> {
        read_head(input, VERSION)?;
        let previous_ledger_hash = Hash::read(alloc, input)?;
        let phases = Items::<Phase, 4294967295>::read(alloc, input)?;
        Ok(TxSet {
            previous_ledger_hash,
            phases,
        })
    }

    fn write_parts(&self, out: &mut Out) -> Result<(), NoMemory> {
        out.put_u32(VERSION)?;
        self.previous_ledger_hash.write(out)?;
        self.phases.write(out)
    }

    fn size(&self) -> u64 {
        add_sizes(self.previous_ledger_hash.size(), self.phases.size()).saturating_add(4)
    }

    ghost lawful = { set_lawful };
}
