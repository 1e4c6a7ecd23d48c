//! The stages of a set, in their order.

ghost use Rattle.std.specs.Prelude.{◌≡◌, ◌++◌, IfOk, OnOk, map};
ghost use Rattle.tx_xdr.specs.Stages.{component_stage, stages_in, stages_of as stages_of_set};
ghost use Rattle.set_steps.specs.Stages.{stage_of};

use std::alloc::Global;
use tx_xdr::{Component, Phase, Stage, TxSet};
use xdr_core::NoMemory;

/// A stage of a set, lent from the set.
#[derive(Clone, Copy)]
pub enum SetStage<'a> {
    /// A component of a phase, which is a stage of one cluster.
    Component(&'a Component),
    Parallel(&'a Stage),
}

fn push_components<'a>(
    list: &mut Vec<SetStage<'a>>,
    components: &'a [Component],
) -> Result<(), NoMemory>
    ensures { OnOk result (map stage_of list.new.items ≡ map stage_of list.old.items ++ map component_stage components.now) }
{
    for component in components {
        list.push(SetStage::Component(component))?;
    }
    Ok(())
}

fn push_stages<'a>(list: &mut Vec<SetStage<'a>>, stages: &'a [Stage]) -> Result<(), NoMemory>
    ensures { OnOk result (map stage_of list.new.items ≡ map stage_of list.old.items ++ stages.now) }
{
    for stage in stages {
        list.push(SetStage::Parallel(stage))?;
    }
    Ok(())
}

fn push_phase<'a>(list: &mut Vec<SetStage<'a>>, phase: &'a Phase) -> Result<(), NoMemory>
    ensures { OnOk result (map stage_of list.new.items ≡ map stage_of list.old.items ++ stages_in phase.now) }
{
    match phase {
        Phase::Components(components) => push_components(list, components.as_slice()),
        Phase::Parallel { stages, .. } => push_stages(list, stages.as_slice()),
    }
}

/// Lists the stages of a set, phase after phase.
pub fn stages_of(alloc: Global, set: &TxSet) -> Result<Vec<SetStage<'_>>, NoMemory>
    ensures { IfOk result (λ stages. map stage_of stages.items ≡ stages_of_set set.now) }
{
    let mut list = Vec::new(alloc);
    let phases = set.phases.as_slice();
    for phase in phases {
        push_phase(&mut list, phase)?;
    }
    Ok(list)
}
