//! The lines that show a transaction set or one envelope.

ghost use Rattle.std.specs.Prelude.{◌≡◌, ◌++◌, map, codes, OnOk, IfOk};
ghost use Rattle.tx_xdr.specs.Stages.{component_stage, stages_in, stages_of};
ghost use Rattle.show_lines.specs.SetLines.{cluster_lines, envelope_line, envelope_line_at, numbered, operation_name, set_lines};
ghost use Rattle.show_lines.specs.SetLines.{stage_lines};
ghost use Rattle.show_lines.specs.Parts.{part_of};

use std::alloc::{AllocError, Global};
use text_lines::{push_number, push_signed};
use tx_xdr::{Cluster, Component, Envelope, Operation, Phase, Stage, TxSet};

/// A stage of a set, or a component, which is a stage of one cluster.
#[derive(Clone, Copy)]
enum Part<'a> {
    Component(&'a Component),
    Stage(&'a Stage),
}

/// The lines of a set, one for each transaction in order: the number of its stage in the whole set, of its cluster in the stage,
/// its index in the cluster, each from 0; the number of its first operation, or `none`; and its sequence number. Of a fee bump
/// the last two are its inner transaction's.
pub fn set_lines(alloc: Global, set: &TxSet) -> Result<Vec<u8>, AllocError>
    ensures { IfOk result (λ v. v.items ≡ set_lines set.now) }
{
    let parts = parts_of(alloc, set)?;
    let mut lines = Vec::new(alloc);
    push_parts(&mut lines, &parts)?;
    Ok(lines)
}

/// The line of a transaction that stands alone.
pub fn envelope_line(alloc: Global, envelope: &Envelope) -> Result<Vec<u8>, AllocError>
    ensures { IfOk result (λ v. v.items ≡ envelope_line envelope.now) }
{
    let mut line = Vec::new(alloc);
    push_envelope(&mut line, 0, 0, 0, envelope)?;
    Ok(line)
}

fn parts_of<'a>(alloc: Global, set: &'a TxSet) -> Result<Vec<Part<'a>>, AllocError>
    ensures { IfOk result (λ v. map part_of v.items ≡ stages_of set.now) }
{
    let mut parts = Vec::new(alloc);
    for phase in set.phases.as_slice() {
        push_phase(&mut parts, phase)?;
    }
    Ok(parts)
}

fn push_phase<'a>(parts: &mut Vec<Part<'a>>, phase: &'a Phase) -> Result<(), AllocError>
    ensures { OnOk result (map part_of parts.new.items ≡ map part_of parts.old.items ++ stages_in phase.now) }
{
    match phase {
        Phase::Components(components) => push_components(parts, components.as_slice()),
        Phase::Parallel { stages, .. } => push_stages(parts, stages.as_slice()),
    }
}

fn push_components<'a>(
    parts: &mut Vec<Part<'a>>,
    components: &'a [Component],
) -> Result<(), AllocError>
    ensures { OnOk result (map part_of parts.new.items ≡ map part_of parts.old.items ++ map component_stage components.now) }
{
    for component in components {
        parts.push(Part::Component(component))?;
    }
    Ok(())
}

fn push_stages<'a>(parts: &mut Vec<Part<'a>>, stages: &'a [Stage]) -> Result<(), AllocError>
    ensures { OnOk result (map part_of parts.new.items ≡ map part_of parts.old.items ++ stages.now) }
{
    for stage in stages {
        parts.push(Part::Stage(stage))?;
    }
    Ok(())
}

/// The lines of stages, numbered from 0.
fn push_parts(lines: &mut Vec<u8>, parts: &[Part<'_>]) -> Result<(), AllocError>
    ensures { OnOk result (lines.new.items ≡ lines.old.items ++ numbered stage_lines 0 (map part_of parts.now)) }
{
    for (stage, part) in parts.iter().enumerate() {
        push_part(lines, stage as u64, part)?;
    }
    Ok(())
}

fn push_part(lines: &mut Vec<u8>, stage: u64, part: &Part<'_>) -> Result<(), AllocError>
    ensures { OnOk result (lines.new.items ≡ lines.old.items ++ stage_lines stage (part_of part.now)) }
{
    match part {
        Part::Component(component) => {
            push_envelopes(lines, stage, 0, component.envelopes.as_slice())
        }
        Part::Stage(clusters) => push_clusters(lines, stage, clusters.clusters.as_slice()),
    }
}

fn push_clusters(lines: &mut Vec<u8>, stage: u64, clusters: &[Cluster]) -> Result<(), AllocError>
    ensures { OnOk result (lines.new.items ≡ lines.old.items ++ numbered (cluster_lines stage) 0 clusters.now) }
{
    for (number, cluster) in clusters.iter().enumerate() {
        push_envelopes(lines, stage, number as u64, cluster.envelopes.as_slice())?;
    }
    Ok(())
}

fn push_envelopes(
    lines: &mut Vec<u8>,
    stage: u64,
    cluster: u64,
    envelopes: &[Envelope],
) -> Result<(), AllocError>
    ensures { OnOk result (lines.new.items ≡ lines.old.items ++ numbered (envelope_line_at stage cluster) 0 envelopes.now) }
{
    for (index, envelope) in envelopes.iter().enumerate() {
        push_envelope(lines, stage, cluster, index as u64, envelope)?;
    }
    Ok(())
}

fn push_envelope(
    lines: &mut Vec<u8>,
    stage: u64,
    cluster: u64,
    index: u64,
    envelope: &Envelope,
) -> Result<(), AllocError>
    ensures { OnOk result (lines.new.items ≡ lines.old.items ++ envelope_line_at stage cluster index envelope.now) }
{
    push_number(lines, stage, b" ")?;
    push_number(lines, cluster, b" ")?;
    push_number(lines, index, b" ")?;
    let tx = envelope.transaction();
    push_operation(lines, tx.operations.as_slice())?;
    push_signed(lines, tx.seq_num, b"\n")
}

fn push_operation(lines: &mut Vec<u8>, operations: &[Operation]) -> Result<(), AllocError>
    ensures { OnOk result (lines.new.items ≡ lines.old.items ++ operation_name operations.now ++ codes " ") }
{
    match operations {
        [] => lines.extend_from_slice(b"none "),
        [first, ..] => push_number(lines, first.body.kind().number() as u64, b" "),
    }
}
