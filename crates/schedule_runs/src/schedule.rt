//! Schedules and their codec.

ghost use Rattle.std.specs.Prelude.{IfOk, IfErr};
ghost use Rattle.xdr_spec.specs.Refusal.{Spells};
ghost use Rattle.xdr_core.specs.Reads.{IsValueUnlessMemory, IsRefusal};
ghost use Rattle.schedule_runs.specs.Schedule.{schedule_format, schedule_lawful};
ghost use Rattle.schedule_runs.specs.declared.schedule.Schedule.{Schedule as ScheduleData};

use std::alloc::Global;
use value_types::Items;
use value_xdr::{Xdr, decode};
use xdr_core::{NoMemory, Out, ReadXdr, Words};

/// The numbers of clusters in the order in which their next transactions run.
pub type Order = Items<u32, 4294967295>;

/// The order in which the transactions of a set run (own): for each stage a list of numbers of clusters, counted from 0. Each
/// number stands for the next transaction of its cluster.
#[derive(Drop)]
pub struct Schedule {
    pub stages: Items<Order, 4294967295>,
}

#[tactic(auto, unfolding(crate::specs::Schedule::schedule_format))]
impl Xdr for Schedule {
    ghost format = { schedule_format };

    fn read_parts<W: Words>(alloc: Global, input: &mut W) -> Result<Schedule, ReadXdr> {
        let stages = Items::<Order, 4294967295>::read(alloc, input)?;
        Ok(Schedule { stages })
    }

    fn write_parts(&self, out: &mut Out) -> Result<(), NoMemory> {
        self.stages.write(out)
    }

    fn size(&self) -> u64 {
        self.stages.size()
    }

    ghost lawful = { schedule_lawful };
}

/// Reads the schedule of a file, which has no bytes after it.
pub fn read_schedule(alloc: Global, bytes: &[u8]) -> Result<Schedule, ReadXdr>
    // The bytes are the XDR of the schedule.
    ensures found { IfOk result (λ s. Spells schedule_format s bytes.now) }
    // A schedule with these bytes is read, unless memory runs out.
    ensures only { (s : ScheduleData) → Spells schedule_format s bytes.now → IsValueUnlessMemory s result }
    // Other bytes are rejected, with the offset and reason of the first fault.
    ensures refused { IfErr result (λ e. IsRefusal schedule_format bytes.now e) }
{
    decode::<Schedule>(alloc, bytes)
}
