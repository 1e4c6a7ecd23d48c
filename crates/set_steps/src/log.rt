//! Puts the logs of stages and of sets together.

ghost use Rattle.std.specs.Prelude.{◌≡◌, ◌<◌, ◌^◌, ◌++◌, IfOk, OnOk, length};
ghost use Rattle.set_steps.specs.LoggedLists.{list_if};

use change_log::{Changes, Log, LoggedStage};
use value_types::Items;
use xdr_core::NoMemory;

/// As many lists as a stage of a log can hold.
const MOST_LISTS: usize = 4_294_967_295;

/// As many stages as a log can hold.
const MOST_STAGES: usize = 4_294_967_295;

/// Puts the lists of a stage together. A stage with more than 2^32 - 1 transactions is out of memory.
pub fn logged_stage(lists: Vec<Changes>, end: Changes) -> Result<LoggedStage, NoMemory>
    ensures stage { IfOk result (λ stage. stage ≡ record { transactions = lists.items; end = end }) }
    ensures few { IfOk result (λ _. length lists.items < 2 ^ 32) }
{
    if lists.len() > MOST_LISTS {
        return Err(NoMemory);
    }
    Ok(LoggedStage {
        transactions: Items::from_vec(lists),
        end,
    })
}

/// Adds the log of a stage, if there is one.
pub fn push_stage(log: &mut Vec<LoggedStage>, stage: Option<LoggedStage>) -> Result<(), NoMemory>
    ensures { OnOk result (log.new.items ≡ log.old.items ++ list_if stage) }
{
    match stage {
        None => Ok(()),
        Some(stage) => {
            log.push(stage)?;
            Ok(())
        }
    }
}

/// Puts a log together. A log of more than 2^32 - 1 stages is out of memory.
pub fn log_of(
    old_seq: u32,
    old_close_time: u64,
    new_close_time: u64,
    stages: Vec<LoggedStage>,
) -> Result<Log, NoMemory>
    ensures log { IfOk result (λ log. log ≡ record {
      old_seq = old_seq;
      old_close_time = old_close_time;
      new_close_time = new_close_time;
      stages = stages.items;
    }) }
    ensures few { IfOk result (λ _. length stages.items < 2 ^ 32) }
    ensures numbers { (old_seq < 2 ^ 32) × (old_close_time < 2 ^ 64) × (new_close_time < 2 ^ 64) }
{
    if stages.len() > MOST_STAGES {
        return Err(NoMemory);
    }
    Ok(Log {
        old_seq,
        old_close_time,
        new_close_time,
        stages: Items::from_vec(stages),
    })
}
