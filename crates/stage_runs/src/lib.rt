//! What a transaction set does to a map of all entries, and the laws of its clusters and stages. The effect of one
//! transaction is a parameter of these definitions.
#![tactic(auto)]

ghost use Rattle.stage_runs.specs.Laws.{FrameLaw, ElsewhereLaw, PartsLaw, OwnPartsLaw, MovedLaw, OrdersLaw, CompleteLaw};
ghost use Rattle.stage_runs.specs.Laws.{ClusterPendingLaw, StagePendingLaw, AnyPendingLaw, SetByPartsLaw, StoppedLaw};
ghost use Rattle.stage_runs.specs.Laws.{EnforcedLaw, ConflictLaw, ShownLaw, OwnsLaw};

use ledger_spec::Kept;
use ledger_types::LedgerKey;

/// The entry at a key after a transaction, or `None` if the transaction deleted it.
#[derive(Drop)]
pub struct Change {
    pub key: LedgerKey,
    pub after: Option<Kept>,
}

/// An extension of an entry's life to at least this ledger.
#[derive(Drop)]
pub struct Extension {
    pub key: LedgerKey,
    pub live_until: u32,
}

/// A cluster's run depends on the entries at its declared keys alone, and changes only those declared read-write.
pub fn cluster_frame()
    ensures frame { FrameLaw }
    ensures elsewhere { ElsewhereLaw }
{}

/// A stage without a conflict gives the same if each cluster runs on a part of the map.
pub fn stage_by_parts()
    ensures parts { PartsLaw }
    ensures own_parts { OwnPartsLaw }
    ensures moved { MovedLaw }
{}

/// A stage without a conflict gives the same in any order that keeps the order of each cluster.
pub fn stage_in_any_order()
    ensures any { OrdersLaw }
    ensures complete { CompleteLaw }
{}

/// The key of a pending extension has an entry, and was not declared read-write since.
pub fn pending_is_there()
    ensures cluster { ClusterPendingLaw }
    ensures stage { StagePendingLaw }
    ensures any { AnyPendingLaw }
{}

/// Sets without a conflict give the same by parts, and by schedules that stop anywhere.
pub fn sets_in_any_order()
    ensures parts { SetByPartsLaw }
    ensures stopped { StoppedLaw }
{}

/// The effects at declared keys of a run over the whole map depend on those keys alone, if the run does.
pub fn enforced_is_framed()
    ensures { EnforcedLaw }
{}

/// The two definitions of a stage without a conflict agree.
pub fn conflict_by_indices()
    ensures { ConflictLaw }
{}

/// What a transaction sees of a part, and what a part owns while its cluster runs.
pub fn part_while_running()
    ensures shown { ShownLaw }
    ensures owns { OwnsLaw }
{}
