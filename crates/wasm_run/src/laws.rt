//! Laws of runs. Each law is the contract of a function with an empty body.

ghost use Rattle.wasm_run.specs.Laws.{EventsFold, NeverBreaks, EachSpends, EnoughAtFirst, EnoughAfterEach, EnoughWhenLater};
ghost use Rattle.wasm_run.specs.Laws.{CountNeverEnds, SameWithMore};
ghost use Rattle.wasm_spec.specs.Sums.{SumsGrow};

/// The outcome of a call with a host follows from the call's events.
pub fn events_fold<W, Q>()
    ensures { EventsFold W Q }
{}

/// A call of an export of a valid module is never broken, with any host.
pub fn never_breaks<W, Q>()
    ensures { NeverBreaks W Q }
{}

/// Each executed instruction raises the spent instructions.
pub fn each_spends()
    ensures { EachSpends }
{}

/// The count of instructions never ends a run that the budget can pay for.
pub fn count_never_ends()
    ensures at_first { EnoughAtFirst }
    ensures after_each { EnoughAfterEach }
    ensures when_later { EnoughWhenLater }
    ensures is_charge { CountNeverEnds }
{}

/// With a host that never lowers the sums, a larger count of instructions does not change a call's outcome.
pub fn same_with_more<W, Q>()
    ensures { SameWithMore W Q }
{}

/// With a host that never lowers the sums, no call lowers them. So sums only grow through nested calls.
pub fn sums_grow<W, Q>()
    ensures { SumsGrow W Q }
{}
