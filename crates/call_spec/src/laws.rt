//! Laws of the definitions. Each law is the contract of a function with an empty body.

ghost use Rattle.host_spec.specs.Answers.{Answer};
ghost use Rattle.call_spec.specs.Changed.{PutLaw, DeleteLaw, MakeLaw, ExtendLaw};
ghost use Rattle.call_spec.specs.Folding.{FoldLaw};
ghost use Rattle.call_spec.specs.Laws.{LocalLaw, LocalFromLaw, StopLaw, EndToEndLaw, WrittenLaw, ReadOnlyLaw, KeptLaw};
ghost use Rattle.call_spec.specs.Laws.{KeptFromLaw, NeverArchivedLaw, SumsGrowLaw, FrameLaw, EachHasRule};

/// What a run does depends on the entries at declared keys alone, up to its first undeclared access.
pub fn runs_are_local()
    ensures local { LocalLaw }
    ensures local_from { LocalFromLaw }
    ensures stopped { StopLaw }
    ensures end_to_end { EndToEndLaw }
{}

/// At a key that a run does not write it leaves all but the entry's life.
pub fn runs_keep_what_they_do_not_write()
    ensures written { WrittenLaw }
    ensures read_only { ReadOnlyLaw }
{}

/// A run leaves each entry at its own key, each life in 32 bits and each code at its hash.
pub fn runs_keep_entries_well()
    ensures kept { KeptLaw }
    ensures kept_from { KeptFromLaw }
{}

/// A run whose accesses are all declared meets no archived entry, if no declared key is archived.
pub fn runs_meet_no_archived_entry()
    ensures { NeverArchivedLaw }
{}

/// A frame's run lowers no sum of the budget, whatever it calls.
pub fn frames_lower_no_sums()
    ensures { SumsGrowLaw }
{}

/// What becomes of an operation depends on the entries at its declared keys alone. All other entries stay as they were.
pub fn operations_are_framed()
    ensures { FrameLaw }
{}

/// Each function of the host interface has a rule, over the world or over values.
pub fn functions_have_rules()
    ensures { EachHasRule }
{}

/// The run of a frame's code is a run whose imports the host answers.
pub fn runs_fold()
    ensures { FoldLaw }
{}

/// Accesses change the ledger's map as puts, deletes, makes and extensions do.
pub fn accesses_change_the_map()
    ensures put { PutLaw Answer }
    ensures put_alone { PutLaw (Unit {0}) }
    ensures delete { DeleteLaw }
    ensures make { MakeLaw }
    ensures extend { ExtendLaw }
{}
