//! The outcomes of the commands, in terms of the spellings of their files' bytes.

ghost use Rattle.soroban_top.specs.ConflictLaws.{FirstConflictLaw, NoConflictLaw};
ghost use Rattle.soroban_top.specs.ListLaws.{ListAppliedLaw, ListDoneLaw, ListLedgerLaw, ListMalformedLaw, ListNoLedgerLaw};
ghost use Rattle.soroban_top.specs.ListLaws.{ListVerdictsLaw};
ghost use Rattle.soroban_top.specs.Laws.{AllStepsLaw, AppliedLaw, ConflictLaw, DoneLaw, EnvelopeDoneLaw, EnvelopeMalformedLaw};
ghost use Rattle.soroban_top.specs.Laws.{BuildDoneLaw, BuildLaw, BuildMalformedLaw, GenLaw, IncompleteLaw, LedgerDoneLaw};
ghost use Rattle.soroban_top.specs.Laws.{LedgerLaw, LedgerShownLaw, MalformedLaw, MigrateDoneLaw, MigrateLaw, MigrateRefusedLaw};
ghost use Rattle.soroban_top.specs.Laws.{NoLedgerLaw, ScheduleLaw, SetDoneLaw, PlayBackLaw, PlayDoneLaw, PlayLaw};
ghost use Rattle.soroban_top.specs.Laws.{PlayMalformedLaw, PlayThereLaw, PlayUnfitLaw, RecordDoneLaw, RecordLaw, RecordLedgerLaw};
ghost use Rattle.soroban_top.specs.Laws.{RecordMalformedLaw, RecordNoLedgerLaw, SetMalformedLaw, SimulateDoneLaw};
ghost use Rattle.soroban_top.specs.Laws.{SimulateEnforcedLaw, SimulateLaw, SimulateLedgerLaw, SimulateMalformedLaw};
ghost use Rattle.soroban_top.specs.Laws.{SimulateNoLedgerLaw, SimulateVerdictsLaw, StoppedLaw, ValueDoneLaw, ValueMalformedLaw};
ghost use Rattle.soroban_top.specs.Laws.{VerdictsLaw, VetLaw, WholeLaw};

/// `apply`: Ledger is due exactly if the bytes are not the file of a ledger, with reason Xdr if they are refused. If that file is
/// accepted, Verdicts is due exactly if the verdicts' bytes are refused. If these are accepted, too, Malformed is due exactly if
/// the set's bytes are refused. If the schedule's file is accepted or none is given, Conflict is due exactly if they spell a set
/// with this first conflict, and Done exactly if they spell a set without a conflict, for which the schedule is complete, if one
/// is given. Then its outputs over the ledger are stored, and the change log, if it is asked for.
pub fn apply_laws()
    ensures ledger { LedgerLaw }
    ensures no_ledger { NoLedgerLaw }
    ensures verdicts { VerdictsLaw }
    ensures malformed { MalformedLaw }
    ensures conflict { ConflictLaw }
    ensures done { DoneLaw }
    ensures applied { AppliedLaw }
{}

/// `apply` by a schedule: Schedule is due exactly if the schedule's bytes are refused, after the set's and before conflicts are
/// looked for. Incomplete is due exactly if the set has no conflict, and this is the least index at which the schedule is not
/// complete. Otherwise the outputs of its first steps are stored; they are those of the set if all its steps run, as they do if
/// their number is not given.
pub fn schedule_laws()
    ensures schedule { ScheduleLaw }
    ensures incomplete { IncompleteLaw }
    ensures stopped { StoppedLaw }
    ensures whole { WholeLaw }
    ensures all_steps { AllStepsLaw }
{}

/// The conflict that is found in a set is the least one by stage, clusters and key.
pub fn first_conflict_laws()
    ensures found { FirstConflictLaw }
    ensures none { NoConflictLaw }
{}

/// `simulate`: Ledger and Verdicts are due as for `apply`. If both files are accepted, Malformed is due exactly if the envelope's
/// bytes are refused, and Done exactly if they spell an envelope. Then the Soroban data with the footprint that its transaction
/// needs, its result and its success preimage are stored, and the result's codes, the sums and the sizes of the footprint are
/// printed. Every ledger that agrees on the footprint gives the envelope with that footprint this result and preimage.
pub fn simulate_laws()
    ensures ledger { SimulateLedgerLaw }
    ensures no_ledger { SimulateNoLedgerLaw }
    ensures verdicts { SimulateVerdictsLaw }
    ensures malformed { SimulateMalformedLaw }
    ensures done { SimulateDoneLaw }
    ensures stored { SimulateLaw }
    ensures enforced { SimulateEnforcedLaw }
{}

/// `show`: for a set, an envelope or a value, Malformed is due exactly if the bytes are refused, and Done exactly if they spell
/// one. For a ledger, Ledger with reason Xdr is due exactly if the bytes are refused, and Done exactly if they are the file of a
/// ledger.
pub fn show_laws()
    ensures ledger_refused { LedgerShownLaw }
    ensures ledger_done { LedgerDoneLaw }
    ensures set_malformed { SetMalformedLaw }
    ensures set_done { SetDoneLaw }
    ensures envelope_malformed { EnvelopeMalformedLaw }
    ensures envelope_done { EnvelopeDoneLaw }
    ensures value_malformed { ValueMalformedLaw }
    ensures value_done { ValueDoneLaw }
{}

/// `vet` reports the sizes of the module that the bytes encode, or its first flaw.
pub fn vet_law()
    ensures { VetLaw }
{}

/// `migrate`: Ledger with reason Xdr is due exactly if the bytes are refused, and Done exactly if they are the file of a ledger.
/// Then the file of this ledger is stored.
pub fn migrate_laws()
    ensures refused { MigrateRefusedLaw }
    ensures done { MigrateDoneLaw }
    ensures stored { MigrateLaw }
{}

/// `gen` stores the files of a generated set, of a ledger on which it runs and of no verdicts. The line has the numbers of its
/// transactions and stages.
pub fn gen_laws()
    ensures { GenLaw }
{}

/// `build`: Malformed is due exactly if the bytes are refused, and Done exactly if they spell a list of envelopes. Then the set
/// that is built from the list is stored, and the line has the numbers of its transactions, stages and clusters.
pub fn build_laws()
    ensures malformed { BuildMalformedLaw }
    ensures done { BuildDoneLaw }
    ensures stored { BuildLaw }
{}

/// `play`: if the ledger's file is accepted, Malformed is due exactly if the log's bytes are refused, Unfit exactly if they spell
/// a log that does not fit the ledger, at that place, and Done exactly if they spell one that fits it. Then the ledger to which
/// the log leads is stored, and the line has the number of its stages.
pub fn play_laws()
    ensures malformed { PlayMalformedLaw }
    ensures unfit { PlayUnfitLaw }
    ensures done { PlayDoneLaw }
    ensures stored { PlayLaw }
{}

/// `play` of a log that plays between two ledgers, as the log that `apply` stores does: on the file of the old ledger it stores
/// the new one. Backwards, on the file that `apply` stores of the new ledger, it stores the old one.
pub fn play_back_laws()
    ensures there { PlayThereLaw }
    ensures back { PlayBackLaw }
{}

/// `apply-list`: Ledger and Verdicts are due as for `apply`. If both files are accepted, Malformed is due exactly if the list's
/// bytes are refused, and Done exactly if they spell a list of envelopes. Then the outputs of the list over the ledger are
/// stored and printed.
pub fn apply_list_laws()
    ensures ledger { ListLedgerLaw }
    ensures no_ledger { ListNoLedgerLaw }
    ensures verdicts { ListVerdictsLaw }
    ensures malformed { ListMalformedLaw }
    ensures done { ListDoneLaw }
    ensures stored { ListAppliedLaw }
{}

/// `record`: Ledger is due as for `apply`. If the ledger's file is accepted, Malformed is due exactly if the envelope's bytes are
/// refused, and Done exactly if they spell an envelope. Then the entries that are recorded of its transaction are stored, and the
/// lines have their number and whether a demand was caught.
pub fn record_laws()
    ensures ledger { RecordLedgerLaw }
    ensures no_ledger { RecordNoLedgerLaw }
    ensures malformed { RecordMalformedLaw }
    ensures done { RecordDoneLaw }
    ensures stored { RecordLaw }
{}
