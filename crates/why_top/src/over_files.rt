//! From a request to the lines: reads the files, and explains what they hold.

ghost use Rattle.std.specs.Prelude.{◌≡◌, [], ◌∷◌, IfOk, IfErr, IfSome, IsTrue};
ghost use Rattle.ledger_spec.specs.LedgerFile.{are_settings, has_next};
ghost use Rattle.edge_io.specs.Contents.{IsThere};
ghost use Rattle.why_top.specs.Counts.{AreThere, HasCause, IsNoFault, NoLower, SameCounts, file, files_of, option_of};
ghost use Rattle.why_top.specs.Files.{ExplainsFiles, ExplainsTarget, ExplainsEnvelope, ExplainsPlace};
ghost use Rattle.why_top.specs.Refused.{IsRefused, IsRefusedTarget};
ghost use Rattle.why_words.specs.declared.request.Target.TheVariants as targets;

use crate::error::WhyErr;
use crate::explaining::explain;
use crate::placing::explain_place;
use crate::reading::{SET, TX, read_ledger, read_spelled, read_verdicts};
use edge_io::Files;
use ledger_file::Ledger;
use ledger_types::Verdicts;
use set_place::Place;
use std::alloc::Global;
use tx_xdr::{Envelope, TxSet};
use why_words::{Request, Target};

/// Reads and checks the files of a request, and makes the lines of the transaction that it names.
pub fn explain_files<F: Files>(
    alloc: Global,
    files: &mut F,
    request: &Request,
) -> Result<Vec<u8>, WhyErr>
    ensures explains { IfSome (F.contents files.old) (λ m. IfOk result (λ v. ExplainsFiles request.now m v.items)) }
    // A refusal says what is wrong with the first file that is refused, or with the place. Only a fault and NoMemory may come
    // where lines are due.
    ensures refused { IfSome (F.contents files.old) (λ m. IfErr result (IsRefused request.now m)) }
    // A fault has the name of a file whose count of failed calls rose. The words are not refused.
    ensures cause { IfErr result (HasCause (files_of request.now) (F.faults files.old) (F.faults files.new)) }
    // On steady files that are there no call fails: no refusal is a fault, and no count changes.
    ensures steady { F.steady files.old → AreThere (F.contents files.old) (files_of request.now) →
        IfErr result IsNoFault × F.steady files.new × SameCounts (F.faults files.old) (F.faults files.new) }
    ensures counts { NoLower (F.faults files.old) (F.faults files.new) }
    ensures same { F.contents files.new ≡ F.contents files.old }
{
    let ledger = read_ledger(alloc, files, &request.ledger)?;
    let verdicts = read_verdicts(alloc, files, &request.verdicts)?;
    explain_target(alloc, files, request, request.target, ledger, &verdicts)
}

/// The lines of the transaction that is this target, over the ledger, with the verdicts.
fn explain_target<F: Files>(
    alloc: Global,
    files: &mut F,
    request: &Request,
    target: Target,
    ledger: Ledger,
    verdicts: &Verdicts,
) -> Result<Vec<u8>, WhyErr>
    requires settings { IsTrue (are_settings ledger.header.settings) }
    requires next { IsTrue (has_next ledger.header) }
    ensures explains { IfSome (F.contents files.old) (λ m. IfOk result (λ v.
        ExplainsTarget target request.now m ledger.header ledger.entries verdicts.now v.items)) }
    ensures refused { IfSome (F.contents files.old) (λ m. IfErr result (IsRefusedTarget target request.now m)) }
    ensures cause { IfErr result (HasCause (file (option_of target) request.now.file ∷ [])
        (F.faults files.old) (F.faults files.new)) }
    ensures steady { F.steady files.old → IsThere (F.contents files.old) request.now.file →
        IfErr result IsNoFault × F.steady files.new × SameCounts (F.faults files.old) (F.faults files.new) }
    ensures counts { NoLower (F.faults files.old) (F.faults files.new) }
    ensures same { F.contents files.new ≡ F.contents files.old }
{
    match target {
        Target::Envelope => of_envelope(alloc, files, request, &ledger, verdicts),
        Target::InSet(place) => of_place(alloc, files, request, place, ledger, verdicts),
    }
}

/// The lines of the envelope.
fn of_envelope<F: Files>(
    alloc: Global,
    files: &mut F,
    request: &Request,
    ledger: &Ledger,
    verdicts: &Verdicts,
) -> Result<Vec<u8>, WhyErr>
    requires settings { IsTrue (are_settings ledger.now.header.settings) }
    requires next { IsTrue (has_next ledger.now.header) }
    ensures explains { IfSome (F.contents files.old) (λ m. IfOk result (λ v.
        ExplainsEnvelope request.now m ledger.now.header ledger.now.entries verdicts.now v.items)) }
    ensures refused { IfSome (F.contents files.old) (λ m. IfErr result (IsRefusedTarget targets.Envelope request.now m)) }
    ensures cause { IfErr result (HasCause (file 0 request.now.file ∷ []) (F.faults files.old) (F.faults files.new)) }
    ensures steady { F.steady files.old → IsThere (F.contents files.old) request.now.file →
        IfErr result IsNoFault × F.steady files.new × SameCounts (F.faults files.old) (F.faults files.new) }
    ensures counts { NoLower (F.faults files.old) (F.faults files.new) }
    ensures same { F.contents files.new ≡ F.contents files.old }
{
    let envelope: Envelope = read_spelled(alloc, files, TX, &request.file, request.base64)?;
    let lines = explain(
        alloc,
        ledger,
        verdicts,
        &envelope,
        request.close_time,
        request.form,
    )?;
    Ok(lines)
}

/// The lines of the transaction at a place of the set.
fn of_place<F: Files>(
    alloc: Global,
    files: &mut F,
    request: &Request,
    place: Place,
    ledger: Ledger,
    verdicts: &Verdicts,
) -> Result<Vec<u8>, WhyErr>
    requires settings { IsTrue (are_settings ledger.header.settings) }
    requires next { IsTrue (has_next ledger.header) }
    ensures explains { IfSome (F.contents files.old) (λ m. IfOk result (λ v.
        ExplainsPlace place request.now m ledger.header ledger.entries verdicts.now v.items)) }
    ensures refused { IfSome (F.contents files.old) (λ m. IfErr result (IsRefusedTarget (targets.InSet place) request.now m)) }
    ensures cause { IfErr result (HasCause (file 3 request.now.file ∷ []) (F.faults files.old) (F.faults files.new)) }
    ensures steady { F.steady files.old → IsThere (F.contents files.old) request.now.file →
        IfErr result IsNoFault × F.steady files.new × SameCounts (F.faults files.old) (F.faults files.new) }
    ensures counts { NoLower (F.faults files.old) (F.faults files.new) }
    ensures same { F.contents files.new ≡ F.contents files.old }
{
    let set: TxSet = read_spelled(alloc, files, SET, &request.file, request.base64)?;
    explain_place(
        alloc,
        ledger,
        verdicts,
        &set,
        request.close_time,
        place,
        request.form,
    )
}
