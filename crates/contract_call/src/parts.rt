//! Which part of the program answers a call of a host function.

ghost use Rattle.contract_call.specs.Parts.{IsPart};

use host_interface::HostImport;
use host_values::words_taken;

/// Which part of the program answers a call of a host function.
#[derive(Clone, Copy, Debug, PartialEq, Eq)]
pub(crate) enum Part {
    /// Over values alone.
    Values,
    /// Over the ledger and the running frame.
    Ledger,
    Upload,
    Auth,
    AuthForArgs,
    Call,
    TryCall,
    Create,
    /// A create with constructor arguments.
    Construct,
}

/// The part that answers a call of a host function.
#[tactic(auto, using(crate::proofs::Dividing::others_are_over_ledger))]
pub(crate) fn part_of(import: HostImport) -> Part
    ensures { IsPart result «import» }
{
    if words_taken(import).is_some() {
        return Part::Values;
    }
    match import {
        HostImport::UploadWasm => Part::Upload,
        HostImport::RequireAuth => Part::Auth,
        HostImport::RequireAuthForArgs => Part::AuthForArgs,
        HostImport::Call => Part::Call,
        HostImport::TryCall => Part::TryCall,
        HostImport::CreateContract => Part::Create,
        HostImport::CreateContractWithConstructor => Part::Construct,
        _ => Part::Ledger,
    }
}
