//! Reads files of a command and stores its outputs.

ghost use Rattle.std.specs.Prelude.{◌≡◌, [], ◌∷◌, IfErr, IfSome};
ghost use Rattle.command_io.specs.Counts.{NoLower, SameCounts, HasCause};
ghost use Rattle.command_io.specs.Inputs.{content_of};
ghost use Rattle.command_io.specs.Left.{StoresAll};
ghost use Rattle.command_io.specs.Steps.{Gives, GivesExactly, UnlessFault, status_of};
ghost use Rattle.command_io.specs.Views.{file_of, job_of, jobs_of, targets_of};

use crate::{FileArg, OutputFile, Status};
use edge_io::{Blob, EdgeErr, Files, ReadErr, read_whole};
use std::alloc::Global;

/// Reads the bytes of a file.
pub fn read_file<F: Files>(alloc: Global, files: &mut F, file: &FileArg<'_>) -> Result<Blob, Status>
    ensures given { IfSome (F.contents files.old) (λ m. Gives (λ b. b) result (content_of m file.now.name.now)) }
    ensures same { F.contents files.new ≡ F.contents files.old }
    ensures counts { NoLower (F.faults files.old) (F.faults files.new) }
    ensures cause { IfErr result (HasCause (file_of file.now ∷ []) (F.faults files.old) (F.faults files.new)) }
    ensures steady { F.steady files.old
        → IfSome (F.contents files.old) (λ m. UnlessFault (status_of (content_of m file.now.name.now))
        (F.steady files.new × SameCounts (F.faults files.old) (F.faults files.new))) }
    ensures steady_exact { F.steady files.old → IfSome (F.contents files.old) (λ m.
        GivesExactly (λ b. b) result (content_of m file.now.name.now)) }
{
    // Cloned before the call, so that a fault can name the file.
    let name = file.name.clone()?;
    match read_whole(alloc, files, file.option, file.name) {
        Ok(blob) => Ok(blob),
        Err(ReadErr::Fault) => Err(Status::Fault { name }),
        Err(ReadErr::TooLong) => Err(Status::TooLong { name }),
        Err(ReadErr::NoMemory) => Err(Status::NoMemory),
    }
}

/// Stores the bytes of a file.
fn store_file<F: Files>(files: &mut F, store: &OutputFile<'_>) -> Result<(), Status>
    ensures left { StoresAll (status_of result) (job_of store.now ∷ []) (F.contents files.old) (F.contents files.new) }
    ensures counts { NoLower (F.faults files.old) (F.faults files.new) }
    ensures cause { IfErr result (HasCause (file_of store.now.file ∷ []) (F.faults files.old) (F.faults files.new)) }
    ensures steady { F.steady files.old → F.steady files.new × SameCounts (F.faults files.old) (F.faults files.new) }
    ensures steady_exact { F.steady files.old → IfErr result (λ status. status ≡ Status.NoMemory) }
{
    let name = store.file.name.clone()?;
    match files.store(store.file.option, store.file.name, &store.bytes) {
        Ok(()) => Ok(()),
        Err(EdgeErr::Failed) => Err(Status::Fault { name }),
        Err(EdgeErr::NoMemory) => Err(Status::NoMemory),
    }
}

/// Stores the bytes of files in order.
pub fn store_all<F: Files>(files: &mut F, stores: &[OutputFile<'_>]) -> Result<(), Status>
    ensures left { StoresAll (status_of result) (jobs_of stores.now) (F.contents files.old) (F.contents files.new) }
    ensures counts { NoLower (F.faults files.old) (F.faults files.new) }
    ensures cause { IfErr result (HasCause (targets_of stores.now) (F.faults files.old) (F.faults files.new)) }
    ensures steady { F.steady files.old → F.steady files.new × SameCounts (F.faults files.old) (F.faults files.new) }
    ensures steady_exact { F.steady files.old → IfErr result (λ status. status ≡ Status.NoMemory) }
{
    for store in stores {
        store_file(files, store)?;
    }
    Ok(())
}
