//! The paths of calls and creates in their transaction.

ghost use Rattle.std.specs.Prelude.{◌≡◌, ◌+◌, ◌++◌, [], ◌∷◌, IfOk, IfErr};
ghost use Rattle.host_spec.specs.declared.error.HostErr.TheVariants as ends;

use host_ledger::Frame;
use host_spec::HostErr;
use std::alloc::Global;

/// A path that goes on with a number. Its only error is memory.
pub fn below(path: Vec<u64>, number: u64) -> Result<Vec<u64>, HostErr>
    ensures ok { IfOk result (λ p. p.items ≡ path.items ++ number ∷ []) }
    ensures memory { IfErr result (λ e. e ≡ ends.NoMemory) }
{
    let mut path = path;
    match path.push(number) {
        Ok(()) => Ok(path),
        Err(_) => Err(HostErr::NoMemory),
    }
}

/// Clones a path. Its only error is memory.
fn clone_path(alloc: Global, path: &[u64]) -> Result<Vec<u64>, HostErr>
    ensures ok { IfOk result (λ v. v.items ≡ path.now) }
    ensures memory { IfErr result (λ e. e ≡ ends.NoMemory) }
{
    match path.to_vec(alloc) {
        Ok(clone) => Ok(clone),
        Err(_) => Err(HostErr::NoMemory),
    }
}

/// Counts a call or create that the frame begins, and returns its path. Its only error is memory. A frame that has begun
/// 2^64 - 1 of them begins no more, which counts as out of memory: no run is so long.
pub(crate) fn begin_in(frame: &mut Frame, alloc: Global) -> Result<Vec<u64>, HostErr>
    ensures path { IfOk result (λ path. path.items ≡ frame.old.path.items ++ frame.old.begun ∷ []) }
    ensures count { IfOk result (λ path. frame.new ≡ record frame.old { begun = frame.old.begun + 1 }) }
    ensures err { IfErr result (λ e. frame.new ≡ frame.old) }
    ensures memory { IfErr result (λ e. e ≡ ends.NoMemory) }
{
    let Some(begun) = frame.begun.checked_add(1) else {
        return Err(HostErr::NoMemory);
    };
    match clone_path(alloc, frame.path.as_slice()) {
        Err(error) => Err(error),
        Ok(path) => match below(path, frame.begun) {
            Err(error) => Err(error),
            Ok(path) => {
                frame.begun = begun;
                Ok(path)
            }
        },
    }
}
