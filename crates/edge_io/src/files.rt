//! The files of a command.

ghost use Rattle.std.specs.Prelude.{◌≡◌, ◌<◌, ◌≤◌, ◌^◌, ◌-◌, ℕ, length, IsSome, IfOk, OnOk, OnErr, IsOk};
ghost use Rattle.edge_io.specs.Contents.{Contents, IsThere, Reads, Stores};
ghost use Rattle.edge_io.specs.Counts.{ChangesOnlyCount, Rose, OnFailed};

use crate::{EdgeErr, Failed, Word};

/// Files by name. Each call names the file option of the command that it serves, from 0 to 7, and its failures are counted for
/// this option.
pub trait Files {
    /// The bytes of each name, if they are known.
    ghost contents: { Self → Contents };

    /// The number of failed calls for a file option.
    ghost faults: { Self → ℕ → ℕ };

    /// No call fails except a piece of a missing file.
    ghost steady: { Self → Type 0 };

    /// The number of failed calls for a file option, at most 2^64 - 1.
    fn faults(&self, file: u8) -> u64
        requires { file < 8 }
        ensures { result ≡ faults self.now file };

    /// Copies bytes of a file from an offset into the start of the buffer, and returns their number. The number is 0 only at or
    /// past the file's end, or for an empty buffer. Returns Failed if no file has this name.
    fn piece(&mut self, file: u8, name: &Word, at: u64, buf: &mut [u8]) -> Result<usize, Failed>
        requires { file < 8 }

        ensures within { IfOk result (λ n. n ≤ length buf.new) }
        ensures read { Reads (contents self.old) name.now at buf.new result }
        ensures same { contents self.new ≡ contents self.old }

        ensures counts { ChangesOnlyCount file (faults self.old) (faults self.new) }
        ensures cause { OnErr result (Rose (faults self.old file) (faults self.new file)) }
        ensures steady { steady self.old → IsThere (contents self.old) name.now →
            IsOk result × steady self.new × (faults self.new file ≡ faults self.old file) };

    /// Replaces the bytes of a name. At Failed the name holds a prefix of the new bytes or what it held; at NoMemory it holds
    /// what it held.
    fn store(&mut self, file: u8, name: &Word, bytes: &[u8]) -> Result<(), EdgeErr>
        requires { file < 8 }

        ensures stored { Stores result name.now bytes.now (contents self.old) (contents self.new) }

        ensures counts { ChangesOnlyCount file (faults self.old) (faults self.new) }
        ensures cause { OnFailed result (Rose (faults self.old file) (faults self.new file)) }
        ensures steady { steady self.old →
            OnFailed result ⊥ × steady self.new × (faults self.new file ≡ faults self.old file) };

    /// The content of a steady object is known.
    ghost steady_tells: { (f : Self) → steady f → IsSome (contents f) };

    /// The counts of a steady object can rise.
    ghost steady_below: { (f : Self) (file : ℕ) → steady f → faults f file < 2 ^ 64 - 1 };
}
