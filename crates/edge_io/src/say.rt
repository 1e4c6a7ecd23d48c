//! The command's output.

ghost use Rattle.std.specs.Prelude.{◌≡◌, ◌<◌, ◌≤◌, ◌^◌, ◌-◌, ℕ, List, Option, IsSome};
ghost use Rattle.edge_io.specs.Text.{Says};
ghost use Rattle.edge_io.specs.Counts.{Rose, OnFailed};

use crate::EdgeErr;

/// An output: a text that grows at its end.
pub trait Say {
    /// The text so far, if it is known.
    ghost text: { Self → Option (List ℕ) };

    /// The number of failed calls.
    ghost faults: { Self → ℕ };

    /// No call fails.
    ghost steady: { Self → Type 0 };

    /// The number of failed calls, at most 2^64 - 1.
    fn faults(&self) -> u64
        ensures { result ≡ faults self.now };

    /// Appends the bytes: all of them at Ok, a prefix at Failed, none at NoMemory.
    fn say(&mut self, bytes: &[u8]) -> Result<(), EdgeErr>
        ensures said { Says result bytes.now (text self.old) (text self.new) }

        ensures counts { faults self.old ≤ faults self.new }
        ensures cause { OnFailed result (Rose (faults self.old) (faults self.new)) }
        ensures steady { steady self.old →
            OnFailed result ⊥ × steady self.new × (faults self.new ≡ faults self.old) };

    /// The text of a steady object is known.
    ghost steady_tells: { (s : Self) → steady s → IsSome (text s) };

    /// The count of a steady object can rise.
    ghost steady_below: { (s : Self) → steady s → faults s < 2 ^ 64 - 1 };
}
