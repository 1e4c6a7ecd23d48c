//! Numbers of calls, and counts of failures.

ghost use Rattle.std.specs.Prelude.{◌≡◌, ◌<◌, ◌+◌, ◌-◌, ◌^◌, ◌↔◌, min, slice_index, Contains, IsTrue};
ghost use Rattle.edge_io.specs.Counts.{ChangesOnlyCount, RaisesOnly};

/// Whether this call is listed as failing. Counts the call.
pub fn is_listed(calls: &mut u64, failing: &[u64]) -> bool
    ensures listed { IsTrue result ↔ Contains failing.now calls.old }
    ensures next { calls.new ≡ min (calls.old + 1) (2 ^ 64 - 1) }
{
    let listed = failing.contains(calls);
    *calls = calls.saturating_add(1);
    listed
}

/// Raises the count of a file option by one failure, up to 2^64 - 1.
pub fn raise(counts: &mut [u64; 8], file: u8)
    requires { file < 8 }
    ensures raised { RaisesOnly file (λ k. slice_index counts.old k) (λ k. slice_index counts.new k) }
    ensures only { ChangesOnlyCount file (λ k. slice_index counts.old k) (λ k. slice_index counts.new k) }
{
    let count = &mut counts[file as usize];
    *count = count.saturating_add(1);
}
