//! Whether two ledgers have the same at a key.

ghost use Rattle.std.specs.Prelude.{◌≡◌};
ghost use Rattle.std.specs.Option.{option_copied};
ghost use Rattle.apply_spec.specs.ListRuns.{are_same};

use ledger_spec::Kept;

/// Whether both have the same entry with the same live-until ledger, or both have none.
pub(crate) fn are_same(one: Option<&Kept>, other: Option<&Kept>) -> bool
    ensures { result ≡ are_same (option_copied one.entry) (option_copied other.entry) }
{
    match (one, other) {
        (None, None) => true,
        (Some(a), Some(b)) => a.live_until == b.live_until && a.entry == b.entry,
        (None, Some(_)) | (Some(_), None) => false,
    }
}
