//! What an access finds in a ledger.

ghost use Rattle.std.specs.Prelude.{◌≡◌};
ghost use Rattle.contract_storage.specs.Acts.{sight_seen, seen_in};

use entry_lookup::Found;
use ledger_spec::is_temporary;

/// What an access finds at a key. A live entry is borrowed.
pub(crate) enum Sight<'b> {
    Live(Found<'b>),
    Absent,
    Archived,
}

/// Returns what an access in ledger `n` finds, given the entry at the key.
pub(crate) fn sight_of(n: u32, found: Option<Found<'_>>) -> Sight<'_>
    ensures { sight_seen result ≡ seen_in n found.entry }
{
    match found {
        None => Sight::Absent,
        Some(found) => {
            if n <= found.live_until {
                Sight::Live(found)
            } else if is_temporary(&found.entry.data) {
                Sight::Absent
            } else {
                Sight::Archived
            }
        }
    }
}
