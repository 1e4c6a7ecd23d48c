//! The keys that a storage records.

ghost use Rattle.std.specs.Prelude.{◌≡◌};
ghost use Rattle.contract_storage.specs.Touched.{stronger as stronger_in};

use crate::access::Access;
use ledger_types::LedgerKey;

/// A key that was accessed, with its strongest access. Write is above Extend, and Extend is above Read.
#[derive(Drop)]
pub struct Touch {
    pub key: LedgerKey,
    pub access: Access,
}

/// How to take back the note of an access.
#[derive(Clone, Copy)]
pub(crate) enum Noted {
    /// The key was touched for the first time.
    First,
    /// The key was touched before, and this was its strongest access.
    Again(Access),
}

/// Returns the stronger of two accesses.
pub(crate) fn stronger(one: Access, other: Access) -> Access
    ensures { result ≡ stronger_in one other }
{
    match one {
        Access::Write => Access::Write,
        Access::Extend => match other {
            Access::Write => Access::Write,
            Access::Extend => Access::Extend,
            Access::Read => Access::Extend,
        },
        Access::Read => other,
    }
}
