//! Errors of reaching a place of a set.

ghost use Rattle.std.specs.Prelude.{◌≡◌};
ghost use Rattle.set_place.specs.declared.error.PlaceErr.TheVariants.{NoMemory as OutOfMemory};

use set_steps::SetConflict;
use xdr_core::NoMemory;

/// Why a place of a set was not reached.
#[derive(Drop)]
pub enum PlaceErr<'a> {
    /// Two clusters of a stage conflict. Nothing ran.
    Conflict(SetConflict<'a>),
    NoMemory,
}

impl<'a> From<NoMemory> for PlaceErr<'a> {
    ghost from_gives = { λ _ e. e ≡ OutOfMemory };

    fn from(_e: NoMemory) -> PlaceErr<'a> {
        PlaceErr::NoMemory
    }
}
