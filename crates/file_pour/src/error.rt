//! Why no value was read of a file.

ghost use Rattle.std.specs.Prelude.{◌≡◌};
ghost use Rattle.file_pour.specs.declared.error.PouredErr.TheVariants.{NoMemory as OutOfMemory};

use xdr_core::NoMemory;
use xdr_spec::XdrErr;

/// Why no value was read of a file.
#[derive(Clone, Copy, Debug, PartialEq, Eq)]
pub enum PouredErr {
    /// A call failed.
    Fault,
    /// The file has more than 2^30 bytes.
    TooLong,
    /// The bytes are refused.
    Bad(XdrErr),
    /// Memory ran out.
    NoMemory,
}

impl From<NoMemory> for PouredErr {
    ghost from_gives = { λ _ e. e ≡ OutOfMemory };

    fn from(_e: NoMemory) -> PouredErr {
        PouredErr::NoMemory
    }
}
