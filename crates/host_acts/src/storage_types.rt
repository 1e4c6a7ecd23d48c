//! The types of storage that data is in.

ghost use Rattle.host_acts.specs.StorageTypes.{IsStorageType};

use crate::errors::INVALID_STORAGE_INPUT;
use host_spec::HostErr;
use ledger_types::Durability;

/// Where data is.
#[derive(Clone, Copy)]
pub enum StorageType {
    /// An entry of the ledger, with this durability.
    Ledger(Durability),
    /// Instance storage: the frame's copy of the instance.
    Instance,
}

/// The storage type that a word names: 0 is temporary data, 1 persistent data, 2 instance storage.
pub fn storage_type(kind: u64) -> Result<StorageType, HostErr>
    ensures { IsStorageType result kind }
{
    match kind {
        0 => Ok(StorageType::Ledger(Durability::Temporary)),
        1 => Ok(StorageType::Ledger(Durability::Persistent)),
        2 => Ok(StorageType::Instance),
        _ => Err(INVALID_STORAGE_INPUT),
    }
}
