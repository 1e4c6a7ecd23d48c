//! The errors of authorisation.

use host_spec::HostErr;
use value_types::{ScError, ScErrorCode};

/// The address does not prove that it authorises.
pub(crate) const DENIED: HostErr = HostErr::Failed(ScError::Auth(ScErrorCode::InvalidAction));

/// The signature is not valid in this ledger, or ends beyond the furthest ledger that an entry may reach.
pub(crate) const EXPIRED: HostErr = HostErr::Failed(ScError::Auth(ScErrorCode::InvalidInput));

/// The nonce is used already.
pub(crate) const USED_NONCE: HostErr = HostErr::Failed(ScError::Auth(ScErrorCode::ExistingValue));
