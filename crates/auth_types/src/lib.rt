//! Authorisation entries of contract transactions with their codecs (the Stellar XDR files, under RFC 4506).
#![tactic(auto)]

mod auth_entry;
mod cloning;
mod credentials;
mod equality;
mod invocation;
mod invocation_codec;
mod payload;
mod reading;
mod writing;

pub use auth_entry::AuthEntry;
pub use credentials::{AddressCredentials, Credentials, CredentialsType};
pub use invocation::{Invocation, Invocations};
pub use payload::payload_hash;
