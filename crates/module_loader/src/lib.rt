//! Loading of modules: from bytes to a valid module whose imports are linked with the host interface.
#![tactic(auto)]

mod error;
mod laws;
mod linked;
mod loading;

pub use error::LoadErr;
pub use laws::{loaded_is_exact, module_of_is_exact};
pub use linked::LinkedModule;
pub use loading::{link, load};
