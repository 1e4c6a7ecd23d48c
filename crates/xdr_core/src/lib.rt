//! XDR (RFC 4506): items read from a slice or from what is poured, and written to a vector.
//!
//! `Cursor` reads and lends, `Window` reads what a `Pour` pours, `Out` writes. Code that reads from either is generic over
//! `Words`. Each call names the section of the standard that it follows. `xdr_spec` defines what is refused, and why.
#![tactic(auto)]

mod cursor;
mod error;
mod held;
mod out;
mod pour;
mod sizes;
mod source;
mod window;
mod words;

pub use cursor::Cursor;
pub use error::{NoMemory, ReadXdr, Stopped};
pub use held::Held;
pub use out::Out;
pub use pour::Pour;
pub use sizes::add_sizes;
pub use source::Words;
pub use window::Window;
pub use xdr_spec::{Why, XdrErr};
