//! WebAssembly modules: their structure as types, and their binary format, validation and execution as definitions that contracts
//! cite.
//!
//! The crate covers WebAssembly Core 1.0, sections 2 to 5, and the five sign extension instructions.
//! It has no floats, start functions, imports other than functions, or blocks nested deeper than 1,000.
#![tactic(auto)]

mod instructions;
mod items;
mod module;
mod opcodes;
mod types;
mod values;

pub use byte_list::Blob;
pub use instructions::{
    Binary, Body, Comparison, Control, Conversion, Instr, LoadKind, MemArg, Numeric, Plain, Sign,
    StoreKind, Unary,
};
pub use items::Items;
pub use module::{Data, Element, Export, ExportKind, Function, Global, Import, Locals, Module};
pub use opcodes::{ARITHMETIC, COMPARISONS, SIGN_EXTENSIONS};
pub use types::{FuncType, Mutability, ResizableLimits, Signature, TableType, Taken, ValueType};
pub use values::{TrapKind, Value};
