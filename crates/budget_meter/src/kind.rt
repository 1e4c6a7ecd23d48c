//! The kinds of cost.

ghost use Rattle.std.specs.Prelude.{◌≡◌};
ghost use Rattle.budget_meter.specs.Kinds.{number_of};

/// A kind of cost, under the network's name and number (`ContractCostType`).
#[derive(Clone, Copy, Debug, PartialEq, Eq)]
pub enum Kind {
    /// The execution of a WebAssembly instruction.
    WasmInsnExec,
    /// Allocated memory, by its bytes.
    MemAlloc,
    /// Copied bytes.
    MemCpy,
    /// Compared bytes.
    MemCmp,
    /// A call of a host function.
    DispatchHostFunction,
    /// A visit of a host object.
    VisitObject,
    /// A value that is written as XDR, by its bytes.
    ValSer,
    /// A value that is read from XDR, by its bytes.
    ValDeser,
    /// A hash, by the hashed bytes.
    ComputeSha256Hash,
    /// The instantiation of a module, by the bytes of its code.
    VmInstantiation,
    /// A call of a contract's function.
    InvokeVmFunction,
}

impl Kind {
    /// The network's number.
    pub fn number(self) -> u32
        ensures { result ≡ number_of self }
    {
        match self {
            Kind::WasmInsnExec => 0,
            Kind::MemAlloc => 1,
            Kind::MemCpy => 2,
            Kind::MemCmp => 3,
            Kind::DispatchHostFunction => 4,
            Kind::VisitObject => 5,
            Kind::ValSer => 6,
            Kind::ValDeser => 7,
            Kind::ComputeSha256Hash => 8,
            Kind::VmInstantiation => 11,
            Kind::InvokeVmFunction => 13,
        }
    }
}
