//! The terms: the cost of each kind.

ghost use Rattle.std.specs.Prelude.{◌≡◌};
ghost use Rattle.budget_meter.specs.Costs.{terms_of};

use crate::kind::Kind;

/// A cost that grows with an input: `constant`, and `linear` for each 128 units of the input.
#[derive(Clone, Copy, Debug, PartialEq, Eq)]
pub struct LinearCost {
    pub constant: u32,
    pub linear: u32,
}

/// The cost of a charge of one kind.
#[derive(Clone, Copy, Debug, PartialEq, Eq)]
pub struct KindTerms {
    /// In instructions.
    pub instructions: LinearCost,
    /// In bytes of memory.
    pub memory: LinearCost,
}

/// The cost of a charge of each kind.
#[derive(Clone, Copy, Debug, PartialEq, Eq)]
pub struct Terms {
    pub wasm_insn_exec: KindTerms,
    pub mem_alloc: KindTerms,
    pub mem_cpy: KindTerms,
    pub mem_cmp: KindTerms,
    pub dispatch_host_function: KindTerms,
    pub visit_object: KindTerms,
    pub val_ser: KindTerms,
    pub val_deser: KindTerms,
    pub compute_sha256_hash: KindTerms,
    pub vm_instantiation: KindTerms,
    pub invoke_vm_function: KindTerms,
}

impl Terms {
    /// The terms of one kind.
    pub fn of(&self, kind: Kind) -> KindTerms
        ensures { result ≡ terms_of self.now kind }
    {
        match kind {
            Kind::WasmInsnExec => self.wasm_insn_exec,
            Kind::MemAlloc => self.mem_alloc,
            Kind::MemCpy => self.mem_cpy,
            Kind::MemCmp => self.mem_cmp,
            Kind::DispatchHostFunction => self.dispatch_host_function,
            Kind::VisitObject => self.visit_object,
            Kind::ValSer => self.val_ser,
            Kind::ValDeser => self.val_deser,
            Kind::ComputeSha256Hash => self.compute_sha256_hash,
            Kind::VmInstantiation => self.vm_instantiation,
            Kind::InvokeVmFunction => self.invoke_vm_function,
        }
    }
}
