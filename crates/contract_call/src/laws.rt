//! Laws of calls. Each law is the contract of a function with an empty body.

ghost use Rattle.contract_call.specs.Possible.{PossibleLaw};

/// No run of a contract's code comes to an end that the definitions of frames call impossible. So no call fails with
/// (WASM_VM, INTERNAL_ERROR), since each host function has a rule (the law `functions_have_rules` in `call_spec`).
pub fn runs_are_possible()
    ensures { PossibleLaw }
{}
