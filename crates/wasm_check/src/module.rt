//! Validation of modules.

ghost use Rattle.std.specs.Prelude.{◌≡◌, ◌++◌, ◌+◌, ◌^◌, ◌<◌, ◌&&◌, nat_le, length, replicate, IfOk, IfErr, OnOk};
ghost use Rattle.wasm_spec.specs.Binary.{locals_count};
ghost use Rattle.wasm_spec.specs.Typing.{Typed, FunctionTyped, OutsideValid, body_context, result_of, local_types, MOST_LOCALS};
ghost use Rattle.wasm_code.specs.Placed.{IsCompiled};
ghost use Rattle.wasm_check.specs.Errors.{Judges, ReportsIll, ReportsFunction};
ghost use Rattle.module_spec.specs.Check.{body_check};
ghost use Rattle.wasm_check.specs.Checks.{IsChecked};
ghost use Rattle.std.specs.List.{AllByRecursion};
ghost use Rattle.std.specs.Bool.{OnTrue, OnFalse};

use crate::code::check_body;
use crate::context::{Labels, Scope};
use crate::error::{CheckErr, Fault};
use crate::names::names_differ;
use crate::outside::rules_hold;
use std::alloc::{AllocError, Global};
use std::marker::Model;
use wasm_code::{FlatCode, compile, type_at};
use wasm_spec::{FuncType, Function, Locals, Module, ValueType};

/// The largest number of locals of a function, parameters included.
const MOST_LOCALS: u64 = 4096;

/// A valid module with its code in flat form. Only `check` makes one.
#[derive(Drop)]
pub struct ValidModule {
    module: Module,
    code: FlatCode,
}

impl Model for ValidModule {
    ghost use Rattle.wasm_spec.specs.declared.module.Module.{Module};
    ghost use Rattle.wasm_spec.specs.contracts.module.Module as modules;

    ghost Value = { Module };

    ghost coded = { modules.the_row.coded };

    ghost use Rattle.wasm_spec.specs.Typing.{Typed};
    ghost use Rattle.wasm_code.specs.Placed.{IsCompiled};

    ghost view = { λ v. v.module };

    ghost invariant = { λ v. Typed v.module × IsCompiled v.module v.code };
}

impl ValidModule {
    /// Returns the module.
    pub fn module(&self) -> &Module
        ensures module { result.now ≡ self.now }
        ensures valid { Typed self.now }
    {
        &self.module
    }

    /// Returns the code of its functions in flat form.
    pub fn code(&self) -> &FlatCode
        ensures { IsCompiled self.now result.now }
    {
        &self.code
    }
}

/// Returns whether parameters and groups of locals are at most `MOST_LOCALS` locals.
fn are_few(params: &[ValueType], groups: &[Locals]) -> bool
    ensures { result ≡ nat_le (length params.now + locals_count groups.now) MOST_LOCALS }
{
    let mut count = params.len() as u64;
    if count > MOST_LOCALS {
        return false;
    }
    for group in groups {
        count += u64::from(group.count);
        if count > MOST_LOCALS {
            return false;
        }
    }
    true
}

/// Pushes the types of a group of locals.
fn push_locals(types: &mut Vec<ValueType>, group: Locals) -> Result<(), AllocError>
    ensures { OnOk result (types.new.items ≡ types.old.items ++ replicate group.count group.value_type) }
{
    for _ in 0..group.count {
        types.push(group.value_type)?;
    }
    Ok(())
}

/// Returns the types of a function's parameters and locals, in this order.
fn all_locals(
    alloc: Global,
    params: &[ValueType],
    groups: &[Locals],
) -> Result<Vec<ValueType>, AllocError>
    ensures { IfOk result (λ v. v.items ≡ params.now ++ local_types groups.now) }
{
    let mut types = Vec::new(alloc);
    types.extend_from_slice(params)?;
    for group in groups {
        push_locals(&mut types, *group)?;
    }
    Ok(types)
}

/// Checks a function.
fn check_function(alloc: Global, module: &Module, function: &Function) -> Result<(), Fault>
    ensures { Judges (FunctionTyped module.now function.now) result }
{
    let func_type = type_at(module, function.type_index).ok_or(Fault::Ill)?;
    if are_few(func_type.params.as_slice(), function.locals.as_slice()) {
        check_function_body(alloc, module, func_type, function)
    } else {
        Err(Fault::Ill)
    }
}

/// Checks the body of a function of the type.
fn check_function_body(
    alloc: Global,
    module: &Module,
    func_type: &FuncType,
    function: &Function,
) -> Result<(), Fault>
    ensures { IsChecked
        (body_check (body_context module.now func_type.now function.now.locals) (result_of func_type.now) function.now.body)
        result }
{
    let locals = all_locals(
        alloc,
        func_type.params.as_slice(),
        function.locals.as_slice(),
    )?;
    let result_type = func_type.results.as_slice().first().copied();
    let mut scope = Scope {
        locals,
        labels: Labels::new(alloc),
        result: result_type,
    };
    check_body(
        alloc,
        module,
        &mut scope,
        result_type,
        result_type,
        function.body.as_slice(),
    )
}

/// Checks the functions in order and reports the first that is ill typed.
fn check_bodies(alloc: Global, module: &Module) -> Result<(), CheckErr>
    requires { length module.now.imports + length module.now.functions < 2 ^ 32 }
    ensures typed { OnOk result (AllByRecursion (FunctionTyped module.now) module.now.functions) }
    ensures ill { IfErr result (ReportsFunction module.now) }
{
    let imports = module.imports.as_slice().len();
    for (index, function) in module.functions.as_slice().iter().enumerate() {
        match check_function(alloc, module, function) {
            Ok(()) => {}
            Err(Fault::Ill) => {
                let func = Some((imports + index) as u32);
                return Err(CheckErr::Ill { func });
            }
            Err(Fault::NoMemory) => return Err(CheckErr::NoMemory),
        }
    }
    Ok(())
}

/// Returns whether the rules outside function bodies hold.
fn is_valid_outside(alloc: Global, module: &Module) -> Result<bool, AllocError>
    ensures holds { IfOk result (λ b. OnTrue b (OutsideValid module.now)) }
    ensures broken { IfOk result (λ b. OnFalse b (OutsideValid module.now → ⊥)) }
{
    if !rules_hold(module) {
        return Ok(false);
    }
    names_differ(alloc, module.exports.as_slice())
}

/// Validates a module (core section 3). Returns `Ill` exactly if the module is not valid.
pub fn check(alloc: Global, module: Module) -> Result<ValidModule, CheckErr>
    // The result is the module that was passed, and it is valid.
    ensures valid { IfOk result (λ v. (v ≡ «module») × Typed v) }
    // A rejected module is ill typed where the error says.
    ensures ill { IfErr result (ReportsIll «module») }
{
    if !is_valid_outside(alloc, &module)? {
        return Err(CheckErr::Ill { func: None });
    }
    check_bodies(alloc, &module)?;
    let code = compile(alloc, &module)?;
    Ok(ValidModule { module, code })
}
