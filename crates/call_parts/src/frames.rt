//! How a frame's run begins and ends.

ghost use Rattle.std.specs.Prelude.{[], ◌∷◌, IfOk, Some, IfErr};
ghost use Rattle.budget_meter.specs.declared.kind.Kind.TheVariants as kinds;
ghost use Rattle.value_types.specs.Views.{datum, datums};
ghost use Rattle.host_spec.specs.Hosted.{IsHosted};
ghost use Rattle.host_spec.specs.VecRows.{all_given};
ghost use Rattle.host_spec.specs.Words.{meaning};
ghost use Rattle.object_store.specs.Shown.{shown_of, AreIndices};
ghost use Rattle.host_frame.specs.Made.{AreMade};
ghost use Rattle.call_spec.specs.Acts.{gives, paying};
ghost use Rattle.call_spec.specs.Frames.{paying_pages, returned_value as returned_of};
ghost use Rattle.call_parts.specs.Steps.{Charges, Shows, Returns};
ghost use Rattle.host_ledger.specs.Spelled.{IsKeySpelled};

use crate::charges::pay;
use crate::errors::{HIDDEN_ERROR, INVALID_VALUE};
use budget_meter::{Budget, Kind};
use host_frame::give_each;
use host_spec::HostErr;
use object_store::{Objects, Shown, TakeErr};
use tagged_val::Val;
use value_types::{ScError, ScVal};
use wasm_spec::{Module, ResizableLimits};

/// The bytes of a page of a memory.
const PAGE: u64 = 65_536;

/// Charges for the first pages of a memory, if there is one.
fn charge_pages(budget: &mut Budget, memories: &[ResizableLimits]) -> Result<(), HostErr>
    ensures does { Charges result (λ u. u) (paying_pages memories.now (gives tt)) budget.old budget.new }
    ensures key { IfErr result IsKeySpelled }
{
    match memories {
        [] => Ok(()),
        [limits, ..] => pay(budget, Kind::MemAlloc, PAGE * u64::from(limits.min)),
    }
}

/// Charges for the first pages of a module's memory, if it has one, and for a run of one of its functions.
pub fn charge_run(budget: &mut Budget, module: &Module) -> Result<(), HostErr>
    ensures does { Charges result (λ u. u) (paying_pages «module».now.memories
        (paying kinds.InvokeVmFunction 1 (gives tt))) budget.old budget.new }
    ensures key { IfErr result IsKeySpelled }
{
    match charge_pages(budget, module.memories.as_slice()) {
        Ok(()) => pay(budget, Kind::InvokeVmFunction, 1),
        Err(error) => Err(error),
    }
}

/// Shows the arguments of a call, one by one. Returns their words.
pub fn show_args(
    objects: &mut Objects,
    shown: &mut Shown,
    budget: &mut Budget,
    args: Vec<ScVal>,
) -> Result<Vec<u64>, HostErr>
    requires made { AreMade (datums args.items) }
    requires indices { AreIndices objects.old shown.old }
    ensures does { Shows result (λ words. words.items) (all_given (datums args.items))
        (shown_of objects.old shown.old) (shown_of objects.new shown.new) budget.old budget.new }
    ensures indices { AreIndices objects.new shown.new }
    ensures key { IfErr result IsKeySpelled }
{
    match give_each(objects, shown, budget, args) {
        Ok(words) => Ok(words),
        Err(error) => Err(HostErr::from(error)),
    }
}

/// The value of a word that has a meaning: an error fails the frame.
fn judged(value: ScVal) -> Result<ScVal, HostErr>
    requires { IsHosted (datum value) }
    ensures does { Returns result (λ v. datum v) (returned_of (Some (datum value))) }
    ensures hosted { IfOk result (λ v. IsHosted (datum v)) }
    ensures key { IfErr result IsKeySpelled }
{
    match value {
        ScVal::Error(ScError::Contract(code)) => Err(HostErr::Failed(ScError::Contract(code))),
        ScVal::Error(_) => Err(HIDDEN_ERROR),
        value => Ok(value),
    }
}

/// The value that a function's word returns: an error fails the frame, and a word without meaning too.
pub fn returned_value(objects: &Objects, shown: &Shown, word: u64) -> Result<ScVal, HostErr>
    requires { AreIndices objects.now shown.now }
    ensures does { Returns result (λ v. datum v) (returned_of (meaning (shown_of objects.now shown.now) word)) }
    ensures hosted { IfOk result (λ v. IsHosted (datum v)) }
    ensures key { IfErr result IsKeySpelled }
{
    match objects.take(shown, Val(word)) {
        Ok(value) => judged(value),
        Err(TakeErr::Bad) => Err(INVALID_VALUE),
        Err(TakeErr::NoMemory) => Err(HostErr::NoMemory),
    }
}
