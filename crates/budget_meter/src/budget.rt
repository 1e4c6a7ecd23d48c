//! The sums that a transaction has spent.

ghost use Rattle.std.specs.Prelude.{◌≡◌, ◌≤◌, ◌<◌, ◌+◌, ◌*◌, ◌↔◌, IsOk, OnOk, OnErr, IfOk, MatchBool};
ghost use Rattle.budget_meter.specs.Costs.{cost_of, IsWithin};
ghost use Rattle.budget_meter.specs.Meter.{used_after, IsCharged, IsFull};

use crate::kind::Kind;
use crate::terms::{LinearCost, Terms};
use std::marker::Model;

/// The limits of what may be spent.
#[derive(Clone, Copy, Debug, PartialEq, Eq)]
pub struct Limits {
    pub instructions: u64,
    /// In bytes.
    pub memory: u64,
}

/// What has been spent.
#[derive(Clone, Copy, Debug, PartialEq, Eq)]
pub struct Used {
    pub instructions: u64,
    /// In bytes.
    pub memory: u64,
}

/// The error of a charge that would pass one of the two limits.
#[derive(Clone, Copy, Debug, PartialEq, Eq)]
pub struct Spent;

/// The sums that a transaction has spent, under its limits. Takes no memory.
///
/// Executed instructions are only counted, and their cost is added at the next other charge. Contracts see the sums with it.
#[derive(Drop)]
pub struct Budget {
    limits: Limits,
    terms: Terms,
    /// The sums without the instructions that were only counted.
    used: Used,
    /// The number of executed instructions for which both limits have room beyond `used`.
    granted: u64,
    /// The part of `granted` that is not executed yet.
    payable: u64,
}

impl Model for Budget {
    ghost use Rattle.budget_meter.specs.Meter.{Meter};

    ghost Value = { Meter };

    ghost use Rattle.std.specs.Prelude.{◌≤◌, ◌-◌};
    ghost use Rattle.budget_meter.specs.Costs.{IsWithin, sums_after_many};

    ghost view = { λ b. record {
      limits = b.limits;
      terms = b.terms;
      used = sums_after_many b.used b.terms.wasm_insn_exec (b.granted - b.payable);
    } };

    ghost invariant = { λ b. (1 ≤ b.terms.wasm_insn_exec.instructions.constant) × (b.payable ≤ b.granted)
        × IsWithin b.limits (sums_after_many b.used b.terms.wasm_insn_exec b.granted) };
}

impl Budget {
    /// A budget of which nothing is spent.
    pub fn new(limits: Limits, terms: Terms) -> Budget
        // So each executed instruction spends something.
        requires { 1 ≤ terms.wasm_insn_exec.instructions.constant }
        ensures limits { result.limits ≡ limits }
        ensures terms { result.terms ≡ terms }
        ensures used { result.used ≡ record { instructions = 0; memory = 0 } }
    {
        Budget {
            limits,
            terms,
            used: Used {
                instructions: 0,
                memory: 0,
            },
            granted: 0,
            payable: 0,
        }
    }

    /// Adds the cost of a charge of the kind with this input to both sums. Returns `Spent` exactly if one of them would pass its
    /// limit; the sums are then as before.
    pub fn charge(&mut self, kind: Kind, input: u64) -> Result<(), Spent>
        ensures fits { IsOk result ↔ IsWithin self.old.limits (used_after self.old kind input) }
        ensures ok { OnOk result (self.new ≡ record self.old { used = used_after self.old kind input }) }
        ensures spent { OnErr result (self.new ≡ self.old) }

        // An instruction always spends something.
        ensures progress { kind ≡ Kind.WasmInsnExec
            → OnOk result (self.old.used.instructions < self.new.used.instructions) }
    {
        let used = self.spent();
        let terms = self.terms.of(kind);
        let instructions = add_cost(
            used.instructions,
            terms.instructions,
            input,
            self.limits.instructions,
        )?;
        let memory = add_cost(used.memory, terms.memory, input, self.limits.memory)?;
        self.used = Used {
            instructions,
            memory,
        };
        self.granted = 0;
        self.payable = 0;
        Ok(())
    }

    /// Charges an executed instruction, as `charge` does, and returns whether there was room for it. Mostly this only counts.
    pub fn charge_instruction(&mut self) -> bool
        ensures charged { MatchBool result (IsCharged self.old self.new)
            (IsFull self.old × (self.new ≡ self.old)) }
    {
        if self.payable == 0 {
            return self.charge_next();
        }
        self.payable -= 1;
        true
    }

    /// Adds the cost of the counted instructions to the sums, and charges an executed instruction. Counts from there on how many
    /// more both limits have room for.
    fn charge_next(&mut self) -> bool
        ensures charged { MatchBool result (IsCharged self.old self.new)
            (IsFull self.old × (self.new ≡ self.old)) }
    {
        let used = self.spent();
        let terms = self.terms.wasm_insn_exec;
        let by_instructions = room_for(
            used.instructions,
            terms.instructions,
            self.limits.instructions,
        );
        let by_memory = room_for(used.memory, terms.memory, self.limits.memory);
        let granted = by_instructions.min(by_memory);
        if granted == 0 {
            return false;
        }
        self.used = used;
        self.granted = granted;
        self.payable = granted - 1;
        true
    }

    /// The two sums that are spent.
    pub fn spent(&self) -> Used
        ensures sums { result ≡ self.now.used }
        ensures within { IsWithin self.now.limits result }
    {
        let executed = self.granted - self.payable;
        let terms = self.terms.wasm_insn_exec;
        Used {
            instructions: sum_with(
                self.used.instructions,
                executed,
                terms.instructions,
                self.granted,
                self.limits.instructions,
            ),
            memory: sum_with(
                self.used.memory,
                executed,
                terms.memory,
                self.granted,
                self.limits.memory,
            ),
        }
    }
}

/// The sum with the cost of so many executed instructions, of which the limit has room for `most`.
#[tactic(auto, using(crate::proofs::Rooms::part_within))]
fn sum_with(sum: u64, executed: u64, cost: LinearCost, most: u64, limit: u64) -> u64
    requires few { executed ≤ most }
    requires room { sum + most * cost_of cost 1 ≤ limit }
    ensures value { result ≡ sum + executed * cost_of cost 1 }
    ensures within { result ≤ limit }
{
    sum + executed * price(cost)
}

/// The cost of one executed instruction.
fn price(cost: LinearCost) -> u64
    ensures { result ≡ cost_of cost 1 }
{
    u64::from(cost.constant) + u64::from(cost.linear) / 128
}

/// The number of executed instructions for which the limit has room, or the largest number that `u64` has.
fn room_for(sum: u64, cost: LinearCost, limit: u64) -> u64
    requires { sum ≤ limit }
    ensures fits { sum + result * cost_of cost 1 ≤ limit }
    ensures most { result ≡ 0 → limit < sum + cost_of cost 1 }
{
    let each = price(cost);
    if each == 0 {
        return u64::MAX;
    }
    (limit - sum) / each
}

/// The sum with the cost of the input added, unless it would pass the limit.
fn add_cost(sum: u64, cost: LinearCost, input: u64, limit: u64) -> Result<u64, Spent>
    ensures fits { IsOk result ↔ (sum + cost_of cost input ≤ limit) }
    ensures value { IfOk result (λ after. after ≡ sum + cost_of cost input) }
{
    let grown = u128::from(cost.linear) * u128::from(input) / 128;
    let after = u128::from(sum) + u128::from(cost.constant) + grown;
    if after <= u128::from(limit) {
        Ok(after as u64)
    } else {
        Err(Spent)
    }
}
