//! The codec of the terms of all kinds of cost.

ghost use Rattle.std.specs.Prelude.{◌≡◌, ◌++◌, OnOk, OnErr, IfOk};
ghost use Rattle.xdr_core.specs.Reads.{Reads};
ghost use Rattle.xdr_core.specs.Writes.{StartsWith};
ghost use Rattle.ledger_types.specs.Terms.{row_format, terms_format};

use budget_meter::{KindTerms, LinearCost, Terms};
use std::alloc::Global;
use value_xdr::Xdr;
use xdr_core::{NoMemory, Out, ReadXdr, Words};

/// The length of the terms of all kinds in bytes: four words for each of eleven kinds.
pub const TERMS_SIZE: u64 = 176;

#[tactic(auto, unfolding(crate::specs::Terms::row_format))]
fn read_row<W: Words>(alloc: Global, input: &mut W) -> Result<KindTerms, ReadXdr>
    ensures value { Reads row_format.read (W.seen input.old) (W.seen input.new) result }
    ensures fits { IfOk result row_format.fits }
{
    let constant = u32::read(alloc, input)?;
    let linear = u32::read(alloc, input)?;
    let memory_constant = u32::read(alloc, input)?;
    let memory_linear = u32::read(alloc, input)?;
    Ok(KindTerms {
        instructions: LinearCost { constant, linear },
        memory: LinearCost {
            constant: memory_constant,
            linear: memory_linear,
        },
    })
}

#[tactic(auto, unfolding(crate::specs::Terms::row_format))]
fn write_row_parts(terms: KindTerms, out: &mut Out) -> Result<(), NoMemory>
    requires { row_format.fits terms }
    ensures ok { OnOk result (out.new ≡ out.old ++ row_format.spell terms) }
    ensures err { OnErr result (StartsWith out.new out.old) }
{
    terms.instructions.constant.write(out)?;
    terms.instructions.linear.write(out)?;
    terms.memory.constant.write(out)?;
    terms.memory.linear.write(out)
}

fn write_row(terms: KindTerms, out: &mut Out) -> Result<(), NoMemory>
    requires { row_format.fits terms }
    ensures ok { OnOk result (out.new ≡ out.old ++ row_format.spell terms) }
    ensures err { OnErr result (out.new ≡ out.old) }
{
    let start = out.len();
    let result = write_row_parts(terms, out);
    if result.is_err() {
        out.cut_back(start);
    }
    result
}

/// Reads the terms of all kinds, in the order of their numbers.
#[tactic(auto, unfolding(crate::specs::Terms::terms_format))]
pub fn read_terms<W: Words>(alloc: Global, input: &mut W) -> Result<Terms, ReadXdr>
    ensures value { Reads terms_format.read (W.seen input.old) (W.seen input.new) result }
    ensures fits { IfOk result terms_format.fits }
{
    Ok(Terms {
        wasm_insn_exec: read_row(alloc, input)?,
        mem_alloc: read_row(alloc, input)?,
        mem_cpy: read_row(alloc, input)?,
        mem_cmp: read_row(alloc, input)?,
        dispatch_host_function: read_row(alloc, input)?,
        visit_object: read_row(alloc, input)?,
        val_ser: read_row(alloc, input)?,
        val_deser: read_row(alloc, input)?,
        compute_sha256_hash: read_row(alloc, input)?,
        vm_instantiation: read_row(alloc, input)?,
        invoke_vm_function: read_row(alloc, input)?,
    })
}

/// Writes the terms of all kinds, in the order of their numbers.
#[tactic(auto, unfolding(crate::specs::Terms::terms_format))]
pub fn write_terms(terms: &Terms, out: &mut Out) -> Result<(), NoMemory>
    requires { terms_format.fits terms.now }
    ensures ok { OnOk result (out.new ≡ out.old ++ terms_format.spell terms.now) }
    ensures err { OnErr result (StartsWith out.new out.old) }
{
    write_row(terms.wasm_insn_exec, out)?;
    write_row(terms.mem_alloc, out)?;
    write_row(terms.mem_cpy, out)?;
    write_row(terms.mem_cmp, out)?;
    write_row(terms.dispatch_host_function, out)?;
    write_row(terms.visit_object, out)?;
    write_row(terms.val_ser, out)?;
    write_row(terms.val_deser, out)?;
    write_row(terms.compute_sha256_hash, out)?;
    write_row(terms.vm_instantiation, out)?;
    write_row(terms.invoke_vm_function, out)
}
