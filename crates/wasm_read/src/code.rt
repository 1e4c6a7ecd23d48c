//! Sequences of instructions, and blocks (core sections 5.4.1 and 5.4.6).

ghost use Rattle.std.specs.Prelude.{◌≡◌, ◌≢◌};
ghost use Rattle.wasm_read.specs.declared.head.Head.TheVariants.{End};
ghost use Rattle.wasm_read.specs.Gives.{Gives};
ghost use Rattle.wasm_read.specs.Reads.{ReadsOpcode, ReadsWith, ReadsInstr};
ghost use Rattle.wasm_read.specs.Reading.{head_of as head_at, inner as inner_at, code_at, block_at, if_at, else_at};
ghost use Rattle.wasm_read.specs.Reading.{instructions_at, expr_at, block_type_at};

use crate::error::ReadModErr;
use crate::head::{Head, head_of};
use crate::input::Input;
use crate::instructions::{block_type_of, control, plain};
use std::alloc::Global;
use wasm_spec::{Body, Instr, ValueType};

/// The deepest nesting of blocks.
const MOST_NESTED: u32 = 1000;

/// Reads an expression: instructions and the byte that ends them.
#[tactic(auto, unfolding(crate::specs::Reading::expr_at))]
pub fn expression(alloc: Global, input: &mut Input<'_>) -> Result<Body, ReadModErr>
    ensures { Gives expr_at input.old input.new result }
{
    let body = instructions(alloc, input)?;
    input.expect(0x0B)?;
    Ok(body)
}

/// Reads the instructions of an expression.
fn instructions(alloc: Global, input: &mut Input<'_>) -> Result<Body, ReadModErr>
    ensures { Gives instructions_at input.old input.new result }
{
    code(alloc, input, MOST_NESTED)
}

/// Reads the next opcode. If the next byte ends the instructions, returns `None` and leaves the byte unread.
fn next_opcode(input: &mut Input<'_>) -> Result<Option<u8>, ReadModErr>
    ensures { ReadsOpcode input.old input.new result }
{
    let opcode = input.peek().ok_or(ReadModErr::NotAModule)?;
    match head_of(opcode) {
        Head::End => Ok(None),
        _ => {
            input.byte()?;
            Ok(Some(opcode))
        }
    }
}

/// Reads instructions up to the byte that ends them. Rejects blocks nested deeper than `depth`.
#[cycle(code)]
fn code(alloc: Global, input: &mut Input<'_>, depth: u32) -> Result<Body, ReadModErr>
    ensures { ReadsWith (λ n. code_at n depth) input.old input.new result }
{
    let mut items = Vec::new(alloc);
    while let Some(opcode) = next_opcode(input)? {
        items.push(instruction(alloc, input, opcode, depth)?)?;
    }
    Ok(Body::from_vec(items))
}

/// Reads the rest of an instruction after its opcode.
#[cycle(code)]
fn instruction(
    alloc: Global,
    input: &mut Input<'_>,
    opcode: u8,
    depth: u32,
) -> Result<Instr, ReadModErr>
    requires { head_at opcode ≢ End }
    ensures { ReadsInstr depth opcode input.old input.new result }
{
    match head_of(opcode) {
        Head::Plain => Ok(Instr::Plain(plain(input, opcode)?)),
        Head::Control => Ok(Instr::Control(control(alloc, input, opcode)?)),
        Head::Block => {
            let (result, body) = block(alloc, input, depth)?;
            Ok(Instr::Block(result, body))
        }
        Head::Loop => {
            let (result, body) = block(alloc, input, depth)?;
            Ok(Instr::Loop(result, body))
        }
        Head::If => {
            let (result, (taken, other)) = conditional(alloc, input, depth)?;
            Ok(Instr::If(result, taken, other))
        }
        Head::End => unreachable!(),
    }
}

/// Reads the type of a block's result (core section 5.3.2).
fn block_type(input: &mut Input<'_>) -> Result<Option<ValueType>, ReadModErr>
    ensures { Gives block_type_at input.old input.new result }
{
    let byte = input.byte()?;
    block_type_of(byte).ok_or(ReadModErr::NotAModule)
}

/// Reads the result type and the body of a block.
#[cycle(code)]
fn block(
    alloc: Global,
    input: &mut Input<'_>,
    depth: u32,
) -> Result<(Option<ValueType>, Body), ReadModErr>
    ensures { ReadsWith (λ n. block_at (code_at n) depth) input.old input.new result }
{
    let result = block_type(input)?;
    let body = inner(alloc, input, depth)?;
    input.expect(0x0B)?;
    Ok((result, body))
}

/// Reads the result type and the two bodies of an `if`.
#[cycle(code)]
fn conditional(
    alloc: Global,
    input: &mut Input<'_>,
    depth: u32,
) -> Result<(Option<ValueType>, (Body, Body)), ReadModErr>
    ensures { ReadsWith (λ n. if_at (code_at n) depth) input.old input.new result }
{
    let result = block_type(input)?;
    let taken = inner(alloc, input, depth)?;
    let other = otherwise(alloc, input, depth)?;
    Ok((result, (taken, other)))
}

/// Reads the else branch of an `if`, which may be left out.
#[cycle(code)]
fn otherwise(alloc: Global, input: &mut Input<'_>, depth: u32) -> Result<Body, ReadModErr>
    ensures { ReadsWith (λ n. else_at (code_at n) depth) input.old input.new result }
{
    let byte = input.byte()?;
    match byte {
        0x05 => {
            let body = inner(alloc, input, depth)?;
            input.expect(0x0B)?;
            Ok(body)
        }
        0x0B => Ok(Body::from_vec(Vec::new(alloc))),
        _ => Err(ReadModErr::NotAModule),
    }
}

/// Reads the instructions of a nested block.
#[cycle(code)]
fn inner(alloc: Global, input: &mut Input<'_>, depth: u32) -> Result<Body, ReadModErr>
    ensures { ReadsWith (λ n. inner_at (code_at n) depth) input.old input.new result }
{
    if depth == 0 {
        return Err(ReadModErr::NotAModule);
    }
    code(alloc, input, depth - 1)
}
