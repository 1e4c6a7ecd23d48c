//! Instructions (core section 2.4).

ghost use Rattle.std.specs.Prelude.{◌≡◌};

use crate::items::Items;
use crate::types::ValueType;
use std::marker::Model;

/// Whether an instruction interprets its integers as signed or unsigned (`sx`, core section 2.4.1).
#[derive(Clone, Copy, PartialEq, Eq, Debug)]
pub enum Sign {
    Signed,
    Unsigned,
}

/// `iunop` (core section 2.4.1).
#[derive(Clone, Copy, PartialEq, Eq, Debug)]
pub enum Unary {
    Clz,
    Ctz,
    Popcnt,
}

/// `ibinop` (core section 2.4.1).
#[derive(Clone, Copy, PartialEq, Eq, Debug)]
pub enum Binary {
    Add,
    Sub,
    Mul,
    Div(Sign),
    Rem(Sign),
    And,
    Or,
    Xor,
    Shl,
    Shr(Sign),
    Rotl,
    Rotr,
}

/// `irelop` (core section 2.4.1).
#[derive(Clone, Copy, PartialEq, Eq, Debug)]
pub enum Comparison {
    Eq,
    Ne,
    Lt(Sign),
    Gt(Sign),
    Le(Sign),
    Ge(Sign),
}

/// `cvtop` (core section 2.4.1) and the sign extensions. Each name begins with the type of the result.
#[derive(Clone, Copy, PartialEq, Eq, Debug)]
pub enum Conversion {
    I32Wrap,
    I64Extend(Sign),
    I32Extend8,
    I32Extend16,
    I64Extend8,
    I64Extend16,
    I64Extend32,
}

/// A numeric instruction other than a constant (core section 2.4.1): it pops one or two operands and pushes one.
#[derive(Clone, Copy, PartialEq, Eq, Debug)]
pub enum Numeric {
    Eqz(ValueType),
    Compare(ValueType, Comparison),
    Unary(ValueType, Unary),
    Binary(ValueType, Binary),
    Convert(Conversion),
}

/// Which load it is (core section 2.4.4): the type of the result, and the number of bits in memory if the result has more.
#[derive(Clone, Copy, PartialEq, Eq, Debug)]
pub enum LoadKind {
    I32,
    I64,
    I32From8(Sign),
    I32From16(Sign),
    I64From8(Sign),
    I64From16(Sign),
    I64From32(Sign),
}

/// Which store it is (core section 2.4.4): the type of the operand, and the number of bits in memory if the operand has more.
#[derive(Clone, Copy, PartialEq, Eq, Debug)]
pub enum StoreKind {
    I32,
    I64,
    I32To8,
    I32To16,
    I64To8,
    I64To16,
    I64To32,
}

/// `memarg` (core section 2.4.4). The alignment is 2^`align` bytes, and `offset` is in bytes.
#[derive(Clone, Copy, PartialEq, Eq, Debug)]
pub struct MemArg {
    pub align: u32,
    pub offset: u32,
}

/// An instruction that never branches (core sections 2.4.1 to 2.4.4, and `nop`).
/// Constants are unsigned.
#[derive(Clone, Copy, PartialEq, Eq, Debug)]
pub enum Plain {
    Nop,
    Drop,
    Select,
    LocalGet(u32),
    LocalSet(u32),
    LocalTee(u32),
    GlobalGet(u32),
    GlobalSet(u32),
    Load(LoadKind, MemArg),
    Store(StoreKind, MemArg),
    MemorySize,
    MemoryGrow,
    I32Const(u32),
    I64Const(u64),
    Numeric(Numeric),
}

/// A control instruction with no instructions inside (core section 2.4.5).
#[derive(Drop)]
pub enum Control {
    Unreachable,
    Br(u32),
    BrIf(u32),
    BrTable(Items<u32>, u32),
    Return,
    Call(u32),
    CallIndirect(u32),
}

/// An instruction (core section 2.4). A block has at most one result.
#[cycle(code)]
#[derive(Drop)]
pub enum Instr {
    Plain(Plain),
    Control(Control),
    Block(Option<ValueType>, Body),
    Loop(Option<ValueType>, Body),
    If(Option<ValueType>, Body, Body),
}

/// A sequence of instructions (core section 2.4). Contracts see it as `Code`.
#[cycle(code)]
#[derive(Drop)]
pub struct Body {
    items: Vec<Instr>,
}

impl Model for Body {
    ghost use Rattle.wasm_spec.specs.Code.{Code, coded_code, size_of};

    ghost Value = { Code };

    ghost coded = { coded_code };

    ghost use Rattle.wasm_spec.specs.Views.{code_of};

    ghost view = { λ b. code_of b.items.items };

    ghost size = { size_of };

    ghost use Rattle.wasm_spec.specs.Falls.{body_falls};

    ghost size_decreases = { body_falls };
}

impl Body {
    ghost use Rattle.wasm_spec.specs.Views.{code_of};

    /// Makes a body of these instructions without allocating.
    pub fn from_vec(items: Vec<Instr>) -> Body
        ensures { result ≡ code_of items.items }
    {
        Body { items }
    }

    /// Lends the instructions.
    pub fn as_slice(&self) -> &[Instr]
        ensures { code_of result.now ≡ self.now }
    {
        &self.items
    }
}
