//! Signatures of single instructions (core sections 3.3.1 to 3.3.4).

ghost use Rattle.std.specs.Prelude.{◌≡◌, slice_get};
ghost use Rattle.wasm_spec.specs.Typing.{numeric_signature, load_exponent, store_exponent, set_signature, signature_of, when};
ghost use Rattle.wasm_check.specs.Contexts.{context_in};

use crate::context::Scope;
use wasm_code::{converted_from, converted_to, load_type, store_type};
use wasm_spec::{
    LoadKind, Module, Mutability, Numeric, Plain, Signature, StoreKind, Taken, ValueType,
};

fn numeric_signature(numeric: Numeric) -> Signature
    ensures { result ≡ numeric_signature numeric }
{
    match numeric {
        Numeric::Eqz(operand) => Signature {
            takes: Taken::One(operand),
            gives: Some(ValueType::I32),
        },
        Numeric::Compare(operand, _) => Signature {
            takes: Taken::Two(operand, operand),
            gives: Some(ValueType::I32),
        },
        Numeric::Unary(operand, _) => Signature {
            takes: Taken::One(operand),
            gives: Some(operand),
        },
        Numeric::Binary(operand, _) => Signature {
            takes: Taken::Two(operand, operand),
            gives: Some(operand),
        },
        Numeric::Convert(conversion) => Signature {
            takes: Taken::One(converted_from(conversion)),
            gives: Some(converted_to(conversion)),
        },
    }
}

/// Returns the exponent of a load's natural alignment.
fn load_exponent(load: LoadKind) -> u32
    ensures { result ≡ load_exponent load }
{
    match load {
        LoadKind::I32 => 2,
        LoadKind::I64 => 3,
        LoadKind::I32From8(_) => 0,
        LoadKind::I32From16(_) => 1,
        LoadKind::I64From8(_) => 0,
        LoadKind::I64From16(_) => 1,
        LoadKind::I64From32(_) => 2,
    }
}

/// Returns the exponent of a store's natural alignment.
fn store_exponent(store: StoreKind) -> u32
    ensures { result ≡ store_exponent store }
{
    match store {
        StoreKind::I32 => 2,
        StoreKind::I64 => 3,
        StoreKind::I32To8 => 0,
        StoreKind::I32To16 => 1,
        StoreKind::I64To8 => 0,
        StoreKind::I64To16 => 1,
        StoreKind::I64To32 => 2,
    }
}

/// Returns the signature if the test holds.
fn when(holds: bool, takes: Taken, gives: Option<ValueType>) -> Option<Signature>
    ensures { result ≡ when holds (record { takes = takes; gives = gives }) }
{
    if holds {
        Some(Signature { takes, gives })
    } else {
        None
    }
}

/// Returns the signature of `global.set`, or `None` for a constant global.
fn set_signature(mutability: Mutability, value_type: ValueType) -> Option<Signature>
    ensures { result ≡ set_signature mutability value_type }
{
    match mutability {
        Mutability::Constant => None,
        Mutability::Variable => Some(Signature {
            takes: Taken::One(value_type),
            gives: None,
        }),
    }
}

/// Returns the signature of an instruction, or `None` if an index is out of range, the memory is missing, or the
/// alignment is above the natural one. `drop` and `select` take operands of any type and have no signature.
pub fn signature_of(module: &Module, scope: &Scope, plain: Plain) -> Option<Signature>
    ensures { result ≡ signature_of (context_in module.now scope.now) plain }
{
    let has_memory = !module.memories.as_slice().is_empty();
    match plain {
        Plain::Nop => when(true, Taken::None, None),
        Plain::Drop | Plain::Select => None,
        Plain::LocalGet(index) => {
            let value_type = *scope.locals.get(index as usize)?;
            when(true, Taken::None, Some(value_type))
        }
        Plain::LocalSet(index) => {
            let value_type = *scope.locals.get(index as usize)?;
            when(true, Taken::One(value_type), None)
        }
        Plain::LocalTee(index) => {
            let value_type = *scope.locals.get(index as usize)?;
            when(true, Taken::One(value_type), Some(value_type))
        }
        Plain::GlobalGet(index) => {
            let global = module.globals.as_slice().get(index as usize)?;
            when(true, Taken::None, Some(global.value_type))
        }
        Plain::GlobalSet(index) => {
            let global = module.globals.as_slice().get(index as usize)?;
            set_signature(global.mutability, global.value_type)
        }
        Plain::Load(load, argument) => when(
            has_memory && argument.align <= load_exponent(load),
            Taken::One(ValueType::I32),
            Some(load_type(load)),
        ),
        Plain::Store(store, argument) => when(
            has_memory && argument.align <= store_exponent(store),
            Taken::Two(store_type(store), ValueType::I32),
            None,
        ),
        Plain::MemorySize => when(has_memory, Taken::None, Some(ValueType::I32)),
        Plain::MemoryGrow => when(has_memory, Taken::One(ValueType::I32), Some(ValueType::I32)),
        Plain::I32Const(_) => when(true, Taken::None, Some(ValueType::I32)),
        Plain::I64Const(_) => when(true, Taken::None, Some(ValueType::I64)),
        Plain::Numeric(numeric) => Some(numeric_signature(numeric)),
    }
}
