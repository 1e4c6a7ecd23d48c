//! Loads and stores (core section 4.4.4).

ghost use Rattle.std.specs.Prelude.{◌≡◌, ◌↔◌, ◌+◌, ◌<◌, ◌≤◌, ◌^◌, IsTrue, length, Option, Some, None, MatchOption, IfNone};
ghost use Rattle.std.specs.Prelude.{IfSome, option_map};
ghost use Rattle.wasm_spec.specs.Integers.{width};
ghost use Rattle.wasm_spec.specs.Typing.{load_type};
ghost use Rattle.wasm_spec.specs.Memory.{loaded, stored, bytes_at, with_bytes_at, integer_of_bytes, bytes_of_integer};

use crate::conversions::{extend_8, extend_16, extend_32};
use wasm_spec::{LoadKind, Sign, StoreKind, ValueType};

/// Returns the result of a load, as an integer of its type, or `None` if a byte lies outside the memory, which is a trap.
#[inline]
#[tactic(auto, unfolding(wasm_spec::specs::Memory::loaded, wasm_spec::specs::Memory::extended))]
pub fn load(kind: LoadKind, memory: &[u8], address: u32, offset: u32) -> Option<u64>
    ensures value { result ≡ loaded memory.now kind address offset }
    ensures fits { IfSome result (λ n. n < 2 ^ width (load_type kind)) }
{
    let start = effective_address(address, offset);
    match kind {
        LoadKind::I32 => Some(u64::from(read4(memory, start)?)),
        LoadKind::I64 => read8(memory, start),
        LoadKind::I32From8(Sign::Unsigned) => Some(u64::from(read1(memory, start)?)),
        LoadKind::I32From8(Sign::Signed) => Some(extend_8(ValueType::I32, read1(memory, start)?)),
        LoadKind::I32From16(Sign::Unsigned) => Some(u64::from(read2(memory, start)?)),
        LoadKind::I32From16(Sign::Signed) => Some(extend_16(ValueType::I32, read2(memory, start)?)),
        LoadKind::I64From8(Sign::Unsigned) => Some(u64::from(read1(memory, start)?)),
        LoadKind::I64From8(Sign::Signed) => Some(extend_8(ValueType::I64, read1(memory, start)?)),
        LoadKind::I64From16(Sign::Unsigned) => Some(u64::from(read2(memory, start)?)),
        LoadKind::I64From16(Sign::Signed) => Some(extend_16(ValueType::I64, read2(memory, start)?)),
        LoadKind::I64From32(Sign::Unsigned) => Some(u64::from(read4(memory, start)?)),
        LoadKind::I64From32(Sign::Signed) => Some(extend_32(read4(memory, start)?)),
    }
}

/// Returns the address of the first byte. The sum does not wrap.
#[inline]
fn effective_address(address: u32, offset: u32) -> usize
    ensures { result ≡ address + offset }
{
    address as usize + offset as usize
}

/// Returns whether the memory has `count` bytes from `start` on.
#[inline]
fn has_bytes(memory: &[u8], start: usize, count: usize) -> bool
    requires start { start < 2 ^ 33 }
    requires count { count ≤ 8 }
    ensures { IsTrue result ↔ (start + count ≤ length memory.now) }
{
    start + count <= memory.len()
}

#[inline]
#[tactic(auto, using(crate::proofs::ByteLaws::read_none, crate::proofs::ByteLaws::read_1))]
fn read1(memory: &[u8], start: usize) -> Option<u8>
    requires { start < 2 ^ 33 }
    ensures { result ≡ option_map integer_of_bytes (bytes_at memory.now start 1) }
{
    if !has_bytes(memory, start, 1) {
        return None;
    }
    Some(memory[start])
}

#[inline]
#[tactic(auto, using(crate::proofs::ByteLaws::read_none, crate::proofs::ByteLaws::read_2))]
fn read2(memory: &[u8], start: usize) -> Option<u16>
    requires { start < 2 ^ 33 }
    ensures { result ≡ option_map integer_of_bytes (bytes_at memory.now start 2) }
{
    if !has_bytes(memory, start, 2) {
        return None;
    }
    Some(u16::from_le_bytes([memory[start], memory[start + 1]]))
}

#[inline]
#[tactic(auto, using(crate::proofs::ByteLaws::read_none, crate::proofs::ByteLaws::read_4))]
fn read4(memory: &[u8], start: usize) -> Option<u32>
    requires { start < 2 ^ 33 }
    ensures { result ≡ option_map integer_of_bytes (bytes_at memory.now start 4) }
{
    if !has_bytes(memory, start, 4) {
        return None;
    }
    Some(u32::from_le_bytes([
        memory[start],
        memory[start + 1],
        memory[start + 2],
        memory[start + 3],
    ]))
}

#[inline]
#[tactic(auto, using(crate::proofs::ByteLaws::read_none, crate::proofs::ByteLaws::read_8))]
fn read8(memory: &[u8], start: usize) -> Option<u64>
    requires { start < 2 ^ 33 }
    ensures { result ≡ option_map integer_of_bytes (bytes_at memory.now start 8) }
{
    if !has_bytes(memory, start, 8) {
        return None;
    }
    Some(u64::from_le_bytes([
        memory[start],
        memory[start + 1],
        memory[start + 2],
        memory[start + 3],
        memory[start + 4],
        memory[start + 5],
        memory[start + 6],
        memory[start + 7],
    ]))
}

/// Stores an integer. A narrow store writes its lowest bytes. If a byte would lie outside the memory, returns `None`, which
/// is a trap, and leaves the memory unchanged.
#[inline]
#[tactic(auto, using(crate::proofs::ByteLaws::bytes_of_1, crate::proofs::ByteLaws::bytes_of_2, crate::proofs::ByteLaws::bytes_of_4), unfolding(wasm_spec::specs::Memory::stored))]
pub fn store(
    kind: StoreKind,
    memory: &mut [u8],
    address: u32,
    offset: u32,
    value: u64,
) -> Option<()>
    ensures fits { MatchOption result
        (stored memory.old kind address offset value ≡ None)
        (λ _. stored memory.old kind address offset value ≡ Some memory.new) }
    ensures outside { IfNone result (memory.new ≡ memory.old) }
{
    let start = effective_address(address, offset);
    match kind {
        StoreKind::I32 => write4(memory, start, (value % 0x1_0000_0000) as u32),
        StoreKind::I64 => write8(memory, start, value),
        StoreKind::I32To8 => write1(memory, start, (value % 0x100) as u8),
        StoreKind::I32To16 => write2(memory, start, (value % 0x1_0000) as u16),
        StoreKind::I64To8 => write1(memory, start, (value % 0x100) as u8),
        StoreKind::I64To16 => write2(memory, start, (value % 0x1_0000) as u16),
        StoreKind::I64To32 => write4(memory, start, (value % 0x1_0000_0000) as u32),
    }
}

#[inline]
#[tactic(auto, using(crate::proofs::ByteLaws::write_none, crate::proofs::ByteLaws::write_1))]
fn write1(memory: &mut [u8], start: usize, value: u8) -> Option<()>
    requires { start < 2 ^ 33 }
    ensures fits { MatchOption result
        (with_bytes_at memory.old start (bytes_of_integer 1 value) ≡ None)
        (λ _. with_bytes_at memory.old start (bytes_of_integer 1 value) ≡ Some memory.new) }
    ensures outside { IfNone result (memory.new ≡ memory.old) }
{
    if !has_bytes(memory, start, 1) {
        return None;
    }
    let bytes = value.to_le_bytes();
    memory[start] = bytes[0];
    Some(())
}

#[inline]
#[tactic(auto, using(crate::proofs::ByteLaws::write_none, crate::proofs::ByteLaws::write_2))]
fn write2(memory: &mut [u8], start: usize, value: u16) -> Option<()>
    requires { start < 2 ^ 33 }
    ensures fits { MatchOption result
        (with_bytes_at memory.old start (bytes_of_integer 2 value) ≡ None)
        (λ _. with_bytes_at memory.old start (bytes_of_integer 2 value) ≡ Some memory.new) }
    ensures outside { IfNone result (memory.new ≡ memory.old) }
{
    if !has_bytes(memory, start, 2) {
        return None;
    }
    let bytes = value.to_le_bytes();
    memory[start] = bytes[0];
    memory[start + 1] = bytes[1];
    Some(())
}

#[inline]
#[tactic(auto, using(crate::proofs::ByteLaws::write_none, crate::proofs::ByteLaws::write_4))]
fn write4(memory: &mut [u8], start: usize, value: u32) -> Option<()>
    requires { start < 2 ^ 33 }
    ensures fits { MatchOption result
        (with_bytes_at memory.old start (bytes_of_integer 4 value) ≡ None)
        (λ _. with_bytes_at memory.old start (bytes_of_integer 4 value) ≡ Some memory.new) }
    ensures outside { IfNone result (memory.new ≡ memory.old) }
{
    if !has_bytes(memory, start, 4) {
        return None;
    }
    let bytes = value.to_le_bytes();
    memory[start] = bytes[0];
    memory[start + 1] = bytes[1];
    memory[start + 2] = bytes[2];
    memory[start + 3] = bytes[3];
    Some(())
}

#[inline]
#[tactic(auto, using(crate::proofs::ByteLaws::write_none, crate::proofs::ByteLaws::write_8))]
fn write8(memory: &mut [u8], start: usize, value: u64) -> Option<()>
    requires { start < 2 ^ 33 }
    ensures fits { MatchOption result
        (with_bytes_at memory.old start (bytes_of_integer 8 value) ≡ None)
        (λ _. with_bytes_at memory.old start (bytes_of_integer 8 value) ≡ Some memory.new) }
    ensures outside { IfNone result (memory.new ≡ memory.old) }
{
    if !has_bytes(memory, start, 8) {
        return None;
    }
    let bytes = value.to_le_bytes();
    memory[start] = bytes[0];
    memory[start + 1] = bytes[1];
    memory[start + 2] = bytes[2];
    memory[start + 3] = bytes[3];
    memory[start + 4] = bytes[4];
    memory[start + 5] = bytes[5];
    memory[start + 6] = bytes[6];
    memory[start + 7] = bytes[7];
    Some(())
}
