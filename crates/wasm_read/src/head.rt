//! The kinds of opcodes.

ghost use Rattle.std.specs.Prelude.{◌≡◌};
ghost use Rattle.wasm_read.specs.Reading.{head_of};

/// The kind of an opcode. `End` also covers the byte of `else`, which ends the first branch of an `if`.
#[derive(Clone, Copy, PartialEq, Eq, Debug)]
pub enum Head {
    Plain,
    Control,
    Block,
    Loop,
    If,
    End,
}

/// Returns the kind of an opcode. For a byte that is no opcode, the result is `Plain` or `Control`, whose readers reject it.
pub fn head_of(opcode: u8) -> Head
    ensures { result ≡ head_of opcode }
{
    match opcode {
        0x01 => Head::Plain,
        0x02 => Head::Block,
        0x03 => Head::Loop,
        0x04 => Head::If,
        0x05 | 0x0B => Head::End,
        _ => {
            if opcode < 0x12 {
                Head::Control
            } else {
                Head::Plain
            }
        }
    }
}
