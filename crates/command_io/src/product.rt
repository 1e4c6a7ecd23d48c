//! The product of a command: its stores and its lines.

ghost use Rattle.std.specs.Prelude.{◌<◌};

use edge_io::Word;

/// A file option by its number, for which failed calls are counted, and the name given for it.
#[derive(Clone, Copy, Debug)]
pub struct FileArg<'a> {
    pub option: u8,
    pub name: &'a Word,
    pub ghost below: { option < 8 },
}

/// A file to store, with its bytes.
#[derive(Debug, Drop)]
pub struct OutputFile<'a> {
    pub file: FileArg<'a>,
    pub bytes: Vec<u8>,
}

/// The files that a command stores, in order, and the lines that it then prints.
#[derive(Debug, Drop)]
pub struct Product<'a> {
    pub stores: Vec<OutputFile<'a>>,
    pub lines: Vec<u8>,
}
