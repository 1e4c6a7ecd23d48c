//! Modules (core section 2.5), with the parts that this host supports.

use crate::instructions::Body;
use crate::items::Items;
use crate::types::{FuncType, Mutability, ResizableLimits, TableType, ValueType};
use byte_list::Blob;

/// An imported function (core section 2.5.11). This host has no other imports.
#[derive(Drop)]
pub struct Import {
    pub module: Blob,
    pub name: Blob,
    pub type_index: u32,
}

/// A group of `count` locals of one type (core section 5.5.13).
#[derive(Clone, Copy, PartialEq, Eq, Debug)]
pub struct Locals {
    pub count: u32,
    pub value_type: ValueType,
}

/// A function that the module defines (core section 2.5.3).
#[derive(Drop)]
pub struct Function {
    pub type_index: u32,
    pub locals: Items<Locals>,
    pub body: Body,
}

/// A global and its initial value (core section 2.5.6).
#[derive(Drop)]
pub struct Global {
    pub value_type: ValueType,
    pub mutability: Mutability,
    pub init: Body,
}

/// The kind of an exported definition (core section 2.5.10).
#[derive(Clone, Copy, PartialEq, Eq, Debug)]
pub enum ExportKind {
    Function,
    Table,
    Memory,
    Global,
}

/// An export (core section 2.5.10) of the function, table, memory or global at `index`.
#[derive(Drop)]
pub struct Export {
    pub name: Blob,
    pub kind: ExportKind,
    pub index: u32,
}

/// An element segment (core section 2.5.7): the functions that a table holds initially, from `offset` on.
#[derive(Drop)]
pub struct Element {
    pub table: u32,
    pub offset: Body,
    pub functions: Items<u32>,
}

/// A data segment (core section 2.5.8): the bytes that a memory holds initially, from `offset` on.
#[derive(Drop)]
pub struct Data {
    pub memory: u32,
    pub offset: Body,
    pub bytes: Blob,
}

/// A module (core section 2.5). Function indices count the imports first.
#[derive(Drop)]
pub struct Module {
    pub types: Items<FuncType>,
    pub imports: Items<Import>,
    pub functions: Items<Function>,
    pub tables: Items<TableType>,
    pub memories: Items<ResizableLimits>,
    pub globals: Items<Global>,
    pub exports: Items<Export>,
    pub elements: Items<Element>,
    pub data: Items<Data>,
}
