//! Reads tables of cases, compares the outcome of each case with the expected one, and counts the cases that hold.
//!
//! A program says by `Judge` what its kinds of cases mean, and its `main` calls `run_tables`. docs/CASES.md describes a
//! table's lines.
#![tactic(auto)]

mod case_err;
mod fragments;
mod judge;
mod run;
mod table;
mod tally;
mod words;

pub use case_err::CaseErr;
pub use fragments::{Fragments, push_hex, push_str};
pub use judge::{Case, Judge};
pub use run::run_tables;
pub use tally::Tally;
pub use words::{count, first_word, hex_number, hex_numbers, number};
