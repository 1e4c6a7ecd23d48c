//! Calls of functions over values.

ghost use Rattle.std.specs.Prelude.{IfOk};
ghost use Rattle.object_store.specs.Shown.{AreIndices};
ghost use Rattle.host_frame.specs.Made.{IsMemory};
ghost use Rattle.host_values.specs.Called.{IsValueCall};

use crate::budgets::{budget_of, settings_of};
use crate::host::frames::show_prepared;
use crate::host::outcomes::{push_costs, push_error, push_memory, push_shown};
use crate::host::prepared::Prepared;
use budget_meter::{Budget, Limits};
use case_text::{CaseErr, first_word, hex_numbers};
use host_interface::{HostImport, import_named};
use host_spec::ValueErr;
use host_values::{call_function, words_taken};
use object_store::{Objects, Shown};
use std::alloc::Global;
use std::fmt::Write;

/// LETTER NAME WORD..: the outcome of a call in the frame that was prepared.
pub fn call(
    alloc: Global,
    prepared: &Prepared,
    limits: Limits,
    words: &str,
    out: &mut String,
) -> Result<(), CaseErr> {
    let (letter, rest) = first_word(words);
    let (name, words) = first_word(rest);
    let import = import_of(letter, name)?;
    let budget = budget_of(settings_of(alloc, &prepared.settings)?, limits)?;
    let words = hex_numbers(alloc, words)?;
    let memory = Vec::from_slice(alloc, &prepared.memory)?;
    let mut frame = Frame::new(alloc, memory, budget);
    in_frame(alloc, prepared, &mut frame, import, &words, out)
}

/// The outcome of a call in a frame that has shown nothing yet.
fn in_frame(
    alloc: Global,
    prepared: &Prepared,
    frame: &mut Frame,
    import: HostImport,
    words: &[u64],
    out: &mut String,
) -> Result<(), CaseErr>
    requires { AreIndices frame.old.objects frame.old.shown }
{
    let before = show_prepared(alloc, &mut frame.objects, &mut frame.shown, prepared)?;
    match frame.call(import, words)? {
        Ok(word) => push_made(alloc, prepared, frame, before, word, out)?,
        Err(error) => push_error(out, error)?,
    }
    push_costs(out, frame.budget.spent())
}

/// Appends the word that the function returned, the objects that it showed, and the memory if it changed.
fn push_made(
    alloc: Global,
    prepared: &Prepared,
    frame: &Frame,
    before: usize,
    word: u64,
    out: &mut String,
) -> Result<(), CaseErr>
    requires { AreIndices frame.now.objects frame.now.shown }
{
    write!(out, "{word:x}")?;
    push_shown(alloc, out, &frame.objects, &frame.shown, before)?;
    push_memory(alloc, out, &prepared.memory, &frame.memory)
}

/// A frame that has shown values, its linear memory, and the budget of its calls.
#[derive(Drop)]
pub struct Frame {
    pub objects: Objects,
    pub shown: Shown,
    pub memory: Vec<u8>,
    pub budget: Budget,
}

impl Frame {
    /// A frame that has shown nothing.
    pub fn new(alloc: Global, memory: Vec<u8>, budget: Budget) -> Frame
        ensures { AreIndices result.objects result.shown }
    {
        Frame {
            objects: Objects::new(alloc),
            shown: Shown::new(alloc),
            memory,
            budget,
        }
    }

    /// The word that the function returns.
    pub fn call(
        &mut self,
        import: HostImport,
        words: &[u64],
    ) -> Result<Result<u64, ValueErr>, CaseErr>
        requires { AreIndices self.old.objects self.old.shown }
        ensures { AreIndices self.new.objects self.new.shown }
    {
        check_words(import, words)?;
        check_memory(&self.memory)?;
        Ok(call_function(
            &mut self.objects,
            &mut self.shown,
            &mut self.memory,
            &mut self.budget,
            import,
            words,
        ))
    }
}

/// The function of a module's letter and a name.
pub fn import_of(letter: &str, name: &str) -> Result<HostImport, CaseErr> {
    match import_named(letter.as_bytes(), name.as_bytes()) {
        Some(import) => Ok(import),
        None => Err(CaseErr::Lacks("a function of the host")),
    }
}

/// Refuses a function that is not over values, and another number of words than it takes.
fn check_words(import: HostImport, words: &[u64]) -> Result<(), CaseErr>
    ensures { IfOk result (λ _. IsValueCall «import» words.now) }
{
    match words_taken(import) {
        Some(number) if number == words.len() => Ok(()),
        _ => Err(CaseErr::Lacks("a function over values with so many words")),
    }
}

/// Refuses bytes that no linear memory has: it has at most 64 pages.
fn check_memory(bytes: &[u8]) -> Result<(), CaseErr>
    ensures { IfOk result (λ _. IsMemory bytes.now) }
{
    if bytes.len() > 4_194_304 {
        return Err(CaseErr::Lacks("a linear memory of at most 64 pages"));
    }
    Ok(())
}
