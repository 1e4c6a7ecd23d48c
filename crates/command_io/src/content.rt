//! The lines of a file's content: of a set, an envelope, a ledger or a contract value, and of a WebAssembly module.

ghost use Rattle.std.specs.Prelude.{◌≡◌, IfErr, MatchResult};
ghost use Rattle.command_words.specs.declared.request.ShowKind.TheVariants as kinds;
ghost use Rattle.command_io.specs.Counts.{IsOfBytes};
ghost use Rattle.command_io.specs.Shown.{shown, shown_opened};
ghost use Rattle.command_io.specs.Steps.{Gives};
ghost use Rattle.command_io.specs.Vetted.{flaw_status, vetted};
ghost use Rattle.command_io.specs.declared.status.Status.TheVariants.{NoMemory};

use crate::Status;
use crate::decode::{any_ledger_in, envelope_in, open_text, set_in, value_in};
use command_words::ShowKind;
use edge_io::Word;
use module_vet::{Flaw, VetErr, valid_line};
use show_lines::{envelope_line, ledger_lines, set_lines, value_line};
use std::alloc::{AllocError, Global};

/// Makes the lines of a file's content.
pub fn shown_opened(
    alloc: Global,
    base64: bool,
    kind: ShowKind,
    name: &Word,
    text: &[u8],
) -> Result<Vec<u8>, Status>
    ensures given { Gives (λ v. v.items) result (shown_opened base64 kind name.now text.now) }
    ensures cause { IfErr result IsOfBytes }
{
    if base64 {
        let bytes = open_text(alloc, name, text)?;
        shown(alloc, kind, &bytes)
    } else {
        shown(alloc, kind, text)
    }
}

fn shown(alloc: Global, kind: ShowKind, bytes: &[u8]) -> Result<Vec<u8>, Status>
    ensures given { Gives (λ v. v.items) result (shown kind bytes.now) }
    ensures cause { IfErr result IsOfBytes }
{
    match kind {
        ShowKind::Set => set_shown(alloc, bytes),
        ShowKind::Envelope => envelope_shown(alloc, bytes),
        ShowKind::Ledger => ledger_shown(alloc, bytes),
        ShowKind::Value => value_shown(alloc, bytes),
    }
}

fn set_shown(alloc: Global, bytes: &[u8]) -> Result<Vec<u8>, Status>
    ensures given { Gives (λ v. v.items) result (shown kinds.Set bytes.now) }
    ensures cause { IfErr result IsOfBytes }
{
    let set = set_in(alloc, bytes)?;
    lines_or_status(set_lines(alloc, &set))
}

fn envelope_shown(alloc: Global, bytes: &[u8]) -> Result<Vec<u8>, Status>
    ensures given { Gives (λ v. v.items) result (shown kinds.Envelope bytes.now) }
    ensures cause { IfErr result IsOfBytes }
{
    let envelope = envelope_in(alloc, bytes)?;
    lines_or_status(envelope_line(alloc, &envelope))
}

fn ledger_shown(alloc: Global, bytes: &[u8]) -> Result<Vec<u8>, Status>
    ensures given { Gives (λ v. v.items) result (shown kinds.Ledger bytes.now) }
    ensures cause { IfErr result IsOfBytes }
{
    let ledger = any_ledger_in(alloc, bytes)?;
    lines_or_status(ledger_lines(alloc, &ledger))
}

fn value_shown(alloc: Global, bytes: &[u8]) -> Result<Vec<u8>, Status>
    ensures given { Gives (λ v. v.items) result (shown kinds.Value bytes.now) }
    ensures cause { IfErr result IsOfBytes }
{
    let value = value_in(alloc, bytes)?;
    lines_or_status(value_line(alloc, &value, bytes.len()))
}

fn lines_or_status(lines: Result<Vec<u8>, AllocError>) -> Result<Vec<u8>, Status>
    ensures { MatchResult lines (λ v. result ≡ Ok v) (λ _. result ≡ Err NoMemory) }
{
    match lines {
        Ok(lines) => Ok(lines),
        Err(_) => Err(Status::NoMemory),
    }
}

/// Makes the line of a module; the error is the status of its first flaw.
#[tactic(auto, unfolding(crate::specs::Vetted::vetted))]
pub fn vetted(alloc: Global, bytes: &[u8]) -> Result<Vec<u8>, Status>
    ensures given { Gives (λ v. v.items) result (vetted bytes.now) }
    ensures cause { IfErr result IsOfBytes }
{
    match module_vet::vet(alloc, bytes) {
        Ok(sizes) => {
            let line = valid_line(alloc, &sizes)?;
            Ok(line)
        }
        Err(VetErr::Flawed(flaw)) => Err(flaw_status(flaw)),
        Err(VetErr::NoMemory) => Err(Status::NoMemory),
    }
}

fn flaw_status(flaw: Flaw) -> Status
    ensures status { result ≡ flaw_status flaw }
    ensures cause { IsOfBytes result }
{
    match flaw {
        Flaw::NotAModule => Status::NotAModule,
        Flaw::Ill { func } => Status::Ill { func },
        Flaw::Unlinked { import } => Status::Unlinked { import },
    }
}
