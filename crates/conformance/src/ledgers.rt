//! Ledger files and verdicts.

ghost use Rattle.std.specs.Prelude.{◌≡◌};
ghost use Rattle.ledger_types.specs.Header.{header_format};
ghost use Rattle.ledger_types.specs.Key.{key_format};
ghost use Rattle.ledger_types.specs.Entry.{entry_format, key_of as key_of_entry};

use crate::errors::{made, unread};
use crate::hashes::{hash_of, push_hex_line};
use case_text::{Case, CaseErr, Fragments, first_word, number, push_str};
use entry_map::{EntryMap, Made};
use ledger_file::{Ledger, LedgerErr, read_ledger, read_verdicts, write_ledger};
use ledger_spec::LedgerWhy;
use ledger_types::{LedgerEntry, LedgerEntryData, LedgerKey, key_of};
use std::alloc::Global;
use std::fmt::Write;
use value_types::Hash;
use value_xdr::decode;

/// A kind, LEDGER and the kind's other words. A ledger that is refused has the refusal as its outcome.
///
/// `ledger` and `followed` LEDGER: what was read; `followed` demands that another ledger can follow. `written` LEDGER: the file
/// that is written of it. `life` LEDGER KEY, `raised` LEDGER KEY UNTIL, `made` LEDGER ENTRY UNTIL: an entry.
pub fn ledger_case(
    alloc: Global,
    fragments: &Fragments,
    case: Case,
    out: &mut String,
) -> Result<(), CaseErr> {
    let (ledger, rest) = first_word(case.words);
    let (entry, until) = first_word(rest);
    let ledger = fragments.bytes(alloc, ledger)?;
    let entry = fragments.bytes(alloc, entry)?;
    let asked = Asked {
        kind: case.kind,
        entry: &entry,
        until,
    };
    read(alloc, &ledger, asked, out)
}

/// What is asked of a ledger: a kind of case, and the bytes of a key or an entry.
#[derive(Clone, Copy)]
struct Asked<'a> {
    kind: &'a str,
    entry: &'a [u8],
    until: &'a str,
}

fn read(alloc: Global, ledger: &[u8], asked: Asked, out: &mut String) -> Result<(), CaseErr> {
    match read_ledger(alloc, ledger, asked.kind == "followed") {
        Ok(mut ledger) => push_asked(alloc, &mut ledger, asked, out),
        Err(error) => push_no_ledger(out, error),
    }
}

fn push_asked(
    alloc: Global,
    ledger: &mut Ledger,
    asked: Asked,
    out: &mut String,
) -> Result<(), CaseErr>
    requires { header_format.fits ledger.old.header }
{
    match asked.kind {
        "written" => push_written(alloc, ledger, out),
        "life" => push_life(alloc, &ledger.entries, asked.entry, out),
        "raised" => push_raised(alloc, &mut ledger.entries, asked, out),
        "made" => push_made(alloc, ledger, asked, out),
        _ => push_ledger(ledger, out),
    }
}

/// Appends why a ledger was not read.
pub fn push_no_ledger(out: &mut String, error: LedgerErr) -> Result<(), CaseErr> {
    match error {
        LedgerErr::Refused(refusal) => {
            let (number, at) = (number_of(refusal.why), refusal.at);
            writeln!(out, "refused {number} at {at}")?;
            Ok(())
        }
        LedgerErr::NoMemory => Err(CaseErr::NoMemory),
    }
}

fn number_of(why: LedgerWhy) -> u8 {
    match why {
        LedgerWhy::Xdr => 1,
        LedgerWhy::Order => 2,
        LedgerWhy::TtlHash => 3,
        LedgerWhy::CodeHash => 4,
        LedgerWhy::Settings => 5,
        LedgerWhy::SeqEnd => 6,
    }
}

fn push_ledger(ledger: &Ledger, out: &mut String) -> Result<(), CaseErr> {
    let (protocol, seq) = (ledger.header.protocol, ledger.header.seq);
    let (time, records) = (ledger.header.close_time, ledger.entries.len());
    writeln!(
        out,
        "ledger {seq} of protocol {protocol} closed at {time} with {records} records"
    )?;
    Ok(())
}

fn push_written(alloc: Global, ledger: &Ledger, out: &mut String) -> Result<(), CaseErr>
    requires { header_format.fits ledger.now.header }
{
    let file = made(write_ledger(alloc, ledger))?;
    push_hex_line(alloc, out, file.as_slice())
}

/// Appends the last ledger in which the entry of the key is live, or none.
fn push_life(
    alloc: Global,
    entries: &EntryMap,
    key: &[u8],
    out: &mut String,
) -> Result<(), CaseErr> {
    match life_of(alloc, entries, key)? {
        Some(live_until) => writeln!(out, "until {live_until}")?,
        None => out.push_str("none\n")?,
    }
    Ok(())
}

fn life_of(alloc: Global, entries: &EntryMap, key: &[u8]) -> Result<Option<u32>, CaseErr> {
    match decode::<LedgerKey>(alloc, key) {
        Ok(key) => Ok(entries.find(&key).map(|kept| kept.live_until)),
        Err(error) => Err(unread(error, "a key")),
    }
}

/// Reads a number of 32 bits, as that of a ledger.
pub fn small_number(word: &str) -> Result<u32, CaseErr> {
    u32::try_from(number(word)?)
        .ok()
        .ok_or(CaseErr::Lacks("a number of 32 bits"))
}

/// Appends the same, after the entry's life was raised to a ledger.
fn push_raised(
    alloc: Global,
    entries: &mut EntryMap,
    asked: Asked,
    out: &mut String,
) -> Result<(), CaseErr> {
    raise(alloc, entries, asked.entry, small_number(asked.until)?)?;
    push_life(alloc, entries, asked.entry, out)
}

fn raise(alloc: Global, entries: &mut EntryMap, key: &[u8], until: u32) -> Result<(), CaseErr> {
    match decode::<LedgerKey>(alloc, key) {
        Ok(key) => {
            entries.raise(&key, until);
            Ok(())
        }
        Err(error) => Err(unread(error, "a key")),
    }
}

/// Appends what a make of contract data in the next ledger does, and the entry at its key after that.
fn push_made(
    alloc: Global,
    ledger: &mut Ledger,
    asked: Asked,
    out: &mut String,
) -> Result<(), CaseErr> {
    let n = ledger.header.seq.saturating_add(1);
    let until = small_number(asked.until)?;
    let made = make(alloc, &mut ledger.entries, asked.entry, n, until)?;
    out.push_str(name_of(made))?;
    push_kept(alloc, &ledger.entries, asked.entry, out)
}

fn name_of(made: Made) -> &'static str {
    match made {
        Made::Created => "created",
        Made::Live => "live",
        Made::Archived => "archived",
    }
}

/// Makes the contract data that bytes spell, in ledger `n`.
pub fn make(
    alloc: Global,
    entries: &mut EntryMap,
    entry: &[u8],
    n: u32,
    until: u32,
) -> Result<Made, CaseErr> {
    match decode::<LedgerEntry>(alloc, entry) {
        Ok(entry) => make_entry(alloc, entries, entry, n, until),
        Err(error) => Err(unread(error, "an entry")),
    }
}

fn make_entry(
    alloc: Global,
    entries: &mut EntryMap,
    entry: LedgerEntry,
    n: u32,
    until: u32,
) -> Result<Made, CaseErr>
    requires { entry_format.fits entry }
{
    match key_of(&entry) {
        Ok(key) => make_at(alloc, entries, &key, entry, n, until),
        Err(_) => Err(CaseErr::NoMemory),
    }
}

fn make_at(
    alloc: Global,
    entries: &mut EntryMap,
    key: &LedgerKey,
    entry: LedgerEntry,
    n: u32,
    until: u32,
) -> Result<Made, CaseErr>
    requires key { key.now ≡ key_of_entry entry }
    requires fits { entry_format.fits entry }
{
    match entry.data {
        LedgerEntryData::ContractData(_) => made(entries.make(alloc, n, key, entry, until)),
        LedgerEntryData::ContractCode(_) => Err(CaseErr::Lacks("contract data")),
    }
}

/// Appends what is kept at the key of an entry.
fn push_kept(
    alloc: Global,
    entries: &EntryMap,
    entry: &[u8],
    out: &mut String,
) -> Result<(), CaseErr> {
    match decode::<LedgerEntry>(alloc, entry) {
        Ok(entry) => push_kept_of(entries, &entry, out),
        Err(error) => Err(unread(error, "an entry")),
    }
}

fn push_kept_of(entries: &EntryMap, entry: &LedgerEntry, out: &mut String) -> Result<(), CaseErr>
    requires { entry_format.fits entry.now }
{
    match key_of(entry) {
        Ok(key) => push_kept_at(entries, &key, out),
        Err(_) => Err(CaseErr::NoMemory),
    }
}

fn push_kept_at(entries: &EntryMap, key: &LedgerKey, out: &mut String) -> Result<(), CaseErr>
    requires { key_format.fits key.now }
{
    let kept = entries.find(key).ok_or(CaseErr::Lacks("the entry"))?;
    let (modified, until) = (kept.entry.last_modified_ledger_seq, kept.live_until);
    writeln!(out, ", modified in {modified}, until {until}")?;
    Ok(())
}

/// VERDICTS KEY PAYLOAD: whether the key's signature of the payload is good.
pub fn verdict(
    alloc: Global,
    fragments: &Fragments,
    words: &str,
    out: &mut String,
) -> Result<(), CaseErr> {
    let (verdicts, rest) = first_word(words);
    let (key, payload) = first_word(rest);
    let key = hash_of(alloc, fragments, key)?;
    let payload = hash_of(alloc, fragments, payload)?;
    let is_good = is_good(alloc, &fragments.bytes(alloc, verdicts)?, &key, &payload)?;
    push_str(out, if is_good { "good\n" } else { "unknown\n" })
}

fn is_good(alloc: Global, verdicts: &[u8], key: &Hash, payload: &Hash) -> Result<bool, CaseErr> {
    match read_verdicts(alloc, verdicts) {
        Ok(verdicts) => Ok(verdicts.holds(key, payload)),
        Err(error) => Err(unread(error, "verdicts")),
    }
}
