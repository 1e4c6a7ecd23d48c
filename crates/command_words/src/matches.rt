//! From clap's matches to a request.

ghost use Rattle.std.specs.Prelude.{◌≡◌, ◌≤◌, IfOk, codes, is_some, option_and_then, option_map};
ghost use Rattle.clap.specs.Matches.{found_of};
ghost use Rattle.clap.specs.Simple.{subcommand_rows_of};
ghost use Rattle.clap.specs.Walk.{first_of, rows_of};
ghost use Rattle.command_words.specs.Answers.{ReadsWords};
ghost use Rattle.command_words.specs.Values.{back_in, is_set, kind_in, number_in};
ghost use Rattle.command_words.specs.Words.{IsInRange, apply_from, apply_list_from, asked_from, build_from, gen_from, log_from};
ghost use Rattle.command_words.specs.Words.{migrate_from, more_of as more_of_in, schedule_from};
ghost use Rattle.command_words.specs.Words.{play_from, record_from, show_from, simulate_from, vet_from};

use crate::values::{are_names, are_names_with, kind_in, number_in};
use crate::{
    ApplyListRequest, ApplyRequest, BuildRequest, GenRequest, MigrateRequest, PlayRequest,
    RecordRequest, Request, ScheduleOptions, ShowKind, ShowRequest, SimulateRequest, VetRequest,
    WordsErr,
};
use clap::ArgMatches;
use edge_io::Word;
use std::alloc::Global;

const MAX_WORKERS: u64 = 64;

/// The largest number of transactions that `gen` makes.
const MAX_COUNT: u64 = 100_000;

/// The largest nonce that `record` begins with: 2^62.
const MAX_NONCE: u64 = 4_611_686_018_427_387_904;

/// The largest number of clusters of a stage of a built set.
const MAX_CLUSTERS: u64 = 1024;

/// The request of the command that clap found.
pub fn request_from(alloc: Global, matches: &ArgMatches<'_>) -> Result<Request, WordsErr>
    ensures request { ReadsWords result (asked_from (subcommand_rows_of matches.now)) }
    ensures range { IfOk result IsInRange }
{
    let Some((name, found)) = subcommand_in(matches) else {
        return Err(WordsErr::Usage);
    };
    match name {
        "apply" => apply_request(alloc, found),
        "simulate" => simulate_request(alloc, found),
        "show" => show_request(alloc, found),
        "vet" => vet_request(alloc, found),
        "migrate" => migrate_request(alloc, found),
        "gen" => gen_request(alloc, found),
        "build" => build_request(alloc, found),
        "play" => play_request(alloc, found),
        "apply-list" => apply_list_request(alloc, found),
        "record" => record_request(alloc, found),
        _ => Err(WordsErr::Usage),
    }
}

/// The subcommand of a parse, and its matches.
fn subcommand_in<'m, 'a>(matches: &'m ArgMatches<'a>) -> Option<(&'a str, &'m ArgMatches<'a>)>
    ensures { option_map (λ p. (p.0.now, rows_of (found_of p.1.now))) result ≡ subcommand_rows_of matches.now }
{
    matches.subcommand()
}

fn apply_request(alloc: Global, found: &ArgMatches<'_>) -> Result<Request, WordsErr>
    ensures request { ReadsWords result (apply_from (rows_of (found_of found.now))) }
    ensures range { IfOk result IsInRange }
{
    let set = value_of(alloc, found, "set")?;
    let ledger = value_of(alloc, found, "ledger")?;
    let verdicts = value_of(alloc, found, "verdicts")?;
    let close_time = number_of(found, "close-time", 0, u64::MAX)?;
    let workers = number_of(found, "workers", 1, MAX_WORKERS)?;
    let report = value_of(alloc, found, "report")?;
    let ledger_out = value_of(alloc, found, "ledger-out")?;
    let schedule = schedule_of(alloc, found)?;
    let log = log_of(alloc, found, &schedule)?;
    let more = more_of(&schedule, &log);
    if !are_names_with(more, &[&set, &ledger, &verdicts, &report, &ledger_out]) {
        return Err(WordsErr::Usage);
    }
    Ok(Request::Apply(ApplyRequest {
        set,
        ledger,
        verdicts,
        close_time,
        workers,
        report,
        ledger_out,
        schedule,
        log,
        base64: is_set(found, "base64"),
    }))
}

/// The file of the change log of `apply`, if one is asked for.
fn log_of(
    alloc: Global,
    found: &ArgMatches<'_>,
    schedule: &Option<ScheduleOptions>,
) -> Result<Option<Word>, WordsErr>
    ensures { ReadsWords result (log_from (first_of (codes "log") (rows_of (found_of found.now))) schedule.now) }
{
    if !is_given(found, "log") {
        return Ok(None);
    }
    if schedule.is_some() {
        return Err(WordsErr::Usage);
    }
    let file = value_of(alloc, found, "log")?;
    Ok(Some(file))
}

/// The file of a schedule or of a change log, if there is one.
fn more_of<'a>(schedule: &'a Option<ScheduleOptions>, log: &'a Option<Word>) -> Option<&'a Word>
    ensures { option_map (λ n. n.now) result ≡ more_of_in schedule.now log.now }
{
    match schedule {
        Some(schedule) => Some(&schedule.file),
        None => log.as_ref(),
    }
}

/// The schedule of `apply`, if one is given.
fn schedule_of(alloc: Global, found: &ArgMatches<'_>) -> Result<Option<ScheduleOptions>, WordsErr>
    ensures { ReadsWords result (schedule_from (first_of (codes "schedule") (rows_of (found_of found.now)))
        (first_of (codes "steps") (rows_of (found_of found.now)))) }
{
    if !is_given(found, "schedule") {
        return if is_given(found, "steps") {
            Err(WordsErr::Usage)
        } else {
            Ok(None)
        };
    }
    let file = value_of(alloc, found, "schedule")?;
    let steps = if is_given(found, "steps") {
        number_of(found, "steps", 0, u64::MAX)?
    } else {
        u64::MAX
    };
    Ok(Some(ScheduleOptions { file, steps }))
}

fn simulate_request(alloc: Global, found: &ArgMatches<'_>) -> Result<Request, WordsErr>
    ensures request { ReadsWords result (simulate_from (rows_of (found_of found.now))) }
    ensures range { IfOk result IsInRange }
{
    let tx = value_of(alloc, found, "tx")?;
    let ledger = value_of(alloc, found, "ledger")?;
    let verdicts = value_of(alloc, found, "verdicts")?;
    let close_time = number_of(found, "close-time", 0, u64::MAX)?;
    let out = value_of(alloc, found, "out")?;
    if !are_names(&[&tx, &ledger, &verdicts, &out]) {
        return Err(WordsErr::Usage);
    }
    Ok(Request::Simulate(SimulateRequest {
        tx,
        ledger,
        verdicts,
        close_time,
        out,
        base64: is_set(found, "base64"),
    }))
}

fn show_request(alloc: Global, found: &ArgMatches<'_>) -> Result<Request, WordsErr>
    ensures request { ReadsWords result (show_from (rows_of (found_of found.now))) }
    ensures range { IfOk result IsInRange }
{
    let kind = kind_of(found, "kind")?;
    let file = value_of(alloc, found, "file")?;
    if !are_names(&[&file]) {
        return Err(WordsErr::Usage);
    }
    Ok(Request::Show(ShowRequest {
        kind,
        file,
        base64: is_set(found, "base64"),
    }))
}

fn vet_request(alloc: Global, found: &ArgMatches<'_>) -> Result<Request, WordsErr>
    ensures request { ReadsWords result (vet_from (rows_of (found_of found.now))) }
    ensures range { IfOk result IsInRange }
{
    let module_file = value_of(alloc, found, "module")?;
    if !are_names(&[&module_file]) {
        return Err(WordsErr::Usage);
    }
    Ok(Request::Vet(VetRequest { module_file }))
}

fn migrate_request(alloc: Global, found: &ArgMatches<'_>) -> Result<Request, WordsErr>
    ensures request { ReadsWords result (migrate_from (rows_of (found_of found.now))) }
    ensures range { IfOk result IsInRange }
{
    let ledger = value_of(alloc, found, "ledger")?;
    let ledger_out = value_of(alloc, found, "ledger-out")?;
    if !are_names(&[&ledger, &ledger_out]) {
        return Err(WordsErr::Usage);
    }
    Ok(Request::Migrate(MigrateRequest { ledger, ledger_out }))
}

fn gen_request(alloc: Global, found: &ArgMatches<'_>) -> Result<Request, WordsErr>
    ensures request { ReadsWords result (gen_from (rows_of (found_of found.now))) }
    ensures range { IfOk result IsInRange }
{
    let count = number_of(found, "count", 1, MAX_COUNT)?;
    let seed = number_of(found, "seed", 0, u64::MAX)?;
    let set = value_of(alloc, found, "set")?;
    let ledger = value_of(alloc, found, "ledger")?;
    let verdicts = value_of(alloc, found, "verdicts")?;
    if !are_names(&[&set, &ledger, &verdicts]) {
        return Err(WordsErr::Usage);
    }
    Ok(Request::Gen(GenRequest {
        count,
        seed,
        set,
        ledger,
        verdicts,
    }))
}

fn build_request(alloc: Global, found: &ArgMatches<'_>) -> Result<Request, WordsErr>
    ensures request { ReadsWords result (build_from (rows_of (found_of found.now))) }
    ensures range { IfOk result IsInRange }
{
    let list = value_of(alloc, found, "list")?;
    let clusters = number_of(found, "clusters", 1, MAX_CLUSTERS)?;
    let set = value_of(alloc, found, "set")?;
    if !are_names(&[&list, &set]) {
        return Err(WordsErr::Usage);
    }
    Ok(Request::Build(BuildRequest {
        list,
        clusters,
        set,
    }))
}

fn play_request(alloc: Global, found: &ArgMatches<'_>) -> Result<Request, WordsErr>
    ensures request { ReadsWords result (play_from (rows_of (found_of found.now))) }
    ensures range { IfOk result IsInRange }
{
    let log = value_of(alloc, found, "log")?;
    let ledger = value_of(alloc, found, "ledger")?;
    let ledger_out = value_of(alloc, found, "ledger-out")?;
    let back = back_of(found, "back")?;
    if !are_names(&[&log, &ledger, &ledger_out]) {
        return Err(WordsErr::Usage);
    }
    Ok(Request::Play(PlayRequest {
        log,
        ledger,
        ledger_out,
        back,
    }))
}

/// The value of an option, as 1 or 0.
fn back_of(found: &ArgMatches<'_>, id: &str) -> Result<bool, WordsErr>
    ensures { ReadsWords result (option_and_then back_in (first_of id.now (rows_of (found_of found.now)))) }
{
    let number = number_of(found, id, 0, 1)?;
    Ok(number == 1)
}

fn apply_list_request(alloc: Global, found: &ArgMatches<'_>) -> Result<Request, WordsErr>
    ensures request { ReadsWords result (apply_list_from (rows_of (found_of found.now))) }
    ensures range { IfOk result IsInRange }
{
    let list = value_of(alloc, found, "list")?;
    let ledger = value_of(alloc, found, "ledger")?;
    let verdicts = value_of(alloc, found, "verdicts")?;
    let close_time = number_of(found, "close-time", 0, u64::MAX)?;
    let workers = number_of(found, "workers", 1, MAX_WORKERS)?;
    let report = value_of(alloc, found, "report")?;
    let ledger_out = value_of(alloc, found, "ledger-out")?;
    if !are_names(&[&list, &ledger, &verdicts, &report, &ledger_out]) {
        return Err(WordsErr::Usage);
    }
    Ok(Request::ApplyList(ApplyListRequest {
        list,
        ledger,
        verdicts,
        close_time,
        workers,
        report,
        ledger_out,
    }))
}

fn record_request(alloc: Global, found: &ArgMatches<'_>) -> Result<Request, WordsErr>
    ensures request { ReadsWords result (record_from (rows_of (found_of found.now))) }
    ensures range { IfOk result IsInRange }
{
    let tx = value_of(alloc, found, "tx")?;
    let ledger = value_of(alloc, found, "ledger")?;
    let close_time = number_of(found, "close-time", 0, u64::MAX)?;
    let nonce = number_of(found, "nonce", 0, MAX_NONCE)?;
    let expiration = number_of(found, "expiration", 0, 4_294_967_295)?;
    let out = value_of(alloc, found, "out")?;
    if !are_names(&[&tx, &ledger, &out]) {
        return Err(WordsErr::Usage);
    }
    Ok(Request::Record(RecordRequest {
        tx,
        ledger,
        close_time,
        nonce,
        expiration,
        out,
    }))
}

/// Whether an option is given.
#[tactic(auto, using(crate::proofs::Parsing::first_of_rows))]
pub fn is_given(found: &ArgMatches<'_>, id: &str) -> bool
    ensures { result ≡ is_some (first_of id.now (rows_of (found_of found.now))) }
{
    found.get_str(id).is_some()
}

/// The value of an option. Usage if it is not given.
#[tactic(auto, using(crate::proofs::Parsing::first_of_rows))]
pub fn value_of(alloc: Global, found: &ArgMatches<'_>, id: &str) -> Result<Word, WordsErr>
    ensures { ReadsWords result (first_of id.now (rows_of (found_of found.now))) }
{
    let Some(text) = found.get_str(id) else {
        return Err(WordsErr::Usage);
    };
    let text = String::from_str(alloc, text)?;
    Ok(Word::new(text))
}

/// The value of an option, as a number from `least` to `most`. Usage if it is not given, or is none.
#[tactic(auto, using(crate::proofs::Parsing::first_of_rows))]
pub fn number_of(found: &ArgMatches<'_>, id: &str, least: u64, most: u64) -> Result<u64, WordsErr>
    ensures number { ReadsWords result (option_and_then (number_in least most) (first_of id.now (rows_of (found_of found.now)))) }
    ensures range { IfOk result (λ n. (least ≤ n) × (n ≤ most)) }
{
    let Some(text) = found.get_str(id) else {
        return Err(WordsErr::Usage);
    };
    number_in(text, least, most).ok_or(WordsErr::Usage)
}

/// The value of an option, as a kind of file.
#[tactic(auto, using(crate::proofs::Parsing::first_of_rows))]
fn kind_of(found: &ArgMatches<'_>, id: &str) -> Result<ShowKind, WordsErr>
    ensures { ReadsWords result (option_and_then kind_in (first_of id.now (rows_of (found_of found.now)))) }
{
    let Some(text) = found.get_str(id) else {
        return Err(WordsErr::Usage);
    };
    kind_in(text).ok_or(WordsErr::Usage)
}

/// Whether a flag is among the words.
#[tactic(auto, using(crate::proofs::Parsing::first_of_rows))]
pub fn is_set(found: &ArgMatches<'_>, id: &str) -> bool
    ensures { result ≡ is_set (first_of id.now (rows_of (found_of found.now))) }
{
    match found.get_str(id) {
        Some(text) => text == "true",
        None => false,
    }
}
