//! The options of the program, for clap.

ghost use Rattle.std.specs.Prelude.{◌≡◌, false, IfOk};
ghost use Rattle.clap.specs.Simple.{app_of, with_rule};
ghost use Rattle.clap.specs.Walk.{rule_of};
ghost use Rattle.command_words.specs.Commands.{flag_rule, with_flag};
ghost use Rattle.why_words.specs.Options.{lines_rule, named_app, optional_rule, why_app};
ghost use Rattle.why_words.specs.Options.{with_files, with_forms, with_optional, with_required, with_targets};

use clap::{Arg, ArgAction, Command};
use std::alloc::{AllocError, Global};

/// How many lines of a trace are kept at most, if the words do not say.
const MOST_LINES: &str = "10000";

/// The definition of the program for clap.
#[tactic(auto, unfolding(crate::specs::Options::why_app))]
pub(crate) fn why_command<'a>(alloc: Global) -> Result<Command<'a>, AllocError>
    ensures { IfOk result (λ c. app_of c ≡ why_app) }
{
    let command = with_targets(alloc, named_command(alloc))?;
    let command = with_files(alloc, command)?;
    with_forms(alloc, command)
}

/// The program before it has options, without its own name among the words.
fn named_command<'a>(alloc: Global) -> Command<'a>
    ensures { app_of result ≡ named_app }
{
    Command::new(alloc, "soroban_why")
        .version("1.0.0")
        .about("Runs a transaction, and shows what it did and why a call failed")
        .no_binary_name(true)
}

/// Adds the options that say what is run: an envelope, or a place of a set.
fn with_targets<'a>(alloc: Global, command: Command<'a>) -> Result<Command<'a>, AllocError>
    ensures { IfOk result (λ c. app_of c ≡ with_targets (app_of command.entry)) }
{
    let tx = "The transaction's envelope (either this or --set)";
    let set = "The set that has the transaction (with its place)";
    let stage = "Its stage in the set, from 0";
    let cluster = "Its cluster in the stage, from 0";
    let place = "Its place in the cluster, from 0";
    let command = with_optional(command, alloc, "tx", "FILE", tx)?;
    let command = with_optional(command, alloc, "set", "FILE", set)?;
    let command = with_optional(command, alloc, "stage", "NUMBER", stage)?;
    let command = with_optional(command, alloc, "cluster", "NUMBER", cluster)?;
    with_optional(command, alloc, "place", "NUMBER", place)
}

/// Adds the options of which each run has one.
fn with_files<'a>(alloc: Global, command: Command<'a>) -> Result<Command<'a>, AllocError>
    ensures { IfOk result (λ c. app_of c ≡ with_files (app_of command.entry)) }
{
    let ledger = "The ledger before the transaction, or the set";
    let verdicts = "The verdicts on signatures";
    let close_time = "The close time of the ledger that is made";
    let command = with_required(command, alloc, "ledger", "FILE", ledger)?;
    let command = with_required(command, alloc, "verdicts", "FILE", verdicts)?;
    with_required(command, alloc, "close-time", "SECONDS", close_time)
}

/// Adds the options that change how a run is made and shown.
fn with_forms<'a>(alloc: Global, command: Command<'a>) -> Result<Command<'a>, AllocError>
    ensures { IfOk result (λ c. app_of c ≡ with_forms (app_of command.entry)) }
{
    let record = "Take the footprint that the run needs (not with --set)";
    let base64 = "The envelope, or the set, is base64 text";
    let json = "Print the trace as a JSON document";
    let command = with_flag(command, alloc, "record", record)?;
    let command = with_flag(command, alloc, "base64", base64)?;
    let command = with_flag(command, alloc, "json", json)?;
    with_argument(command, lines_option(alloc))
}

/// Adds a long option that need not be given, with one value.
fn with_optional<'a>(
    command: Command<'a>,
    alloc: Global,
    name: &'a str,
    value: &'a str,
    help: &'a str,
) -> Result<Command<'a>, AllocError>
    ensures { IfOk result (λ c. app_of c ≡ with_optional name.entry.now (app_of command.entry)) }
{
    with_argument(command, optional(alloc, name, value, help))
}

/// Adds a long option that is required, with one value.
fn with_required<'a>(
    command: Command<'a>,
    alloc: Global,
    name: &'a str,
    value: &'a str,
    help: &'a str,
) -> Result<Command<'a>, AllocError>
    ensures { IfOk result (λ c. app_of c ≡ with_required name.entry.now (app_of command.entry)) }
{
    with_argument(command, optional(alloc, name, value, help).required(true))
}

/// Adds a flag.
fn with_flag<'a>(
    command: Command<'a>,
    alloc: Global,
    name: &'a str,
    help: &'a str,
) -> Result<Command<'a>, AllocError>
    ensures { IfOk result (λ c. app_of c ≡ with_flag name.entry.now (app_of command.entry)) }
{
    with_argument(command, flag(alloc, name, help))
}

fn with_argument<'a>(command: Command<'a>, argument: Arg<'a>) -> Result<Command<'a>, AllocError>
    requires { argument.global ≡ false }
    ensures { IfOk result (λ c. app_of c ≡ with_rule (app_of command.entry) (rule_of argument.entry)) }
{
    command.arg(argument)
}

/// A long option that need not be given, with one value.
fn optional<'a>(alloc: Global, name: &'a str, value: &'a str, help: &'a str) -> Arg<'a>
    ensures rule { rule_of result ≡ optional_rule name.entry.now }
    ensures local { result.global ≡ false }
{
    Arg::new(alloc, name)
        .long(name)
        .value_name(value)
        .help(help)
        .action(ArgAction::Set)
}

/// The option of the number of lines.
fn lines_option<'a>(alloc: Global) -> Arg<'a>
    ensures rule { rule_of result ≡ lines_rule }
    ensures local { result.global ≡ false }
{
    optional(
        alloc,
        "lines",
        "COUNT",
        "The most lines that are kept of the trace",
    )
    .default_value(MOST_LINES)
}

fn flag<'a>(alloc: Global, name: &'a str, help: &'a str) -> Arg<'a>
    ensures rule { rule_of result ≡ flag_rule name.entry.now }
    ensures local { result.global ≡ false }
{
    Arg::new(alloc, name)
        .long(name)
        .help(help)
        .action(ArgAction::SetTrue)
}
