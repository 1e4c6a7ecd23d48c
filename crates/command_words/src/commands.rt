//! The commands and their options, for clap.

ghost use Rattle.std.specs.Prelude.{◌≡◌, false, IfOk};
ghost use Rattle.clap.specs.Simple.{app_of, new_app, with_rule, with_subcommand};
ghost use Rattle.clap.specs.Walk.{rule_of};
ghost use Rattle.clap.specs.declared.builder.command.Command.TheViews.{out-Command as fields_of};
ghost use Rattle.command_words.specs.Commands.{apply_app, apply_list_app, bare_app, build_app, flag_rule, gen_app, migrate_app};
ghost use Rattle.command_words.specs.Commands.{option_rule, optional_rule, play_app, record_app, show_app, simulate_app};
ghost use Rattle.command_words.specs.Commands.{soroban_app, vet_app, with_flag, with_option, with_optional};

use clap::{Arg, ArgAction, Command};
use std::alloc::{AllocError, Global};

/// The definition of the program for clap.
pub fn soroban_command<'a>(alloc: Global) -> Result<Command<'a>, AllocError>
    ensures { IfOk result (λ c. app_of c ≡ soroban_app) }
{
    let command = with_command(bare_command(alloc), apply_command(alloc)?)?;
    let command = with_command(command, simulate_command(alloc)?)?;
    let command = with_command(command, show_command(alloc)?)?;
    let command = with_command(command, vet_command(alloc)?)?;
    let command = with_command(command, migrate_command(alloc)?)?;
    let command = with_command(command, gen_command(alloc)?)?;
    let command = with_command(command, build_command(alloc)?)?;
    let command = with_command(command, play_command(alloc)?)?;
    let command = with_command(command, apply_list_command(alloc)?)?;
    let command = with_command(command, record_command(alloc)?)?;
    Ok(command)
}

/// The program before it has commands, without help and without its own name among the words.
fn bare_command<'a>(alloc: Global) -> Command<'a>
    ensures { app_of result ≡ bare_app }
{
    Command::new(alloc, "soroban")
        .no_binary_name(true)
        .disable_help_flag(true)
        .disable_help_subcommand(true)
        .subcommand_required(true)
}

#[tactic(auto, unfolding(crate::specs::Commands::apply_app))]
fn apply_command<'a>(alloc: Global) -> Result<Command<'a>, AllocError>
    ensures app { IfOk result (λ c. app_of c ≡ apply_app) }
    ensures local { IfOk result (λ c. (fields_of c).has_globals ≡ false) }
{
    let command = Command::new(alloc, "apply");
    let command = with_options(command, alloc, "set", "ledger", "verdicts")?;
    let command = with_options(command, alloc, "close-time", "workers", "report")?;
    let command = with_option(command, alloc, "ledger-out")?;
    let command = with_optional(command, alloc, "schedule")?;
    let command = with_optional(command, alloc, "steps")?;
    let command = with_optional(command, alloc, "log")?;
    with_flag(command, alloc, "base64")
}

#[tactic(auto, unfolding(crate::specs::Commands::simulate_app))]
fn simulate_command<'a>(alloc: Global) -> Result<Command<'a>, AllocError>
    ensures app { IfOk result (λ c. app_of c ≡ simulate_app) }
    ensures local { IfOk result (λ c. (fields_of c).has_globals ≡ false) }
{
    let command = Command::new(alloc, "simulate");
    let command = with_options(command, alloc, "tx", "ledger", "verdicts")?;
    let command = with_option(command, alloc, "close-time")?;
    let command = with_option(command, alloc, "out")?;
    with_flag(command, alloc, "base64")
}

#[tactic(auto, unfolding(crate::specs::Commands::show_app))]
fn show_command<'a>(alloc: Global) -> Result<Command<'a>, AllocError>
    ensures app { IfOk result (λ c. app_of c ≡ show_app) }
    ensures local { IfOk result (λ c. (fields_of c).has_globals ≡ false) }
{
    let command = Command::new(alloc, "show");
    let command = with_option(command, alloc, "kind")?;
    let command = with_option(command, alloc, "file")?;
    with_flag(command, alloc, "base64")
}

#[tactic(auto, unfolding(crate::specs::Commands::vet_app))]
fn vet_command<'a>(alloc: Global) -> Result<Command<'a>, AllocError>
    ensures app { IfOk result (λ c. app_of c ≡ vet_app) }
    ensures local { IfOk result (λ c. (fields_of c).has_globals ≡ false) }
{
    with_option(Command::new(alloc, "vet"), alloc, "module")
}

#[tactic(auto, unfolding(crate::specs::Commands::migrate_app))]
fn migrate_command<'a>(alloc: Global) -> Result<Command<'a>, AllocError>
    ensures app { IfOk result (λ c. app_of c ≡ migrate_app) }
    ensures local { IfOk result (λ c. (fields_of c).has_globals ≡ false) }
{
    let command = with_option(Command::new(alloc, "migrate"), alloc, "ledger")?;
    with_option(command, alloc, "ledger-out")
}

#[tactic(auto, unfolding(crate::specs::Commands::gen_app))]
fn gen_command<'a>(alloc: Global) -> Result<Command<'a>, AllocError>
    ensures app { IfOk result (λ c. app_of c ≡ gen_app) }
    ensures local { IfOk result (λ c. (fields_of c).has_globals ≡ false) }
{
    let command = Command::new(alloc, "gen");
    let command = with_options(command, alloc, "count", "seed", "set")?;
    let command = with_option(command, alloc, "ledger")?;
    with_option(command, alloc, "verdicts")
}

#[tactic(auto, unfolding(crate::specs::Commands::build_app))]
fn build_command<'a>(alloc: Global) -> Result<Command<'a>, AllocError>
    ensures app { IfOk result (λ c. app_of c ≡ build_app) }
    ensures local { IfOk result (λ c. (fields_of c).has_globals ≡ false) }
{
    with_options(
        Command::new(alloc, "build"),
        alloc,
        "list",
        "clusters",
        "set",
    )
}

#[tactic(auto, unfolding(crate::specs::Commands::play_app))]
fn play_command<'a>(alloc: Global) -> Result<Command<'a>, AllocError>
    ensures app { IfOk result (λ c. app_of c ≡ play_app) }
    ensures local { IfOk result (λ c. (fields_of c).has_globals ≡ false) }
{
    let command = Command::new(alloc, "play");
    let command = with_options(command, alloc, "log", "ledger", "ledger-out")?;
    with_option(command, alloc, "back")
}

#[tactic(auto, unfolding(crate::specs::Commands::apply_list_app))]
fn apply_list_command<'a>(alloc: Global) -> Result<Command<'a>, AllocError>
    ensures app { IfOk result (λ c. app_of c ≡ apply_list_app) }
    ensures local { IfOk result (λ c. (fields_of c).has_globals ≡ false) }
{
    let command = Command::new(alloc, "apply-list");
    let command = with_options(command, alloc, "list", "ledger", "verdicts")?;
    let command = with_options(command, alloc, "close-time", "workers", "report")?;
    with_option(command, alloc, "ledger-out")
}

#[tactic(auto, unfolding(crate::specs::Commands::record_app))]
fn record_command<'a>(alloc: Global) -> Result<Command<'a>, AllocError>
    ensures app { IfOk result (λ c. app_of c ≡ record_app) }
    ensures local { IfOk result (λ c. (fields_of c).has_globals ≡ false) }
{
    let command = Command::new(alloc, "record");
    let command = with_options(command, alloc, "tx", "ledger", "close-time")?;
    with_options(command, alloc, "nonce", "expiration", "out")
}

fn with_command<'a>(
    command: Command<'a>,
    subcommand: Command<'a>,
) -> Result<Command<'a>, AllocError>
    requires { (fields_of subcommand).has_globals ≡ false }
    ensures { IfOk result (λ c. app_of c ≡ with_subcommand (app_of command.entry) (app_of subcommand.entry).top) }
{
    command.subcommand(subcommand)
}

fn with_options<'a>(
    command: Command<'a>,
    alloc: Global,
    first: &'a str,
    second: &'a str,
    third: &'a str,
) -> Result<Command<'a>, AllocError>
    ensures app { IfOk result
        (λ c. app_of c
        ≡ with_option third.entry.now (with_option second.entry.now (with_option first.entry.now (app_of command.entry)))) }
    ensures local { IfOk result (λ c. (fields_of c).has_globals ≡ (fields_of command.entry).has_globals) }
{
    let command = with_option(command, alloc, first)?;
    let command = with_option(command, alloc, second)?;
    with_option(command, alloc, third)
}

/// A long option that is required, with one value.
fn with_option<'a>(
    command: Command<'a>,
    alloc: Global,
    name: &'a str,
) -> Result<Command<'a>, AllocError>
    ensures app { IfOk result (λ c. app_of c ≡ with_option name.entry.now (app_of command.entry)) }
    ensures local { IfOk result (λ c. (fields_of c).has_globals ≡ (fields_of command.entry).has_globals) }
{
    with_argument(command, long_option(alloc, name))
}

/// A long option that need not be given, with one value.
fn with_optional<'a>(
    command: Command<'a>,
    alloc: Global,
    name: &'a str,
) -> Result<Command<'a>, AllocError>
    ensures app { IfOk result (λ c. app_of c ≡ with_optional name.entry.now (app_of command.entry)) }
    ensures local { IfOk result (λ c. (fields_of c).has_globals ≡ (fields_of command.entry).has_globals) }
{
    with_argument(command, optional_option(alloc, name))
}

fn with_flag<'a>(
    command: Command<'a>,
    alloc: Global,
    name: &'a str,
) -> Result<Command<'a>, AllocError>
    ensures app { IfOk result (λ c. app_of c ≡ with_flag name.entry.now (app_of command.entry)) }
    ensures local { IfOk result (λ c. (fields_of c).has_globals ≡ (fields_of command.entry).has_globals) }
{
    with_argument(command, flag(alloc, name))
}

fn with_argument<'a>(command: Command<'a>, argument: Arg<'a>) -> Result<Command<'a>, AllocError>
    requires { argument.global ≡ false }
    ensures app { IfOk result (λ c. app_of c ≡ with_rule (app_of command.entry) (rule_of argument.entry)) }
    ensures local { IfOk result (λ c. (fields_of c).has_globals ≡ (fields_of command.entry).has_globals) }
{
    command.arg(argument)
}

fn long_option<'a>(alloc: Global, name: &'a str) -> Arg<'a>
    ensures rule { rule_of result ≡ option_rule name.entry.now }
    ensures local { result.global ≡ false }
{
    Arg::new(alloc, name)
        .long(name)
        .required(true)
        .action(ArgAction::Set)
}

fn optional_option<'a>(alloc: Global, name: &'a str) -> Arg<'a>
    ensures rule { rule_of result ≡ optional_rule name.entry.now }
    ensures local { result.global ≡ false }
{
    Arg::new(alloc, name).long(name).action(ArgAction::Set)
}

fn flag<'a>(alloc: Global, name: &'a str) -> Arg<'a>
    ensures rule { rule_of result ≡ flag_rule name.entry.now }
    ensures local { result.global ≡ false }
{
    Arg::new(alloc, name).long(name).action(ArgAction::SetTrue)
}
