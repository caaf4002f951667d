//! The command `ql`, with its commands, places and options, as `clap` parses them.

ghost use Rattle.std.specs.Prelude.{◌≡◌, IfOk, false, map};
ghost use Rattle.clap.specs.Faults.{fault_of};
ghost use Rattle.clap.specs.Kinds.{FailsBy};
ghost use Rattle.clap.specs.Simple.{app_of, with_rule, HasMatchesOf};
ghost use Rattle.clap.specs.Walk.{rule_of};
ghost use Rattle.clap.specs.declared.builder.command.Command.TheViews.{out-Command as fields_of};
ghost use Rattle.ql_top.specs.CommandLine.{ql_app, top_app, plain_app, with_plain, with_looks, run_app, gen_app, trial_app, with_options, with_places, workers_rule, budget_rule, cells_rule, quantum_rule, policy_rule, seed_rule, size_rule};

use clap::{Arg, ArgMatches, Command, Error, value_parser};
use std::alloc::{AllocError, Global};

/// What `clap` makes of the words, the first of which is the program's name.
pub fn parse<'a>(alloc: Global, words: &'a [&'a str]) -> Result<ArgMatches<'a>, Error>
    ensures kinds { FailsBy (fault_of ql_app (map (λ w. w.now) words.now)) result }
    ensures matches { IfOk result (HasMatchesOf ql_app (map (λ w. w.now) words.now)) }
{
    ql(alloc)?.try_get_matches_from(words)
}

fn workers<'a>(alloc: Global) -> Arg<'a>
    ensures rule { rule_of result ≡ workers_rule }
    ensures local { result.global ≡ false }
{
    Arg::new(alloc, "workers")
        .long("workers")
        .value_parser(value_parser!(u64).range(1..=16))
        .default_value("1")
}

fn budget<'a>(alloc: Global) -> Arg<'a>
    ensures rule { rule_of result ≡ budget_rule }
    ensures local { result.global ≡ false }
{
    Arg::new(alloc, "budget")
        .long("budget")
        .value_parser(value_parser!(u64).range(1..=20_000_000))
        .default_value("2000000")
}

fn cells<'a>(alloc: Global) -> Arg<'a>
    ensures rule { rule_of result ≡ cells_rule }
    ensures local { result.global ≡ false }
{
    Arg::new(alloc, "cells")
        .long("cells")
        .value_parser(value_parser!(u64).range(1..=4_000_000))
        .default_value("1000000")
}

fn quantum<'a>(alloc: Global) -> Arg<'a>
    ensures rule { rule_of result ≡ quantum_rule }
    ensures local { result.global ≡ false }
{
    Arg::new(alloc, "quantum")
        .long("quantum")
        .value_parser(value_parser!(u64).range(1..=4_096))
        .default_value("256")
}

fn policy<'a>(alloc: Global) -> Arg<'a>
    ensures rule { rule_of result ≡ policy_rule }
    ensures local { result.global ≡ false }
{
    Arg::new(alloc, "policy")
        .long("policy")
        .default_value("turn")
}

fn seed<'a>(alloc: Global) -> Arg<'a>
    ensures rule { rule_of result ≡ seed_rule }
    ensures local { result.global ≡ false }
{
    Arg::new(alloc, "seed")
        .required(true)
        .value_parser(value_parser!(u64))
}

fn size<'a>(alloc: Global) -> Arg<'a>
    ensures rule { rule_of result ≡ size_rule }
    ensures local { result.global ≡ false }
{
    Arg::new(alloc, "size")
        .required(true)
        .value_parser(value_parser!(u64).range(1..=3_000))
}

/// The command with one more place or option.
fn with<'a>(command: Command<'a>, arg: Arg<'a>) -> Result<Command<'a>, AllocError>
    requires local { arg.global ≡ false }
    ensures app { IfOk result (λ c. app_of c ≡ with_rule (app_of command.entry) (rule_of arg.entry)) }
    ensures local { (fields_of command.entry).has_globals ≡ false → IfOk result (λ c. (fields_of c).has_globals ≡ false) }
{
    command.arg(arg)
}

/// The command with the options of a run.
fn optioned<'a>(alloc: Global, command: Command<'a>) -> Result<Command<'a>, AllocError>
    ensures app { IfOk result (λ c. app_of c ≡ with_options (app_of command.entry)) }
    ensures local { (fields_of command.entry).has_globals ≡ false → IfOk result (λ c. (fields_of c).has_globals ≡ false) }
{
    let first = with(command, workers(alloc))?;
    let second = with(first, budget(alloc))?;
    let third = with(second, cells(alloc))?;
    let fourth = with(third, quantum(alloc))?;
    let fifth = with(fourth, policy(alloc))?;
    Ok(fifth)
}

/// The command with a seed and a size.
fn placed<'a>(alloc: Global, command: Command<'a>) -> Result<Command<'a>, AllocError>
    ensures app { IfOk result (λ c. app_of c ≡ with_places (app_of command.entry)) }
    ensures local { (fields_of command.entry).has_globals ≡ false → IfOk result (λ c. (fields_of c).has_globals ≡ false) }
{
    let first = with(command, seed(alloc))?;
    with(first, size(alloc))
}

fn plain<'a>(alloc: Global, name: &'a str) -> Command<'a>
    ensures app { app_of result ≡ plain_app name.entry.now }
    ensures local { (fields_of result).has_globals ≡ false }
{
    Command::new(alloc, name)
}

fn run<'a>(alloc: Global) -> Result<Command<'a>, AllocError>
    ensures app { IfOk result (λ c. app_of c ≡ run_app) }
    ensures local { IfOk result (λ c. (fields_of c).has_globals ≡ false) }
{
    optioned(alloc, plain(alloc, "run"))
}

fn generator<'a>(alloc: Global) -> Result<Command<'a>, AllocError>
    ensures app { IfOk result (λ c. app_of c ≡ gen_app) }
    ensures local { IfOk result (λ c. (fields_of c).has_globals ≡ false) }
{
    placed(alloc, plain(alloc, "gen"))
}

fn trial<'a>(alloc: Global) -> Result<Command<'a>, AllocError>
    ensures app { IfOk result (λ c. app_of c ≡ trial_app) }
    ensures local { IfOk result (λ c. (fields_of c).has_globals ≡ false) }
{
    let command = placed(alloc, plain(alloc, "trial"))?;
    optioned(alloc, command)
}

fn base<'a>(alloc: Global) -> Command<'a>
    ensures app { app_of result ≡ top_app }
{
    Command::new(alloc, "ql")
        .subcommand_required(true)
        .disable_help_flag(true)
        .disable_help_subcommand(true)
        .disable_version_flag(true)
}

/// The command with one more, which takes no words of its own.
fn with_plain<'a>(
    alloc: Global,
    command: Command<'a>,
    name: &'a str,
) -> Result<Command<'a>, AllocError>
    ensures app { IfOk result (λ c. app_of c ≡ with_plain (app_of command.entry) name.entry.now) }
{
    let added = command.subcommand(plain(alloc, name))?;
    Ok(added)
}

/// The command with those that look at a source or a book.
fn with_looks<'a>(alloc: Global, command: Command<'a>) -> Result<Command<'a>, AllocError>
    ensures app { IfOk result (λ c. app_of c ≡ with_looks (app_of command.entry)) }
{
    let first = with_plain(alloc, command, "check")?;
    let second = with_plain(alloc, first, "show")?;
    let third = with_plain(alloc, second, "list")?;
    let fourth = with_plain(alloc, third, "replay")?;
    let fifth = with_plain(alloc, fourth, "span")?;
    Ok(fifth)
}

fn ql<'a>(alloc: Global) -> Result<Command<'a>, AllocError>
    ensures app { IfOk result (λ c. app_of c ≡ ql_app) }
{
    let run = run(alloc)?;
    let generator = generator(alloc)?;
    let trial = trial(alloc)?;
    let command = with_looks(alloc, base(alloc))?;
    let command = command.subcommand(run)?;
    let command = command.subcommand(generator)?;
    let command = command.subcommand(trial)?;
    Ok(command)
}
