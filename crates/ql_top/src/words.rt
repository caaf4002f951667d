//! The words of a call.

ghost use Rattle.std.specs.Prelude.{◌≡◌, ◌≤◌, IfOk, IfSome, [], ◌∷◌, codes, option_and_then};
ghost use Rattle.clap.specs.Matches.{found_of};
ghost use Rattle.clap.specs.Simple.{subcommand_rows_of};
ghost use Rattle.clap.specs.Walk.{rows_of};
ghost use Rattle.ql_top.specs.Words.{asked, texts_of, IsInRange, IsSize, IsAsked, number_in, number_at, policy_named, policy_at, options_at, places_at, run_at, gen_at, trial_at, command_named};

use crate::command_line::parse;
use clap::ArgMatches;
use clap::error::ErrorKind;
use ql_base::limits::{Limits, Policy};
use std::alloc::{AllocError, Global};

/// What a call is asked to do.
#[derive(Clone, Copy, Debug, PartialEq, Eq)]
pub enum Command {
    /// Writes `ok` where the source is a program whose names are in scope and whose code isn't too
    /// long.
    Check,
    /// Writes each form of the source in its one spelling, on a line of its own.
    Show,
    /// Writes the instructions of the program's code, each on a line of its own.
    List,
    /// Runs the source, and writes its output and its journal.
    Run(Options),
    /// Writes the source that is generated from these numbers.
    Gen {
        seed: u64,
        size: u32,
    },
    /// Runs the source that is generated from these numbers, and writes its output with a summary, and
    /// its journal.
    Trial {
        seed: u64,
        size: u32,
        options: Options,
    },
    /// Tells whether the book is a journal of the source, and else the first line at which it differs from all of them.
    Replay,
    /// Writes the work, the span and a heaviest chain of the journal that is the book.
    Span,
}

/// How a source is run.
#[derive(Clone, Copy, Debug, PartialEq, Eq)]
pub struct Options {
    /// How many workers run it, 1 to 16.
    pub workers: u64,
    /// What the run may use up, and how its processes are picked.
    pub limits: Limits,
}

/// The command that the words ask for, if they ask for one. An `Err` is want of memory.
pub fn asked(alloc: Global, words: &[&str]) -> Result<Option<Command>, AllocError>
    ensures asked { IfOk result (λ command. command ≡ asked (texts_of words.now)) }
    ensures range { IfOk result (λ command. IfSome command IsInRange) }
{
    let all = with_program(alloc, words)?;
    match parse(alloc, &all) {
        Ok(matches) => Ok(command_in(&matches)),
        Err(error) => match error.kind() {
            ErrorKind::OutOfMemory => Err(AllocError),
            _ => Ok(None),
        },
    }
}

/// The name of the program, and then the words.
fn with_program<'a>(alloc: Global, words: &[&'a str]) -> Result<Vec<&'a str>, AllocError>
    ensures { IfOk result (λ all. texts_of all.items ≡ codes "ql" ∷ texts_of words.now) }
{
    let mut all = Vec::with_capacity(alloc, words.len() + 1)?;
    all.push("ql")?;
    all.extend_from_slice(words)?;
    Ok(all)
}

/// The command that was parsed.
fn command_in(matches: &ArgMatches) -> Option<Command>
    ensures value { result ≡ option_and_then (λ p. command_named p.0 p.1) (subcommand_rows_of matches.now) }
    ensures range { IfSome result IsInRange }
{
    let (name, rows) = matches.subcommand()?;
    command_named(name, rows)
}

/// The command of this name, with what was parsed for it.
fn command_named(name: &str, matches: &ArgMatches) -> Option<Command>
    ensures value { result ≡ command_named name.now (rows_of (found_of matches.now)) }
    ensures range { IfSome result (IsInRange) }
{
    match name {
        "check" => Some(Command::Check),
        "show" => Some(Command::Show),
        "list" => Some(Command::List),
        "run" => run_in(matches),
        "gen" => gen_in(matches),
        "trial" => trial_in(matches),
        "replay" => Some(Command::Replay),
        "span" => Some(Command::Span),
        _ => None,
    }
}

fn run_in(matches: &ArgMatches) -> Option<Command>
    ensures value { result ≡ run_at (rows_of (found_of matches.now)) }
    ensures range { IfSome result (IsInRange) }
{
    options_in(matches).map(Command::Run)
}

fn gen_in(matches: &ArgMatches) -> Option<Command>
    ensures value { result ≡ gen_at (rows_of (found_of matches.now)) }
    ensures range { IfSome result (IsInRange) }
{
    let (seed, size) = places_in(matches)?;
    Some(Command::Gen { seed, size })
}

fn trial_in(matches: &ArgMatches) -> Option<Command>
    ensures value { result ≡ trial_at (rows_of (found_of matches.now)) }
    ensures range { IfSome result (IsInRange) }
{
    let (seed, size) = places_in(matches)?;
    let options = options_in(matches)?;
    Some(Command::Trial {
        seed,
        size,
        options,
    })
}

fn options_in(matches: &ArgMatches) -> Option<Options>
    ensures value { result ≡ options_at (rows_of (found_of matches.now)) }
    ensures range { IfSome result (λ options. IsAsked options.limits) }
{
    let workers = number(matches, "workers", 1, 16)?;
    let budget = number(matches, "budget", 1, 20_000_000)?;
    let cells = number(matches, "cells", 1, 4_000_000)?;
    let quantum = number(matches, "quantum", 1, 4_096)?;
    let policy = policy(matches)?;
    let limits = Limits {
        budget,
        cells,
        quantum,
        policy,
        ..Limits::usual()
    };
    Some(Options { workers, limits })
}

/// A seed and a size.
fn places_in(matches: &ArgMatches) -> Option<(u64, u32)>
    ensures value { result ≡ places_at (rows_of (found_of matches.now)) }
    ensures range { IfSome result (λ p. IsSize p.1) }
{
    let seed = number(matches, "seed", 0, u64::MAX)?;
    let size = size(matches)?;
    Some((seed, size))
}

fn size(matches: &ArgMatches) -> Option<u32>
    ensures value { result ≡ number_at (codes "size") 1 3000 (rows_of (found_of matches.now)) }
    ensures range { IfSome result (IsSize) }
{
    let size = matches.get_one::<u32>("size")?;
    if 1 <= size && size <= 3_000 {
        Some(size)
    } else {
        None
    }
}

fn number(matches: &ArgMatches, name: &str, least: u64, most: u64) -> Option<u64>
    ensures value { result ≡ number_at name.now least most (rows_of (found_of matches.now)) }
    ensures range { IfSome result (λ n. (least ≤ n) × (n ≤ most)) }
{
    let n = matches.get_one::<u64>(name)?;
    if least <= n && n <= most {
        Some(n)
    } else {
        None
    }
}

fn policy(matches: &ArgMatches) -> Option<Policy>
    ensures { result ≡ policy_at (rows_of (found_of matches.now)) }
{
    policy_named(matches.get_str("policy")?)
}

fn policy_named(text: &str) -> Option<Policy>
    ensures { result ≡ policy_named text.now }
{
    if text == "old" {
        Some(Policy::Old)
    } else if text == "new" {
        Some(Policy::New)
    } else if text == "turn" {
        Some(Policy::Turn)
    } else {
        None
    }
}
