//! Options and files, as `clap` reads them.

ghost use Rattle.std.specs.Prelude.{◌≡◌, [], ◌∷◌, List, ℕ, false, true, map, string_bytes, IfOk, codes};
ghost use Rattle.clap.specs.Walk.{rule_of};
ghost use Rattle.clap.specs.Simple.{app_of, with_rule};
ghost use Rattle.p10_words.specs.Commands.{check_options, derive_options, migrate_options, verify_options, recheck_options, run_options};
ghost use Rattle.p10_words.specs.private.Parsing.{bare as bare_app, option_asked, flag_asked, files_asked, IsAsked, IsParse, IsUsage, are_askable};

use crate::command::Usage;
use clap::error::ErrorKind;
use clap::{Arg, ArgAction, ArgMatches, Command};
use std::alloc::{AllocError, Global};

/// What `clap` reads of the words after `check`.
pub fn check_matches<'w>(alloc: Global, words: &'w [String]) -> Result<ArgMatches<'w>, Usage>
    ensures { IsParse check_options (map string_bytes words.entry.now) result }
{
    match check_command(alloc) {
        Ok(command) => matches(command, words),
        Err(_) => Err(Usage::Memory),
    }
}

/// What `clap` reads of the words after `derive`.
pub fn derive_matches<'w>(alloc: Global, words: &'w [String]) -> Result<ArgMatches<'w>, Usage>
    ensures { IsParse derive_options (map string_bytes words.entry.now) result }
{
    match derive_command(alloc) {
        Ok(command) => matches(command, words),
        Err(_) => Err(Usage::Memory),
    }
}

/// What `clap` reads of the words after `migrate`.
pub fn migrate_matches<'w>(alloc: Global, words: &'w [String]) -> Result<ArgMatches<'w>, Usage>
    ensures { IsParse migrate_options (map string_bytes words.entry.now) result }
{
    match migrate_command(alloc) {
        Ok(command) => matches(command, words),
        Err(_) => Err(Usage::Memory),
    }
}

/// What `clap` reads of the words after `verify`.
pub fn verify_matches<'w>(alloc: Global, words: &'w [String]) -> Result<ArgMatches<'w>, Usage>
    ensures { IsParse verify_options (map string_bytes words.entry.now) result }
{
    match verify_command(alloc) {
        Ok(command) => matches(command, words),
        Err(_) => Err(Usage::Memory),
    }
}

/// What `clap` reads of the words after `recheck`.
pub fn recheck_matches<'w>(alloc: Global, words: &'w [String]) -> Result<ArgMatches<'w>, Usage>
    ensures { IsParse recheck_options (map string_bytes words.entry.now) result }
{
    match recheck_command(alloc) {
        Ok(command) => matches(command, words),
        Err(_) => Err(Usage::Memory),
    }
}

/// What `clap` reads of the words after `run`.
pub fn run_matches<'w>(alloc: Global, words: &'w [String]) -> Result<ArgMatches<'w>, Usage>
    ensures { IsParse run_options (map string_bytes words.entry.now) result }
{
    match run_command(alloc) {
        Ok(command) => matches(command, words),
        Err(_) => Err(Usage::Memory),
    }
}

/// What `clap` reads of the words after `gen`.
pub fn generate_matches<'w>(alloc: Global, words: &'w [String]) -> Result<ArgMatches<'w>, Usage>
    ensures { IsParse [] (map string_bytes words.entry.now) result }
{
    match generate_command(alloc) {
        Ok(command) => matches(command, words),
        Err(_) => Err(Usage::Memory),
    }
}

/// The options and files of `check`.
fn check_command<'w>(alloc: Global) -> Result<Command<'w>, AllocError>
    ensures { IfOk result (λ c. IsAsked (app_of c) check_options) }
{
    let command = bare(alloc, "check")
        .arg(option(alloc, "include"))?
        .arg(option(alloc, "format"))?
        .arg(files(alloc))?;
    Ok(command)
}

/// The options and files of `derive`.
fn derive_command<'w>(alloc: Global) -> Result<Command<'w>, AllocError>
    ensures { IfOk result (λ c. IsAsked (app_of c) derive_options) }
{
    let command = bare(alloc, "derive")
        .arg(option(alloc, "include"))?
        .arg(option(alloc, "cert-version"))?
        .arg(flag(alloc, "diff"))?
        .arg(files(alloc))?;
    Ok(command)
}

/// The options and files of `migrate`.
fn migrate_command<'w>(alloc: Global) -> Result<Command<'w>, AllocError>
    ensures { IfOk result (λ c. IsAsked (app_of c) migrate_options) }
{
    let command = bare(alloc, "migrate")
        .arg(option(alloc, "include"))?
        .arg(option(alloc, "cert"))?
        .arg(files(alloc))?;
    Ok(command)
}

/// The options and files of `verify`.
fn verify_command<'w>(alloc: Global) -> Result<Command<'w>, AllocError>
    ensures { IfOk result (λ c. IsAsked (app_of c) verify_options) }
{
    let command = bare(alloc, "verify")
        .arg(option(alloc, "include"))?
        .arg(flag(alloc, "clean"))?
        .arg(option(alloc, "cert"))?
        .arg(files(alloc))?;
    Ok(command)
}

/// The options and files of `recheck`.
fn recheck_command<'w>(alloc: Global) -> Result<Command<'w>, AllocError>
    ensures { IfOk result (λ c. IsAsked (app_of c) recheck_options) }
{
    let command = bare(alloc, "recheck")
        .arg(option(alloc, "include"))?
        .arg(option(alloc, "since"))?
        .arg(option(alloc, "cert"))?
        .arg(files(alloc))?;
    Ok(command)
}

/// The options and files of `run`.
fn run_command<'w>(alloc: Global) -> Result<Command<'w>, AllocError>
    ensures { IfOk result (λ c. IsAsked (app_of c) run_options) }
{
    let command = bare(alloc, "run")
        .arg(option(alloc, "include"))?
        .arg(option(alloc, "steps"))?
        .arg(option(alloc, "turns"))?
        .arg(option(alloc, "deny"))?
        .arg(option(alloc, "cert"))?
        .arg(option(alloc, "sensors"))?
        .arg(files(alloc))?;
    Ok(command)
}

/// The number of `gen`, which stands where other commands have files.
fn generate_command<'w>(alloc: Global) -> Result<Command<'w>, AllocError>
    ensures { IfOk result (λ c. IsAsked (app_of c) []) }
{
    let command = bare(alloc, "gen").arg(files(alloc))?;
    Ok(command)
}

/// A command without arguments and without help.
fn bare<'w>(alloc: Global, name: &'w str) -> Command<'w>
    ensures { app_of result ≡ bare_app name.entry.now }
{
    Command::new(alloc, name)
        .no_binary_name(true)
        .disable_help_flag(true)
}

/// An option that takes one value, once at most.
fn option<'w>(alloc: Global, name: &'w str) -> Arg<'w>
    ensures rule { rule_of result ≡ option_asked name.entry.now }
    ensures local { result.global ≡ false }
{
    Arg::new(alloc, name).long(name).action(ArgAction::Set)
}

/// A flag, once at most.
fn flag<'w>(alloc: Global, name: &'w str) -> Arg<'w>
    ensures rule { rule_of result ≡ flag_asked name.entry.now }
    ensures local { result.global ≡ false }
{
    Arg::new(alloc, name).long(name).action(ArgAction::SetTrue)
}

/// The files.
fn files<'w>(alloc: Global) -> Arg<'w>
    ensures rule { rule_of result ≡ files_asked }
    ensures local { result.global ≡ false }
{
    Arg::new(alloc, "FILE").action(ArgAction::Append)
}

/// What the command reads of the words.
fn matches<'w>(command: Command<'w>, words: &'w [String]) -> Result<ArgMatches<'w>, Usage>
    ensures { (names : List (List ℕ)) → IsAsked (app_of command.entry) names → are_askable names ≡ true
        → IsParse names (map string_bytes words.entry.now) result }
{
    match command.try_get_matches_from(words) {
        Ok(found) => Ok(found),
        Err(error) => Err(usage(error.kind())),
    }
}

/// Why there is no command, by the kind of the error.
fn usage(kind: ErrorKind) -> Usage
    ensures { IsUsage kind result }
{
    match kind {
        ErrorKind::OutOfMemory => Usage::Memory,
        _ => Usage::Refused,
    }
}
