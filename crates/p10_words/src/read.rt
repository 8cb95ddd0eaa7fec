//! A command line, read.

ghost use Rattle.std.specs.Prelude.{◌≡◌, Some, None, Err, map, string_bytes, IfOk, codes, option_map};
ghost use Rattle.p10_words.specs.declared.command.Command.{Command};
ghost use Rattle.p10_words.specs.declared.command.Command.TheVariants.{Check, Derive, Migrate, Verify, Run};
ghost use Rattle.p10_words.specs.declared.command.Budget.{Budget};
ghost use Rattle.p10_words.specs.CommandLines.{directories_in};
ghost use Rattle.p10_words.specs.Commands.{IsCommandLine, IsRestOf};
ghost use Rattle.p10_words.specs.private.Deciding.{IsCheckOf, IsDeriveOf, IsMigrateOf, IsVerifyOf, IsBudgetOf, IsRunOf, IsGenerateOf, Answers};

use crate::command::{Budget, Command, Usage};
use crate::parse::{
    check_matches, derive_matches, generate_matches, migrate_matches, run_matches, verify_matches,
};
use crate::recheck::recheck;
use crate::values::{
    decimal, directories, is_given, is_json, name_files, names_directories, names_file,
    names_given, number, text, text_version, texts,
};
use p10_base::TextBuf;
use std::alloc::{AllocError, Global};

/// The most words of a command line.
const MOST_WORDS: usize = 65_536;

/// The steps where `--steps` isn't given.
const STEPS: u64 = 10_000_000;

/// The turns where `--turns` isn't given.
const TURNS: u64 = 1;

/// No denied request, where `--deny` isn't given.
const NONE: u64 = 0;

/// The values of the options of `run`, where they are given.
#[derive(Clone, Copy)]
struct RunOptions<'w> {
    include: Option<&'w str>,
    steps: Option<&'w str>,
    turns: Option<&'w str>,
    deny: Option<&'w str>,
    cert: Option<&'w str>,
    sensors: Option<&'w str>,
}

/// How far a run may go, and what it is denied.
#[derive(Drop)]
struct RunBounds {
    budget: Budget,
    turns: u64,
    deny: u64,
}

/// The command that the words after the program's name are.
///
/// `Refused` comes exactly where they are none. `Memory` may come at any words.
pub fn read_words(alloc: Global, words: &[String]) -> Result<Command, Usage>
    ensures found { IfOk result (IsCommandLine (map string_bytes words.now)) }
    ensures refused { result ≡ Err Usage.Refused → (c : Command) → IsCommandLine (map string_bytes words.now) c → ⊥ }
{
    if words.len() > MOST_WORDS {
        return Err(Usage::Refused);
    }
    match words {
        [command, rest @ ..] => by_name(alloc, command.as_str(), rest),
        [] => Err(Usage::Refused),
    }
}

/// The command of this name with the words after it.
fn by_name(alloc: Global, command: &str, words: &[String]) -> Result<Command, Usage>
    ensures { Answers (λ c. IsRestOf c command.now (map string_bytes words.now)) result }
{
    if command == "check" {
        check(alloc, words)
    } else if command == "derive" {
        derive(alloc, words)
    } else if command == "migrate" {
        migrate(alloc, words)
    } else if command == "verify" {
        verify(alloc, words)
    } else if command == "recheck" {
        recheck(alloc, words)
    } else if command == "run" {
        run(alloc, words)
    } else if command == "gen" {
        generate(alloc, words)
    } else {
        Err(Usage::Refused)
    }
}

/// `check` with the words after it.
fn check(alloc: Global, words: &[String]) -> Result<Command, Usage>
    ensures { Answers (λ c. IsRestOf c (codes "check") (map string_bytes words.now)) result }
{
    match check_matches(alloc, words) {
        Ok(found) => match found.get_strs("FILE") {
            Some(files) => check_of(
                alloc,
                found.get_str("include"),
                found.get_str("format"),
                files,
            ),
            None => Err(Usage::Refused),
        },
        Err(fault) => Err(fault),
    }
}

/// `derive` with the words after it.
fn derive(alloc: Global, words: &[String]) -> Result<Command, Usage>
    ensures { Answers (λ c. IsRestOf c (codes "derive") (map string_bytes words.now)) result }
{
    match derive_matches(alloc, words) {
        Ok(found) => match found.get_strs("FILE") {
            Some(files) => {
                let diff = is_given(found.get_str("diff"));
                derive_of(
                    alloc,
                    found.get_str("include"),
                    found.get_str("cert-version"),
                    diff,
                    files,
                )
            }
            None => Err(Usage::Refused),
        },
        Err(fault) => Err(fault),
    }
}

/// `migrate` with the words after it.
fn migrate(alloc: Global, words: &[String]) -> Result<Command, Usage>
    ensures { Answers (λ c. IsRestOf c (codes "migrate") (map string_bytes words.now)) result }
{
    match migrate_matches(alloc, words) {
        Ok(found) => match found.get_strs("FILE") {
            Some(files) => migrate_of(
                alloc,
                found.get_str("include"),
                found.get_str("cert"),
                files,
            ),
            None => Err(Usage::Refused),
        },
        Err(fault) => Err(fault),
    }
}

/// `verify` with the words after it.
fn verify(alloc: Global, words: &[String]) -> Result<Command, Usage>
    ensures { Answers (λ c. IsRestOf c (codes "verify") (map string_bytes words.now)) result }
{
    match verify_matches(alloc, words) {
        Ok(found) => match found.get_strs("FILE") {
            Some(files) => {
                let clean = is_given(found.get_str("clean"));
                verify_of(
                    alloc,
                    found.get_str("include"),
                    clean,
                    found.get_str("cert"),
                    files,
                )
            }
            None => Err(Usage::Refused),
        },
        Err(fault) => Err(fault),
    }
}

/// `run` with the words after it.
fn run(alloc: Global, words: &[String]) -> Result<Command, Usage>
    ensures { Answers (λ c. IsRestOf c (codes "run") (map string_bytes words.now)) result }
{
    match run_matches(alloc, words) {
        Ok(found) => match found.get_strs("FILE") {
            Some(files) => {
                let options = RunOptions {
                    include: found.get_str("include"),
                    steps: found.get_str("steps"),
                    turns: found.get_str("turns"),
                    deny: found.get_str("deny"),
                    cert: found.get_str("cert"),
                    sensors: found.get_str("sensors"),
                };
                run_of(alloc, options, files)
            }
            None => Err(Usage::Refused),
        },
        Err(fault) => Err(fault),
    }
}

/// `gen` with the words after it.
fn generate(alloc: Global, words: &[String]) -> Result<Command, Usage>
    ensures { Answers (λ c. IsRestOf c (codes "gen") (map string_bytes words.now)) result }
{
    match generate_matches(alloc, words) {
        Ok(found) => match found.get_strs("FILE") {
            Some(numbers) => generate_of(numbers),
            None => Err(Usage::Refused),
        },
        Err(fault) => Err(fault),
    }
}

/// `check` of these values of options and files.
fn check_of(
    alloc: Global,
    include: Option<&str>,
    format: Option<&str>,
    files: &[&str],
) -> Result<Command, Usage>
    ensures { Answers (IsCheckOf (option_map (λ w. w.now) include.entry) (option_map (λ w. w.now) format.entry) (map (λ w. w.now) files.now)) result }
{
    let Some(json) = is_json(format) else {
        return Err(Usage::Refused);
    };
    if names_directories(include) && name_files(files) {
        match new_check(alloc, include, json, files) {
            Ok(command) => Ok(command),
            Err(_) => Err(Usage::Memory),
        }
    } else {
        Err(Usage::Refused)
    }
}

/// The command `check`, with texts of its own.
fn new_check(
    alloc: Global,
    include: Option<&str>,
    json: bool,
    files: &[&str],
) -> Result<Command, AllocError>
    ensures { IfOk result (λ c. c ≡ Check (directories_in (option_map (λ w. w.now) include.entry)) json (map (λ w. w.now) files.now)) }
{
    let dirs = directories(alloc, include)?;
    let files = texts(alloc, files)?;
    Ok(Command::Check { dirs, json, files })
}

/// `derive` of these values of options and files.
fn derive_of(
    alloc: Global,
    include: Option<&str>,
    version: Option<&str>,
    diff: bool,
    files: &[&str],
) -> Result<Command, Usage>
    ensures { Answers (IsDeriveOf (option_map (λ w. w.now) include.entry) (option_map (λ w. w.now) version.entry) diff (map (λ w. w.now) files.now)) result }
{
    let Some(version) = text_version(version, diff) else {
        return Err(Usage::Refused);
    };
    if names_directories(include) && name_files(files) {
        match new_derive(alloc, include, version, diff, files) {
            Ok(command) => Ok(command),
            Err(_) => Err(Usage::Memory),
        }
    } else {
        Err(Usage::Refused)
    }
}

/// The command `derive`, with texts of its own.
fn new_derive(
    alloc: Global,
    include: Option<&str>,
    version: u8,
    diff: bool,
    files: &[&str],
) -> Result<Command, AllocError>
    ensures { IfOk result (λ c. c ≡ Derive (directories_in (option_map (λ w. w.now) include.entry)) version diff (map (λ w. w.now) files.now)) }
{
    let dirs = directories(alloc, include)?;
    let files = texts(alloc, files)?;
    Ok(Command::Derive {
        dirs,
        version,
        diff,
        files,
    })
}

/// `migrate` of these values of options and files.
fn migrate_of(
    alloc: Global,
    include: Option<&str>,
    cert: Option<&str>,
    files: &[&str],
) -> Result<Command, Usage>
    ensures { Answers (IsMigrateOf (option_map (λ w. w.now) include.entry) (option_map (λ w. w.now) cert.entry) (map (λ w. w.now) files.now)) result }
{
    match cert {
        Some(cert) => migrate_with(alloc, include, cert, files),
        None => Err(Usage::Refused),
    }
}

/// `migrate` of this certificate.
fn migrate_with(
    alloc: Global,
    include: Option<&str>,
    cert: &str,
    files: &[&str],
) -> Result<Command, Usage>
    ensures { Answers (IsMigrateOf (option_map (λ w. w.now) include.entry) (Some cert.now) (map (λ w. w.now) files.now)) result }
{
    if names_directories(include) && names_file(cert) && name_files(files) {
        match new_migrate(alloc, include, cert, files) {
            Ok(command) => Ok(command),
            Err(_) => Err(Usage::Memory),
        }
    } else {
        Err(Usage::Refused)
    }
}

/// The command `migrate`, with texts of its own.
fn new_migrate(
    alloc: Global,
    include: Option<&str>,
    cert: &str,
    files: &[&str],
) -> Result<Command, AllocError>
    ensures { IfOk result (λ c. c ≡ Migrate (directories_in (option_map (λ w. w.now) include.entry)) cert.now (map (λ w. w.now) files.now)) }
{
    let dirs = directories(alloc, include)?;
    let cert = text(alloc, cert)?;
    let files = texts(alloc, files)?;
    Ok(Command::Migrate { dirs, cert, files })
}

/// `verify` of these values of options and files.
fn verify_of(
    alloc: Global,
    include: Option<&str>,
    clean: bool,
    cert: Option<&str>,
    files: &[&str],
) -> Result<Command, Usage>
    ensures { Answers (IsVerifyOf (option_map (λ w. w.now) include.entry) clean (option_map (λ w. w.now) cert.entry) (map (λ w. w.now) files.now)) result }
{
    match cert {
        Some(cert) => verify_with(alloc, include, clean, cert, files),
        None => Err(Usage::Refused),
    }
}

/// `verify` of this certificate.
fn verify_with(
    alloc: Global,
    include: Option<&str>,
    clean: bool,
    cert: &str,
    files: &[&str],
) -> Result<Command, Usage>
    ensures { Answers (IsVerifyOf (option_map (λ w. w.now) include.entry) clean (Some cert.now) (map (λ w. w.now) files.now)) result }
{
    if names_directories(include) && names_file(cert) && name_files(files) {
        match new_verify(alloc, include, clean, cert, files) {
            Ok(command) => Ok(command),
            Err(_) => Err(Usage::Memory),
        }
    } else {
        Err(Usage::Refused)
    }
}

/// The command `verify`, with texts of its own.
fn new_verify(
    alloc: Global,
    include: Option<&str>,
    clean: bool,
    cert: &str,
    files: &[&str],
) -> Result<Command, AllocError>
    ensures { IfOk result (λ c. c ≡ Verify (directories_in (option_map (λ w. w.now) include.entry)) clean cert.now (map (λ w. w.now) files.now)) }
{
    let dirs = directories(alloc, include)?;
    let cert = text(alloc, cert)?;
    let files = texts(alloc, files)?;
    Ok(Command::Verify {
        dirs,
        clean,
        cert,
        files,
    })
}

/// `run` of these values of options and files.
fn run_of(alloc: Global, options: RunOptions<'_>, files: &[&str]) -> Result<Command, Usage>
    ensures { Answers (IsRunOf (option_map (λ w. w.now) options.entry.include) (option_map (λ w. w.now) options.entry.steps) (option_map (λ w. w.now) options.entry.turns) (option_map (λ w. w.now) options.entry.deny) (option_map (λ w. w.now) options.entry.cert) (option_map (λ w. w.now) options.entry.sensors) (map (λ w. w.now) files.now)) result }
{
    let (Some(turns), Some(deny)) = (number(options.turns, TURNS), number(options.deny, NONE))
    else {
        return Err(Usage::Refused);
    };
    if names_directories(options.include) && names_given(options.sensors) && name_files(files) {
        let budget = budget(alloc, options.steps, options.cert)?;
        let bounds = RunBounds {
            budget,
            turns,
            deny,
        };
        match new_run(alloc, options.include, bounds, options.sensors, files) {
            Ok(command) => Ok(command),
            Err(_) => Err(Usage::Memory),
        }
    } else {
        Err(Usage::Refused)
    }
}

/// What bounds the steps, by the values of `--steps` and `--cert`, of which one at most is given.
fn budget(alloc: Global, steps: Option<&str>, cert: Option<&str>) -> Result<Budget, Usage>
    ensures { Answers (IsBudgetOf (option_map (λ w. w.now) steps.entry) (option_map (λ w. w.now) cert.entry)) result }
{
    match (steps, cert) {
        (steps, None) => match number(steps, STEPS) {
            Some(steps) => Ok(Budget::Steps(steps)),
            None => Err(Usage::Refused),
        },
        (None, Some(cert)) => certificate(alloc, cert),
        (Some(_), Some(_)) => Err(Usage::Refused),
    }
}

/// The certificate of this name as the budget.
fn certificate(alloc: Global, cert: &str) -> Result<Budget, Usage>
    ensures { Answers (IsBudgetOf None (Some cert.now)) result }
{
    if !names_file(cert) {
        return Err(Usage::Refused);
    }
    match text(alloc, cert) {
        Ok(name) => Ok(Budget::Certificate(name)),
        Err(_) => Err(Usage::Memory),
    }
}

/// The command `run`, with texts of its own.
fn new_run(
    alloc: Global,
    include: Option<&str>,
    bounds: RunBounds,
    sensors: Option<&str>,
    files: &[&str],
) -> Result<Command, AllocError>
    ensures { IfOk result (λ c. c ≡ Run (directories_in (option_map (λ w. w.now) include.entry)) bounds.budget bounds.turns bounds.deny (option_map (λ w. w.now) sensors.entry) (map (λ w. w.now) files.now)) }
{
    let dirs = directories(alloc, include)?;
    let sensors = given_text(alloc, sensors)?;
    let files = texts(alloc, files)?;
    Ok(Command::Run {
        dirs,
        budget: bounds.budget,
        turns: bounds.turns,
        deny: bounds.deny,
        sensors,
        files,
    })
}

/// The value of an option as an owned text, where it is given.
fn given_text(alloc: Global, value: Option<&str>) -> Result<Option<TextBuf>, AllocError>
    ensures { IfOk result (λ found. found ≡ option_map (λ w. w.now) value.entry) }
{
    match value {
        Some(word) => Ok(Some(text(alloc, word)?)),
        None => Ok(None),
    }
}

/// `gen` of these words in the place of files.
fn generate_of(words: &[&str]) -> Result<Command, Usage>
    ensures { Answers (IsGenerateOf (map (λ w. w.now) words.now)) result }
{
    match words {
        [number] => match decimal(number) {
            Some(functions) => Ok(Command::Generate { functions }),
            None => Err(Usage::Refused),
        },
        _ => Err(Usage::Refused),
    }
}
