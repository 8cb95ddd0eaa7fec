//! `recheck`, read.

ghost use Rattle.std.specs.Prelude.{◌≡◌, Some, map, string_bytes, IfOk, codes, option_map};
ghost use Rattle.p10_words.specs.declared.command.Command.TheVariants.{Recheck};
ghost use Rattle.p10_words.specs.CommandLines.{directories_in};
ghost use Rattle.p10_words.specs.Commands.{IsRestOf};
ghost use Rattle.p10_words.specs.private.Deciding.{IsRecheckOf, Answers};

use crate::command::{Command, Usage};
use crate::parse::recheck_matches;
use crate::values::{directories, name_files, names_directories, names_file, text, texts};
use std::alloc::{AllocError, Global};

/// `recheck` with the words after it.
pub fn recheck(alloc: Global, words: &[String]) -> Result<Command, Usage>
    ensures { Answers (λ c. IsRestOf c (codes "recheck") (map string_bytes words.now)) result }
{
    match recheck_matches(alloc, words) {
        Ok(found) => match found.get_strs("FILE") {
            Some(files) => recheck_of(
                alloc,
                found.get_str("include"),
                found.get_str("since"),
                found.get_str("cert"),
                files,
            ),
            None => Err(Usage::Refused),
        },
        Err(fault) => Err(fault),
    }
}

/// `recheck` of these values of options and files.
fn recheck_of(
    alloc: Global,
    include: Option<&str>,
    since: Option<&str>,
    cert: Option<&str>,
    files: &[&str],
) -> Result<Command, Usage>
    ensures { Answers (IsRecheckOf (option_map (λ w. w.now) include.entry) (option_map (λ w. w.now) since.entry) (option_map (λ w. w.now) cert.entry) (map (λ w. w.now) files.now)) result }
{
    match since {
        Some(since) => match cert {
            Some(cert) => recheck_with(alloc, include, since, cert, files),
            None => Err(Usage::Refused),
        },
        None => Err(Usage::Refused),
    }
}

/// `recheck` of these certificates, from before and from after the edit.
fn recheck_with(
    alloc: Global,
    include: Option<&str>,
    since: &str,
    cert: &str,
    files: &[&str],
) -> Result<Command, Usage>
    ensures { Answers (IsRecheckOf (option_map (λ w. w.now) include.entry) (Some since.now) (Some cert.now) (map (λ w. w.now) files.now)) result }
{
    if names_directories(include) && names_file(since) && names_file(cert) && name_files(files) {
        match new_recheck(alloc, include, since, cert, files) {
            Ok(command) => Ok(command),
            Err(_) => Err(Usage::Memory),
        }
    } else {
        Err(Usage::Refused)
    }
}

/// The command `recheck`, with texts of its own.
fn new_recheck(
    alloc: Global,
    include: Option<&str>,
    since: &str,
    cert: &str,
    files: &[&str],
) -> Result<Command, AllocError>
    ensures { IfOk result (λ c. c ≡ Recheck (directories_in (option_map (λ w. w.now) include.entry)) since.now cert.now (map (λ w. w.now) files.now)) }
{
    let dirs = directories(alloc, include)?;
    let since = text(alloc, since)?;
    let cert = text(alloc, cert)?;
    let files = texts(alloc, files)?;
    Ok(Command::Recheck {
        dirs,
        since,
        cert,
        files,
    })
}
