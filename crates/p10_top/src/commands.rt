//! The commands, as the crates that obey them take them.

ghost use Rattle.std.specs.Prelude.{◌≡◌};

use p10_base::{ListBuf, TextBuf};
use p10_check_command::CheckCommand;
use p10_derive_command::DeriveCommand;
use p10_migrate_command::MigrateCommand;
use p10_recheck_command::RecheckCommand;
use p10_run_command::RunCommand;
use p10_verify_command::VerifyCommand;
use p10_words::Budget;

/// `check` of these sources.
pub fn check_command(
    directories: ListBuf<TextBuf>,
    json: bool,
    sources: ListBuf<TextBuf>,
) -> CheckCommand
    ensures { result ≡ record { directories = directories; json = json; sources = sources } }
{
    CheckCommand {
        directories,
        json,
        sources,
    }
}

/// `derive` of these sources.
pub fn derive_command(
    directories: ListBuf<TextBuf>,
    version: u8,
    diff: bool,
    sources: ListBuf<TextBuf>,
) -> DeriveCommand
    ensures { result ≡ record { directories = directories; version = version; diff = diff; sources = sources } }
{
    DeriveCommand {
        directories,
        version,
        diff,
        sources,
    }
}

/// `migrate` of these sources.
pub fn migrate_command(
    directories: ListBuf<TextBuf>,
    certificate: TextBuf,
    sources: ListBuf<TextBuf>,
) -> MigrateCommand
    ensures { result ≡ record { directories = directories; certificate = certificate; sources = sources } }
{
    MigrateCommand {
        directories,
        certificate,
        sources,
    }
}

/// `verify` of these sources.
pub fn verify_command(
    directories: ListBuf<TextBuf>,
    clean: bool,
    certificate: TextBuf,
    sources: ListBuf<TextBuf>,
) -> VerifyCommand
    ensures { result ≡ record { directories = directories; clean = clean; certificate = certificate; sources = sources } }
{
    VerifyCommand {
        directories,
        clean,
        certificate,
        sources,
    }
}

/// `recheck` of these sources.
pub fn recheck_command(
    directories: ListBuf<TextBuf>,
    since: TextBuf,
    certificate: TextBuf,
    sources: ListBuf<TextBuf>,
) -> RecheckCommand
    ensures { result ≡ record { directories = directories; since = since; certificate = certificate; sources = sources } }
{
    RecheckCommand {
        directories,
        since,
        certificate,
        sources,
    }
}

/// `run` of these sources.
pub fn run_command(
    directories: ListBuf<TextBuf>,
    budget: Budget,
    turns: u64,
    deny: u64,
    sensors: Option<TextBuf>,
    sources: ListBuf<TextBuf>,
) -> RunCommand
    ensures { result ≡ record { directories = directories; budget = budget; turns = turns; deny = deny; sensors = sensors; sources = sources } }
{
    RunCommand {
        directories,
        budget,
        turns,
        deny,
        sensors,
        sources,
    }
}
