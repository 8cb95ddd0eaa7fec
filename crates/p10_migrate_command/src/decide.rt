//! The answer to `migrate`, in the order of answers.

ghost use Rattle.std.specs.Prelude.{◌≡◌, ◌≤◌, ◌<◌, true, false, map, length, IfOk, IsErrOf, IsSomeAnd};
ghost use Rattle.p10_base.specs.declared.report.TheConstants.Limit.{MOST_CERTIFICATE_BYTES};
ghost use Rattle.p10_core.specs.Views.{plain_program};
ghost use Rattle.p10_core.specs.WholePrograms.{IsWholeProgram};
ghost use Rattle.p10_cert.specs.Claims.{claims_of};
ghost use Rattle.p10_expand.specs.Gathering.{HaveWords};
ghost use Rattle.p10_fit.specs.Fits.{unfit};
ghost use Rattle.p10_front.specs.Answers.{reading_of};
ghost use Rattle.p10_front.specs.Digests.{plain_digests};
ghost use Rattle.p10_world.specs.Faults.{Rose};
ghost use Rattle.p10_seal.specs.Sealing.{sealed_text, within_limit};
ghost use Rattle.p10_migrate_command.specs.Migrating.{Migrates, migrated_by, migrated_of, fitted, text_or_limit};
ghost use Rattle.p10_migrate_command.specs.private.Deciding.{AreMigrated, Comes, Decides};
ghost use Rattle.p10_judge.specs.Kept.{kept_of, stale_among};

use crate::answer::Answer;
use crate::command::MigrateCommand;
use crate::migration::Migration;
use p10_base::{Digest, Digests, Limit, Sources};
use p10_cert::Cert;
use p10_command::{GatheredRoots, ReadSources, Trouble, gather_roots, read_sources, release};
use p10_core::Program;
use p10_fit::laws::fit_speaks;
use p10_fit::unfit;
use p10_front::{Reading, digests};
use p10_judge::{Text, first_stale, load_certificate, name_at, read};
use p10_seal::sealed_text;
use p10_world::Files;
use std::alloc::{AllocError, Global};

/// An answer, and the sources in which its places lie.
#[derive(Drop)]
pub struct Decision {
    pub answer: Answer,
    pub sources: Sources,
}

/// The answer to `migrate`.
///
/// # Errors
/// A read failed, only where the count of faults of `files` rose; or out of memory.
pub fn decide<F: Files>(
    alloc: Global,
    command: &MigrateCommand,
    files: &mut F,
) -> Result<Decision, Trouble>
    requires { length command.now.sources ≤ 65536 }
    ensures right { IfOk result (λ decision. Decides (F.held files.old) command.now decision.sources decision.answer) }
    ensures failed { IsErrOf result Trouble.Read → Rose (F.faults files.old) (F.faults files.new) }
    ensures count { F.faults files.old ≤ F.faults files.new }
    ensures held { F.held files.new ≡ F.held files.old }
{
    let roots = command.sources.as_slice();
    let directories = command.directories.as_slice();
    let sources = match gather_roots(alloc, files, roots, directories)? {
        GatheredRoots::All(sources) => sources,
        GatheredRoots::Stopped(why, sources) => {
            return Ok(Decision {
                answer: Answer::Ungathered(why),
                sources,
            });
        }
    };
    let Some(certificate) = load_certificate(alloc, files, command.certificate.as_str())? else {
        return Ok(Decision {
            answer: Answer::AbsentCertificate,
            sources,
        });
    };
    let answer = migrate_sources(alloc, &sources, &certificate)?;
    Ok(Decision { answer, sources })
}

/// What comes of the bytes of a certificate for gathered sources. Each file has words.
///
/// # Errors
/// Out of memory.
fn migrate_sources(
    alloc: Global,
    sources: &Sources,
    certificate: &[u8],
) -> Result<Answer, AllocError>
    requires { HaveWords sources.now }
    ensures { IfOk result (AreMigrated sources.now certificate.now) }
{
    match read_sources(alloc, sources)? {
        ReadSources::Program(reading) => {
            let migration = migrate_reading(alloc, &reading, certificate);
            release(reading);
            Ok(Answer::Migrated(migration?))
        }
        ReadSources::Unread(why) => Ok(Answer::Unread(why)),
    }
}

/// What comes of the bytes of a certificate for the program of a reading.
///
/// # Errors
/// Out of memory.
fn migrate_reading(
    alloc: Global,
    reading: &Reading<'_>,
    certificate: &[u8],
) -> Result<Migration, AllocError>
    requires { IsSomeAnd reading.now.program (λ p. IsWholeProgram (plain_program p)) }
    ensures { IfOk result (λ migration. IsSomeAnd reading.now.program (λ p. Comes (reading_of reading.now) (plain_program p) certificate.now (migrated_of migration))) }
{
    let found = digests(alloc, reading)?;
    match &reading.program {
        Some(program) => migrate_bytes(alloc, program, found, certificate),
        None => unreachable!(),
    }
}

/// What comes of the bytes of a certificate for a program, of whose functions these are the digests.
///
/// # Errors
/// Out of memory.
fn migrate_bytes(
    alloc: Global,
    program: &Program<'_>,
    found: Digests,
    certificate: &[u8],
) -> Result<Migration, AllocError>
    requires { length found.funcs ≡ length (plain_program program.now).functions }
    ensures { IfOk result (λ migration. Migrates (plain_program program.now) (plain_digests found) certificate.now (migrated_of migration)) }
{
    if is_too_long(certificate) {
        return Ok(Migration::TooLong);
    }
    match read(alloc, certificate)? {
        Text::Bad(line) => Ok(Migration::BadCertificate(line)),
        Text::Whole(claims, kept, _) => {
            migrate_whole(alloc, program, found, claims, kept.as_slice())
        }
    }
}

/// Whether there are more bytes than a certificate may have.
fn is_too_long(certificate: &[u8]) -> bool
    ensures yes { result ≡ true → MOST_CERTIFICATE_BYTES < length certificate.now }
    ensures no { result ≡ false → length certificate.now ≤ MOST_CERTIFICATE_BYTES }
{
    certificate.len() as u64 > Limit::MOST_CERTIFICATE_BYTES
}

/// What comes of claims and the digests that are kept with them, for a program, of whose functions these are the digests.
///
/// # Errors
/// Out of memory.
fn migrate_whole(
    alloc: Global,
    program: &Program<'_>,
    found: Digests,
    claims: Cert,
    kept: &[Option<Digest>],
) -> Result<Migration, AllocError>
    requires { length found.funcs ≡ length (plain_program program.now).functions }
    ensures { IfOk result (λ migration. migrated_of migration ≡ migrated_by (plain_program program.now) (plain_digests found) (claims_of claims) (stale_among 0 (map kept_of kept.now) (plain_digests found).funcs)) }
{
    match first_stale(kept, found.funcs.as_slice()) {
        Some(stale) => Ok(Migration::Stale {
            at: name_at(program, stale.number),
            kept: stale.kept,
            found: stale.found,
        }),
        None => migrate_claims(alloc, program, found, claims),
    }
}

/// What comes of claims for a program, of whose functions these are the digests.
///
/// # Errors
/// Out of memory.
fn migrate_claims(
    alloc: Global,
    program: &Program<'_>,
    found: Digests,
    claims: Cert,
) -> Result<Migration, AllocError>
    requires { length found.funcs ≡ length (plain_program program.now).functions }
    ensures { IfOk result (λ migration. migrated_of migration ≡ fitted (plain_program program.now) (plain_digests found) (claims_of claims) (unfit (plain_program program.now) (claims_of claims))) }
{
    // Claims that speak of a program are on as many functions as it has.
    fit_speaks();
    match unfit(alloc, program, &claims)? {
        Some(number) => Ok(Migration::Unfit(name_at(program, number))),
        None => seal(alloc, found, claims),
    }
}

/// The text of version 2 of claims on the functions with these digests, unless it is longer than limit M10 allows.
///
/// # Errors
/// Out of memory.
fn seal(alloc: Global, found: Digests, claims: Cert) -> Result<Migration, AllocError>
    requires { length found.funcs ≡ length claims.funcs }
    ensures { IfOk result (λ migration. migrated_of migration ≡ text_or_limit (within_limit (sealed_text (claims_of claims) (plain_digests found)))) }
{
    match sealed_text(alloc, claims, found)? {
        Some(text) => Ok(Migration::Text(text)),
        None => Ok(Migration::TooLong),
    }
}
