//! The answer to `verify`, in the order of answers.

ghost use Rattle.std.specs.Prelude.{◌≡◌, ◌≤◌, ℕ, List, length, true, IfOk, IsErrOf, IsSomeAnd};
ghost use Rattle.p10_core.specs.Views.{plain_program};
ghost use Rattle.p10_core.specs.WholePrograms.{IsWholeProgram};
ghost use Rattle.p10_expand.specs.Gathering.{HaveWords};
ghost use Rattle.p10_cert.specs.Claims.{claims_of};
ghost use Rattle.p10_check.specs.Texts.{digests_of};
ghost use Rattle.p10_front.specs.Answers.{reading_of};
ghost use Rattle.p10_judge.specs.Whole.{IsAcceptedText};
ghost use Rattle.p10_world.specs.Faults.{Rose};
ghost use Rattle.p10_verify_command.specs.Names.{names_of};
ghost use Rattle.p10_verify_command.specs.private.Deciding.{AreWeighed, Decides, ComesFrom, ComesTo, cleaned};

use crate::answer::Answer;
use crate::command::VerifyCommand;
use p10_base::{Bounds, Digests, Sources};
use p10_cert::Cert;
use p10_clean::{Clean, clean};
use p10_command::{GatheredRoots, ReadSources, Trouble, gather_roots, read_sources, release};
use p10_core::Program;
use p10_front::{Reading, digests};
use p10_judge::{Weighed, load_certificate, weigh, weigh_whole};
use p10_world::Files;
use std::alloc::{AllocError, Global};

/// An answer, and the sources in which its places lie.
#[derive(Drop)]
pub struct Decision {
    pub answer: Answer,
    pub sources: Sources,
}

/// The answer to `verify`.
///
/// # Errors
/// A read failed, only where the count of faults of `files` rose; or out of memory.
pub fn decide<F: Files>(
    alloc: Global,
    command: &VerifyCommand,
    files: &mut F,
) -> Result<Decision, Trouble>
    requires { length command.now.sources ≤ 65536 }
    ensures right { IfOk result (λ decision. Decides (F.held files.old) (names_of command.now) decision.sources decision.answer) }
    ensures failed { IsErrOf result Trouble.Read → Rose (F.faults files.old) (F.faults files.new) }
    ensures count { F.faults files.old ≤ F.faults files.new }
    ensures held { F.held files.new ≡ F.held files.old }
{
    let roots = command.sources.as_slice();
    let directories = command.directories.as_slice();
    let sources = match gather_roots(alloc, files, roots, directories)? {
        GatheredRoots::All(sources) => sources,
        GatheredRoots::Stopped(why, sources) => {
            return Ok(Decision {
                answer: Answer::Ungathered(why),
                sources,
            });
        }
    };
    let Some(certificate) = load_certificate(alloc, files, command.certificate.as_str())? else {
        return Ok(Decision {
            answer: Answer::AbsentCertificate,
            sources,
        });
    };
    let answer = weigh_sources(alloc, &sources, &certificate, command.clean)?;
    Ok(Decision { answer, sources })
}

/// What gathered sources and the bytes of a certificate come to, which has to be clean or need not. Each file has words.
///
/// # Errors
/// Out of memory.
fn weigh_sources(
    alloc: Global,
    sources: &Sources,
    certificate: &[u8],
    clean: bool,
) -> Result<Answer, AllocError>
    requires { HaveWords sources.now }
    ensures { IfOk result (AreWeighed sources.now certificate.now clean) }
{
    match read_sources(alloc, sources)? {
        ReadSources::Program(reading) => {
            let answer = weigh_reading(alloc, &reading, certificate, clean);
            release(reading);
            Ok(answer?)
        }
        ReadSources::Unread(why) => Ok(Answer::Unread(why)),
    }
}

/// What the bytes of a certificate come to, for the program of a reading.
///
/// # Errors
/// Out of memory.
fn weigh_reading(
    alloc: Global,
    reading: &Reading<'_>,
    certificate: &[u8],
    clean: bool,
) -> Result<Answer, AllocError>
    requires { IsSomeAnd reading.now.program (λ p. IsWholeProgram (plain_program p)) }
    ensures { IfOk result (λ answer. IsSomeAnd reading.now.program (λ p. ComesFrom (reading_of reading.now) (plain_program p) certificate.now clean answer)) }
{
    let found = digests(alloc, reading)?;
    match &reading.program {
        Some(program) => weigh_program(alloc, program, &found, certificate, clean),
        None => unreachable!(),
    }
}

/// What the bytes of a certificate come to, for a program whose functions have these digests.
///
/// # Errors
/// Out of memory.
fn weigh_program(
    alloc: Global,
    program: &Program<'_>,
    found: &Digests,
    certificate: &[u8],
    clean: bool,
) -> Result<Answer, AllocError>
    requires { IsWholeProgram (plain_program program.now) }
    ensures { IfOk result (ComesTo (plain_program program.now) (digests_of found.now) certificate.now clean) }
{
    if clean {
        return weigh_clean(alloc, program, found, certificate);
    }
    let judgement = weigh(alloc, program, found, certificate)?;
    Ok(Answer::Judged(judgement))
}

/// The same of a certificate that has to be clean.
///
/// # Errors
/// Out of memory.
fn weigh_clean(
    alloc: Global,
    program: &Program<'_>,
    found: &Digests,
    certificate: &[u8],
) -> Result<Answer, AllocError>
    requires { IsWholeProgram (plain_program program.now) }
    ensures { IfOk result (ComesTo (plain_program program.now) (digests_of found.now) certificate.now true) }
{
    match weigh_whole(alloc, program, found, certificate)? {
        Weighed::Accepted(claims) => {
            let answer = try_claims(alloc, program, &claims)?;
            Ok(answer)
        }
        Weighed::Refused(judgement) => Ok(Answer::Judged(judgement)),
    }
}

/// Whether a certificate that is accepted for a program is clean, by its claims.
///
/// # Errors
/// Out of memory.
fn try_claims(alloc: Global, program: &Program<'_>, claims: &Cert) -> Result<Answer, AllocError>
    ensures { IfOk result (λ answer. (digests : List (List ℕ)) (bytes : List ℕ) → IsAcceptedText (plain_program program.now) digests bytes (claims_of claims.now) → ComesTo (plain_program program.now) digests bytes true answer) }
{
    let said = clean(alloc, program, claims)?;
    Ok(cleaned(claims.total, said))
}

/// The answer by what is said of an accepted certificate.
fn cleaned(bounds: Bounds, said: Clean) -> Answer
    ensures { result ≡ cleaned bounds said }
{
    match said {
        Clean::Yes => Answer::Clean(bounds),
        Clean::No { c, at } => Answer::Unclean(c, at),
    }
}
