//! The answer to `recheck`, in the order of answers.

ghost use Rattle.std.specs.Prelude.{◌≡◌, ◌≤◌, length, IfOk, IsErrOf, IsSomeAnd};
ghost use Rattle.p10_core.specs.Views.{plain_program};
ghost use Rattle.p10_core.specs.WholePrograms.{IsWholeProgram};
ghost use Rattle.p10_expand.specs.Gathering.{HaveWords};
ghost use Rattle.p10_front.specs.Answers.{reading_of};
ghost use Rattle.p10_world.specs.Faults.{Rose};
ghost use Rattle.p10_recheck_command.specs.private.Deciding.{AreRechecked, Comes, Decides};

use crate::answer::Answer;
use crate::command::RecheckCommand;
use crate::judging::recheck_bytes;
use crate::rechecking::Rechecking;
use p10_base::Sources;
use p10_command::{GatheredRoots, ReadSources, Trouble, gather_roots, read_sources, release};
use p10_front::{Reading, digests};
use p10_judge::load_certificate;
use p10_world::Files;
use std::alloc::{AllocError, Global};

/// An answer, and the sources in which its places lie.
#[derive(Drop)]
pub struct Decision {
    pub answer: Answer,
    pub sources: Sources,
}

/// The answer to `recheck`.
///
/// # Errors
/// A read failed, only where the count of faults of `files` rose; or out of memory.
pub fn decide<F: Files>(
    alloc: Global,
    command: &RecheckCommand,
    files: &mut F,
) -> Result<Decision, Trouble>
    requires { length command.now.sources ≤ 65536 }
    ensures right { IfOk result (λ decision. Decides (F.held files.old) command.now decision.sources decision.answer) }
    ensures failed { IsErrOf result Trouble.Read → Rose (F.faults files.old) (F.faults files.new) }
    ensures count { F.faults files.old ≤ F.faults files.new }
    ensures held { F.held files.new ≡ F.held files.old }
{
    let roots = command.sources.as_slice();
    let directories = command.directories.as_slice();
    let sources = match gather_roots(alloc, files, roots, directories)? {
        GatheredRoots::All(sources) => sources,
        GatheredRoots::Stopped(why, sources) => {
            return Ok(Decision {
                answer: Answer::Ungathered(why),
                sources,
            });
        }
    };
    let Some(new) = load_certificate(alloc, files, command.certificate.as_str())? else {
        return Ok(Decision {
            answer: Answer::AbsentCertificate,
            sources,
        });
    };
    let Some(old) = load_certificate(alloc, files, command.since.as_str())? else {
        return Ok(Decision {
            answer: Answer::AbsentOld,
            sources,
        });
    };
    let answer = recheck_sources(alloc, &sources, &new, &old)?;
    Ok(Decision { answer, sources })
}

/// What gathered sources and the bytes of both certificates come to. Each file has words.
///
/// # Errors
/// Out of memory.
fn recheck_sources(
    alloc: Global,
    sources: &Sources,
    new: &[u8],
    old: &[u8],
) -> Result<Answer, AllocError>
    requires { HaveWords sources.now }
    ensures { IfOk result (AreRechecked sources.now new.now old.now) }
{
    match read_sources(alloc, sources)? {
        ReadSources::Program(reading) => {
            let rechecking = recheck_reading(alloc, &reading, new, old);
            release(reading);
            Ok(Answer::Rechecked(rechecking?))
        }
        ReadSources::Unread(why) => Ok(Answer::Unread(why)),
    }
}

/// What the bytes of both certificates come to for the program of a reading.
///
/// # Errors
/// Out of memory.
fn recheck_reading(
    alloc: Global,
    reading: &Reading<'_>,
    new: &[u8],
    old: &[u8],
) -> Result<Rechecking, AllocError>
    requires { IsSomeAnd reading.now.program (λ p. IsWholeProgram (plain_program p)) }
    ensures { IfOk result (λ rechecking. IsSomeAnd reading.now.program (λ p. Comes (reading_of reading.now) (plain_program p) new.now old.now rechecking)) }
{
    let found = digests(alloc, reading)?;
    match &reading.program {
        Some(program) => recheck_bytes(alloc, program, &found, new, old),
        None => unreachable!(),
    }
}
