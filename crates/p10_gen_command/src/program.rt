//! What derivation, verification and a run come to, for a program.

ghost use Rattle.std.specs.Prelude.{◌≡◌, [], IfOk, IsSomeAnd};
ghost use Rattle.p10_check.specs.Texts.{digests_of};
ghost use Rattle.p10_core.specs.Views.{plain_program};
ghost use Rattle.p10_core.specs.WholePrograms.{IsWholeProgram};
ghost use Rattle.p10_cert.specs.Claims.{claims_of};
ghost use Rattle.p10_run.specs.WholeRuns.{outcome_of};
ghost use Rattle.p10_gen_command.specs.Answers.{ended_answer, outcome_within, IsShown};
ghost use Rattle.p10_gen_command.specs.private.Deciding.{IsJudged};

use crate::answer::{Answer, Stage};
use crate::text::certificate_text;
use p10_base::{Bounds, Digest, Digests, ListBuf};
use p10_cert::Cert;
use p10_core::Program;
use p10_finder::{FinderFault, Found, derive};
use p10_front::Reading;
use p10_judge::{Judgement, weigh};
use p10_run::{Budget, RunFault, RunOutcome, run};
use p10_world::{SureSink, SureSource};
use std::alloc::{AllocError, Global};

/// The answer for the program of a reading.
///
/// # Errors
///
/// Out of memory.
pub fn answer_of_reading(alloc: Global, reading: &Reading<'_>) -> Result<Answer, AllocError>
    requires { IsSomeAnd reading.now.program (λ p. IsWholeProgram (plain_program p)) }
    ensures { IfOk result (λ answer. IsSomeAnd reading.now.program (λ p. IsShown (plain_program p) answer)) }
{
    match &reading.program {
        Some(program) => answer_of_program(alloc, program),
        None => unreachable!(),
    }
}

/// The answer for a program: a certificate is derived first.
///
/// # Errors
///
/// Out of memory.
fn answer_of_program(alloc: Global, program: &Program<'_>) -> Result<Answer, AllocError>
    requires { IsWholeProgram (plain_program program.now) }
    ensures { IfOk result (IsShown (plain_program program.now)) }
{
    match derive(alloc, program) {
        Ok(found) => match found {
            Found::Certificate(certificate) => answer_of_certificate(alloc, program, &certificate),
            Found::Violations(_) => Ok(Answer::Fails(Stage::Deriving)),
        },
        Err(fault) => match fault {
            FinderFault::Over(limit) => Ok(Answer::Over(limit)),
            FinderFault::Memory => Err(AllocError),
        },
    }
}

/// The answer for a program and the certificate that is derived of it: the certificate's text is verified.
///
/// # Errors
///
/// Out of memory.
fn answer_of_certificate(
    alloc: Global,
    program: &Program<'_>,
    certificate: &Cert,
) -> Result<Answer, AllocError>
    requires { IsWholeProgram (plain_program program.now) }
    ensures { IfOk result (IsJudged (plain_program program.now) (claims_of certificate.now)) }
{
    let text = certificate_text(alloc, certificate)?;
    // The text is of version 1, which keeps no digests.
    match weigh(alloc, program, &no_digests(alloc), &text)? {
        Judgement::Accepted(bounds) => {
            let outcome = outcome_within(alloc, program, &bounds)?;
            Ok(ended_answer(certificate.total, outcome))
        }
        Judgement::TooLong => Ok(Answer::Fails(Stage::Verifying)),
        Judgement::BadCertificate(_) => Ok(Answer::Fails(Stage::Verifying)),
        Judgement::Stale { .. } => Ok(Answer::Fails(Stage::Verifying)),
        Judgement::Failing(..) => Ok(Answer::Fails(Stage::Verifying)),
    }
}

/// No digests of functions.
fn no_digests(alloc: Global) -> Digests
    ensures { digests_of result ≡ [] }
{
    Digests {
        funcs: ListBuf::of(Vec::new(alloc)),
        outside: Digest([0; 32]),
    }
}

/// How a run of a program within bounds ends, without input and without values of sensors. Neither a read nor a write fails.
///
/// # Errors
///
/// Out of memory.
fn outcome_within(
    alloc: Global,
    program: &Program<'_>,
    bounds: &Bounds,
) -> Result<RunOutcome, AllocError>
    requires { IsWholeProgram (plain_program program.now) }
    ensures { IfOk result (λ outcome. outcome_of outcome ≡ outcome_within (plain_program program.now) bounds.now) }
{
    let mut input = SureSource::new(Vec::new(alloc));
    let mut out = SureSink::new();
    match run(
        alloc,
        program,
        &Budget::within(bounds, 1, 0),
        Vec::new(alloc),
        &mut input,
        &mut out,
    ) {
        Ok(done) => Ok(done.outcome),
        Err(fault) => match fault {
            RunFault::Memory => Err(AllocError),
            RunFault::Read => unreachable!(),
            RunFault::Write => unreachable!(),
        },
    }
}

/// The answer where the certificate has this total, by how a run within it has ended.
fn ended_answer(total: Bounds, outcome: RunOutcome) -> Answer
    ensures { result ≡ ended_answer total (outcome_of outcome) }
{
    match outcome {
        RunOutcome::Returned(value) => Answer::Returns(total, value),
        RunOutcome::Turns(_) => Answer::Fails(Stage::Running),
        RunOutcome::AssertionFailed(_) => Answer::Fails(Stage::Running),
        RunOutcome::Undefined(..) => Answer::Fails(Stage::Running),
        RunOutcome::StepsSpent => Answer::Fails(Stage::Running),
    }
}
