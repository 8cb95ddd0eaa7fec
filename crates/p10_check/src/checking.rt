//! The verdict on a certificate.

ghost use Rattle.std.specs.Prelude.{◌≡◌, IfOk, option_map};
ghost use Rattle.p10_core.specs.Views.{plain_program};
ghost use Rattle.p10_core.specs.WholePrograms.{IsWholeProgram};
ghost use Rattle.p10_cert.specs.Claims.{claims_of};
ghost use Rattle.p10_pass.specs.Leaving.{failing_of};
ghost use Rattle.p10_check.specs.Conditions.{IsVerdict, first_failing, verdict_by};
ghost use Rattle.p10_check.specs.Fails.{failures_of};
ghost use Rattle.p10_fit.specs.Fits.{unfit};
ghost use Rattle.p10_check.specs.private.Firsts.{earlier, earliest_from, first_after};

use crate::evidence::Evidence;
use crate::function::check_one;
use crate::places::name_at;
use crate::shape::fitting_shape;
use crate::verdict::Verdict;
use p10_base::Bounds;
use p10_cert::Cert;
use p10_core::Program;
use p10_fit::unfit;
use p10_pass::Fail;
use std::alloc::{AllocError, Global};

/// The verdict on a certificate for a program: `Accepted` exactly where all of K1 to K14 hold, else the first that fails, by number,
/// then in program order, then in text order. K8 to K10 of a loop also hold where the evidence stands for it.
///
/// # Errors
///
/// Out of memory; 2^32 functions count as that, too.
pub fn check<E: Evidence>(
    alloc: Global,
    program: &Program<'_>,
    certificate: &Cert,
    evidence: &E,
) -> Result<Verdict, AllocError>
    requires program { IsWholeProgram (plain_program program.now) }
    ensures { IfOk result (λ verdict. IsVerdict (E.standing evidence.now (plain_program program.now)) (plain_program program.now) (claims_of certificate.now) verdict) }
{
    let shape = fitting_shape(alloc, program, certificate)?;
    let first = first_failure(alloc, program, certificate, evidence, shape.as_slice())?;
    Ok(verdict_by(certificate.total, first))
}

/// The first condition that fails, where the failing K2, K4, K13 and K14 are given.
fn first_failure<E: Evidence>(
    alloc: Global,
    program: &Program<'_>,
    certificate: &Cert,
    evidence: &E,
    shape: &[Fail],
) -> Result<Option<Fail>, AllocError>
    requires program { IsWholeProgram (plain_program program.now) }
    ensures { IfOk result (λ first. option_map failing_of first ≡ first_after (plain_program program.now) (unfit (plain_program program.now) (claims_of certificate.now)) (earliest_from (E.standing evidence.now (plain_program program.now)) (plain_program program.now) (claims_of certificate.now) (first_failing (failures_of shape.now)) 0 (plain_program program.now).functions)) }
{
    match unfit(alloc, program, certificate)? {
        Some(number) => Ok(Some(Fail {
            k: 1,
            at: name_at(program, number),
        })),
        None => {
            let first = first_fail(shape);
            earliest(alloc, program, certificate, evidence, first)
        }
    }
}

/// The verdict by the first condition that fails.
pub(crate) fn verdict_by(total: Bounds, first: Option<Fail>) -> Verdict
    ensures { result ≡ verdict_by total (option_map failing_of first) }
{
    match first {
        Some(fail) => Verdict::Refused {
            k: fail.k,
            at: fail.at,
        },
        None => Verdict::Accepted(total),
    }
}

/// The first of one failing condition and of those in all functions.
fn earliest<E: Evidence>(
    alloc: Global,
    program: &Program<'_>,
    certificate: &Cert,
    evidence: &E,
    first: Option<Fail>,
) -> Result<Option<Fail>, AllocError>
    requires program { IsWholeProgram (plain_program program.now) }
    ensures { IfOk result (λ found. option_map failing_of found ≡ earliest_from (E.standing evidence.now (plain_program program.now)) (plain_program program.now) (claims_of certificate.now) (option_map failing_of first) 0 (plain_program program.now).functions) }
{
    let count = program.functions.as_slice().len();
    if count > u32::MAX as usize {
        return Err(AllocError);
    }
    let mut found = first;
    for number in 0..count {
        let fails = check_one(alloc, program, certificate, number as u32, evidence)?;
        found = earlier(found, first_fail(fails.as_slice()));
    }
    Ok(found)
}

/// The first of some failing conditions.
pub(crate) fn first_fail(fails: &[Fail]) -> Option<Fail>
    ensures { option_map failing_of result ≡ first_failing (failures_of fails.now) }
{
    match fails {
        [fail, ..] => Some(*fail),
        [] => None,
    }
}

/// The first of two failing conditions that may be lacking: the second only where its number is lower.
pub(crate) fn earlier(found: Option<Fail>, more: Option<Fail>) -> Option<Fail>
    ensures { option_map failing_of result ≡ earlier (option_map failing_of found) (option_map failing_of more) }
{
    match more {
        Some(second) => match found {
            Some(first) => Some(if second.k < first.k { second } else { first }),
            None => Some(second),
        },
        None => found,
    }
}
