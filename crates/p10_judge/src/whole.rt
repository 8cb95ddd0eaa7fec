//! What the bytes of a certificate come to, for a program, where the claims of an accepted one are wanted.

ghost use Rattle.std.specs.Prelude.{◌≡◌, ℕ, List, map, option_map, IfOk};
ghost use Rattle.p10_core.specs.Views.{plain_program};
ghost use Rattle.p10_core.specs.WholePrograms.{IsWholeProgram};
ghost use Rattle.p10_check.specs.Texts.{digests_of};
ghost use Rattle.p10_judge.specs.Kept.{IsReadAs};
ghost use Rattle.p10_judge.specs.Whole.{IsWeighedWhole};
ghost use Rattle.p10_diff_evidence.specs.Reading.{ranks_in};
ghost use Rattle.p10_diff_evidence.specs.Standing.{standing_by};
ghost use Rattle.p10_judge.specs.private.Weighing.{IsShort, IsTried, weighed_by};

use crate::judgement::Judgement;
use crate::places::name_at;
use crate::reading::{Text, read};
use crate::stale::first_stale;
use crate::weighing::is_too_long;
use p10_base::{Digest, Digests};
use p10_cert::Cert;
use p10_check::{Evidence, Verdict, check};
use p10_core::Program;
use p10_diff_evidence::DiffEvidence;
use p10_evidence::RangeEvidence;
use std::alloc::{AllocError, Global};

/// What the bytes of a certificate come to, with the claims of an accepted one.
#[derive(Debug, Drop)]
pub enum Weighed {
    /// All conditions hold of these claims.
    Accepted(Cert),
    /// It isn't accepted.
    Refused(Judgement),
}

/// What the bytes of a certificate come to, for a program whose functions have these digests, as [`crate::weigh`] has it. All of its
/// claims are in memory at once.
///
/// # Errors
///
/// Out of memory.
pub fn weigh_whole(
    alloc: Global,
    program: &Program<'_>,
    digests: &Digests,
    certificate: &[u8],
) -> Result<Weighed, AllocError>
    requires { IsWholeProgram (plain_program program.now) }
    ensures { IfOk result (IsWeighedWhole (plain_program program.now) (digests_of digests.now) certificate.now) }
{
    if is_too_long(certificate) {
        return Ok(Weighed::Refused(Judgement::TooLong));
    }
    match read(alloc, certificate)? {
        Text::Bad(line) => Ok(Weighed::Refused(Judgement::BadCertificate(line))),
        Text::Whole(claims, kept, evidence) => {
            weigh_claims(alloc, program, digests, claims, kept.as_slice(), &evidence)
        }
    }
}

/// What claims come to that were read of a text with the digests that it keeps.
///
/// # Errors
///
/// Out of memory.
fn weigh_claims(
    alloc: Global,
    program: &Program<'_>,
    digests: &Digests,
    claims: Cert,
    kept: &[Option<Digest>],
    evidence: &Option<DiffEvidence>,
) -> Result<Weighed, AllocError>
    requires { IsWholeProgram (plain_program program.now) }
    ensures { IfOk result (λ weighed. (bytes : List ℕ) → IsShort bytes → IsReadAs bytes claims kept.now evidence.now → IsWeighedWhole (plain_program program.now) (digests_of digests.now) bytes weighed) }
{
    match first_stale(kept, digests.funcs.as_slice()) {
        Some(stale) => Ok(Weighed::Refused(Judgement::Stale {
            at: name_at(program, stale.number),
            kept: stale.kept,
            found: stale.found,
        })),
        None => try_conditions(alloc, program, claims, evidence),
    }
}

/// Whether the conditions of a certificate hold of a program, with the evidence of its ranks, if it has any, or else that of ranges.
///
/// # Errors
///
/// Out of memory.
fn try_conditions(
    alloc: Global,
    program: &Program<'_>,
    certificate: Cert,
    evidence: &Option<DiffEvidence>,
) -> Result<Weighed, AllocError>
    requires { IsWholeProgram (plain_program program.now) }
    ensures { IfOk result (IsTried (standing_by (plain_program program.now) (option_map ranks_in evidence.now)) (plain_program program.now) certificate) }
{
    match evidence {
        Some(evidence) => try_with(alloc, program, certificate, evidence),
        None => try_with(alloc, program, certificate, &RangeEvidence),
    }
}

/// The same with this evidence.
///
/// # Errors
///
/// Out of memory.
fn try_with<E: Evidence>(
    alloc: Global,
    program: &Program<'_>,
    certificate: Cert,
    evidence: &E,
) -> Result<Weighed, AllocError>
    requires { IsWholeProgram (plain_program program.now) }
    ensures { IfOk result (IsTried (E.standing evidence.now (plain_program program.now)) (plain_program program.now) certificate) }
{
    let verdict = check(alloc, program, &certificate, evidence)?;
    Ok(weighed_by(certificate, verdict))
}

/// What claims come to by their verdict.
fn weighed_by(certificate: Cert, verdict: Verdict) -> Weighed
    ensures { result ≡ weighed_by certificate verdict }
{
    match verdict {
        Verdict::Accepted(_) => Weighed::Accepted(certificate),
        Verdict::Refused { k, at } => Weighed::Refused(Judgement::Failing(k, at)),
    }
}
