//! What the bytes of a certificate come to, for a program.

ghost use Rattle.std.specs.Prelude.{◌≡◌, ◌≤◌, ◌<◌, true, false, length, IfOk};
ghost use Rattle.p10_core.specs.Views.{plain_program};
ghost use Rattle.p10_core.specs.WholePrograms.{IsWholeProgram};
ghost use Rattle.p10_check.specs.Texts.{digests_of};
ghost use Rattle.p10_judge.specs.Judging.{IsWeighed, judgement_on};
ghost use Rattle.p10_judge.specs.Loading.{certificate_limit};

use crate::judgement::Judgement;
use crate::ranks::{Ranks, ranks_of};
use p10_base::{Digests, Limit};
use p10_check::{TextVerdict, check_text};
use p10_core::Program;
use p10_evidence::RangeEvidence;
use std::alloc::{AllocError, Global};

/// What the bytes of a certificate come to, for a program whose functions have these digests. Of a file that is over the limit, the
/// first bytes are enough.
///
/// # Errors
///
/// Out of memory.
pub fn weigh(
    alloc: Global,
    program: &Program<'_>,
    digests: &Digests,
    certificate: &[u8],
) -> Result<Judgement, AllocError>
    requires { IsWholeProgram (plain_program program.now) }
    ensures { IfOk result (IsWeighed (plain_program program.now) (digests_of digests.now) certificate.now) }
{
    if is_too_long(certificate) {
        return Ok(Judgement::TooLong);
    }
    match ranks_of(alloc, certificate)? {
        Ranks::Bad(line) => Ok(Judgement::BadCertificate(line)),
        Ranks::Absent => {
            let verdict = check_text(alloc, program, digests, certificate, &RangeEvidence)?;
            Ok(judgement_on(verdict))
        }
        Ranks::Listed(evidence) => {
            let verdict = check_text(alloc, program, digests, certificate, &evidence)?;
            Ok(judgement_on(verdict))
        }
    }
}

/// Whether there are more bytes than a certificate may have.
pub fn is_too_long(certificate: &[u8]) -> bool
    ensures yes { result ≡ true → certificate_limit < length certificate.now }
    ensures no { result ≡ false → length certificate.now ≤ certificate_limit }
{
    certificate.len() as u64 > Limit::MOST_CERTIFICATE_BYTES
}

/// The judgement by the verdict on a text.
pub fn judgement_on(verdict: TextVerdict) -> Judgement
    ensures { result ≡ judgement_on verdict }
{
    match verdict {
        TextVerdict::BadLine(line) => Judgement::BadCertificate(line),
        TextVerdict::Accepted(bounds) => Judgement::Accepted(bounds),
        TextVerdict::Refused { k, at } => Judgement::Failing(k, at),
        TextVerdict::Stale { at, kept, found } => Judgement::Stale { at, kept, found },
    }
}
