//! Both certificates are read, and the new one is judged by the old.

ghost use Rattle.std.specs.Prelude.{◌≡◌, ℕ, List, Ok, Err, IfOk};
ghost use Rattle.p10_core.specs.Views.{plain_program};
ghost use Rattle.p10_core.specs.WholePrograms.{IsWholeProgram};
ghost use Rattle.p10_cert.specs.Reading.{ReadsAsSealed};
ghost use Rattle.p10_front.specs.Digests.{plain_digests};
ghost use Rattle.p10_recheck_command.specs.Rechecking.{Rechecks};
ghost use Rattle.p10_recheck_command.specs.private.Judging.{IsUnread, rechecking_by};

use crate::rechecking::Rechecking;
use p10_base::Digests;
use p10_cert::{Cert2, CertFault, read2};
use p10_core::Program;
use p10_evidence::RangeEvidence;
use p10_judge::{Ranks, judgement_on, ranks_among};
use p10_rejudge::{Rejudgement, rejudge};
use std::alloc::{AllocError, Global};

/// What the bytes of the certificates from after and from before an edit come to, for the program after it, of whose words `found` are the
/// digests. Of a file that is over the limit, the first bytes are enough.
///
/// # Errors
///
/// Out of memory.
pub fn recheck_bytes(
    alloc: Global,
    program: &Program<'_>,
    found: &Digests,
    new: &[u8],
    old: &[u8],
) -> Result<Rechecking, AllocError>
    requires { IsWholeProgram (plain_program program.now) }
    ensures { IfOk result (Rechecks (plain_program program.now) (plain_digests found.now) new.now old.now) }
{
    match read2(alloc, new) {
        Ok(certificate) => recheck_read(alloc, program, found, new, &certificate, old),
        Err(fault) => unread(fault),
    }
}

/// The same where the new certificate is read.
///
/// # Errors
///
/// Out of memory.
fn recheck_read(
    alloc: Global,
    program: &Program<'_>,
    found: &Digests,
    new: &[u8],
    certificate: &Cert2,
    old: &[u8],
) -> Result<Rechecking, AllocError>
    requires program { IsWholeProgram (plain_program program.now) }
    requires read { ReadsAsSealed new.now (Ok certificate.now) }
    ensures { IfOk result (Rechecks (plain_program program.now) (plain_digests found.now) new.now old.now) }
{
    match ranks_among(alloc, new, certificate.sections.as_slice())? {
        Ranks::Bad(line) => Ok(Rechecking::BadCertificate(line)),
        Ranks::Absent => {
            let said = rejudge(alloc, program, found, certificate, old, &RangeEvidence)?;
            Ok(rechecking_by(said))
        }
        Ranks::Listed(evidence) => {
            let said = rejudge(alloc, program, found, certificate, old, &evidence)?;
            Ok(rechecking_by(said))
        }
    }
}

/// What is said of the old text, where the new certificate is read.
fn rechecking_by(said: Rejudgement) -> Rechecking
    ensures { result ≡ rechecking_by said }
{
    match said {
        Rejudgement::TooLong => Rechecking::OldTooLong,
        Rejudgement::BadOld(line) => Rechecking::BadOld(line),
        Rejudgement::Judged(verdict, passed) => Rechecking::Judged(judgement_on(verdict), passed),
    }
}

/// Why the new text is no certificate's of version 2.
fn unread(fault: CertFault) -> Result<Rechecking, AllocError>
    ensures { (new : List ℕ) → ReadsAsSealed new (Err fault) → IfOk result (IsUnread new) }
{
    match fault {
        CertFault::Over(_) => Ok(Rechecking::TooLong),
        CertFault::Line(line) => Ok(Rechecking::BadCertificate(line)),
        CertFault::Memory => Err(AllocError),
    }
}
