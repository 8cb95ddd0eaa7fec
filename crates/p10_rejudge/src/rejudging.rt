//! What the text of a certificate from before an edit comes to.

ghost use Rattle.std.specs.Prelude.{ℕ, List, Err, IfOk};
ghost use Rattle.p10_core.specs.Views.{plain_program};
ghost use Rattle.p10_core.specs.WholePrograms.{IsWholeProgram};
ghost use Rattle.p10_cert.specs.Reading.{ReadsAsSealed};
ghost use Rattle.p10_cert.specs.Sealed.{HasDigests, bytes_of, statement_of};
ghost use Rattle.p10_check.specs.Texts.{digests_of};
ghost use Rattle.p10_incr.specs.Edits.{edit_of};
ghost use Rattle.p10_rejudge.specs.Rejudging.{Rejudges, TellsRejudged, TellsUnread};

use p10_base::Digests;
use p10_cert::{Cert2, CertFault, read2};
use p10_check::{Evidence, TextVerdict};
use p10_core::Program;
use p10_incr::{PlainPasser, recheck};
use std::alloc::{AllocError, Global};

/// How many functions were passed, and how many there are.
#[derive(Clone, Copy, Debug)]
pub struct Passed {
    /// Those that the edit touches, and their callers; none where the verdict comes before.
    pub passed: u64,
    /// All functions of the program.
    pub functions: u64,
}

/// What comes of the text of a certificate from before an edit, in the order in which it is tried.
#[derive(Debug, Drop)]
pub enum Rejudgement {
    /// There are more bytes than a certificate may have: M10.
    TooLong,
    /// The text is that of no certificate of version 2, from this line on.
    BadOld(u64),
    /// The verdict after the edit, and how many functions were passed for it.
    Judged(TextVerdict, Passed),
}

/// What comes of the text `old` of a certificate from before an edit, and of the certificate `new` from after it, for the program after it,
/// of whose words `found` are the digests.
///
/// # Errors
///
/// Out of memory.
pub fn rejudge<E: Evidence>(
    alloc: Global,
    program: &Program<'_>,
    found: &Digests,
    new: &Cert2,
    old: &[u8],
    evidence: &E,
) -> Result<Rejudgement, AllocError>
    requires program { IsWholeProgram (plain_program program.now) }
    requires digests { HasDigests new.now }
    ensures { IfOk result (Rejudges (E.standing evidence.now (plain_program program.now)) (plain_program program.now) (digests_of found.now) (bytes_of found.now.outside) (statement_of new.now) old.now) }
{
    match read2(alloc, old) {
        Ok(old) => rejudge_read(alloc, program, found, &old, new, evidence),
        Err(fault) => unread(fault),
    }
}

/// The same where the certificate from before is read.
fn rejudge_read<E: Evidence>(
    alloc: Global,
    program: &Program<'_>,
    found: &Digests,
    old: &Cert2,
    new: &Cert2,
    evidence: &E,
) -> Result<Rejudgement, AllocError>
    requires program { IsWholeProgram (plain_program program.now) }
    requires digests { HasDigests new.now }
    ensures { IfOk result (TellsRejudged (E.standing evidence.now (plain_program program.now)) (plain_program program.now) (edit_of found.now old.now new.now)) }
{
    let mut passer = PlainPasser::new(alloc);
    let verdict = recheck(alloc, program, found, old, new, evidence, &mut passer)?;
    let passed = Passed {
        passed: passer.count(),
        functions: program.functions.as_slice().len() as u64,
    };
    Ok(Rejudgement::Judged(verdict, passed))
}

/// Why there is no certificate of version 2.
fn unread(fault: CertFault) -> Result<Rejudgement, AllocError>
    ensures { (old : List ℕ) → ReadsAsSealed old (Err fault) → IfOk result (TellsUnread old) }
{
    match fault {
        CertFault::Over(_) => Ok(Rejudgement::TooLong),
        CertFault::Line(line) => Ok(Rejudgement::BadOld(line)),
        CertFault::Memory => Err(AllocError),
    }
}
