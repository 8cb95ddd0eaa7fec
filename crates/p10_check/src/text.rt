//! The verdict on the text of a certificate, of either version.
//!
//! The text is read once (`reading`): what is tried of each claim by itself, and K0, is tried then. Of the claims all but loops are
//! kept (`kept`), and for the other conditions the claim on one function at a time stands whole among them.

ghost use Rattle.std.specs.Prelude.{◌≡◌, ℕ, ◌<◌, List, IfOk, OnOk, length, option_map, slice_get};
ghost use Rattle.p10_core.specs.Views.{plain_program};
ghost use Rattle.p10_core.specs.WholePrograms.{IsWholeProgram};
ghost use Rattle.p10_cert.specs.Claims.{func_of, claims_of};
ghost use Rattle.p10_cert.specs.Statements.{Statement, IsStatement};
ghost use Rattle.p10_fit.specs.Fits.{unfit};
ghost use Rattle.p10_pass.specs.Leaving.{failing_of};
ghost use Rattle.p10_check.specs.Conditions.{IsVerdict, first_failing, function_failures_at};
ghost use Rattle.p10_check.specs.Fails.{failures_of};
ghost use Rattle.p10_check.specs.Texts.{claims_in, digests_of, text_verdict, TellsStale, IsStatementVerdict, IsTextVerdict};
ghost use Rattle.p10_check.specs.declared.verdict.Verdict.{Verdict as PlainVerdict};
ghost use Rattle.p10_check.specs.private.Readings.{stale_of, CertificateTells};
ghost use Rattle.p10_check.specs.private.Firsts.{earliest_from, first_after};
ghost use Rattle.p10_check.specs.private.Keeping.{claims_kept, lines_kept, claims_with, AreKept};

use crate::checking::{earlier, first_fail, verdict_by};
use crate::evidence::Evidence;
use crate::function::check_one;
use crate::kept::{Kept, lines_at};
use crate::places::name_at;
use crate::reading::{StaleAt, Told, nothing_told, read_text};
use crate::shape::shape_by_turn;
use crate::verdict::{TextVerdict, Verdict};
use p10_base::Digests;
use p10_cert::{Cert, FuncClaim, claim};
use p10_core::Program;
use p10_pass::Fail;
use std::alloc::{AllocError, Global};

/// The verdict on a text as that of a certificate for a program, of whose functions these are the digests: `BadLine` with the first
/// line that no certificate has; else `Stale` at the first function whose digests differ; else as [`crate::check`] of its claims.
///
/// # Errors
///
/// Out of memory; 2^32 functions count as that, too.
pub fn check_text<E: Evidence>(
    alloc: Global,
    program: &Program<'_>,
    found: &Digests,
    bytes: &[u8],
    evidence: &E,
) -> Result<TextVerdict, AllocError>
    requires { IsWholeProgram (plain_program program.now) }
    ensures { IfOk result (IsTextVerdict (E.standing evidence.now (plain_program program.now)) (plain_program program.now) (digests_of found.now) bytes.now) }
{
    let mut told = nothing_told(alloc);
    let bad = read_text(alloc, program, found, bytes, &mut told)?;
    match bad {
        Some(line) => Ok(TextVerdict::BadLine(line)),
        None => {
            let verdict = verdict_told(alloc, program, &mut told, evidence)?;
            Ok(verdict)
        }
    }
}

/// The verdict on a certificate by what its text tells.
fn verdict_told<E: Evidence>(
    alloc: Global,
    program: &Program<'_>,
    told: &mut Told<'_>,
    evidence: &E,
) -> Result<TextVerdict, AllocError>
    requires { IsWholeProgram (plain_program program.now) }
    ensures { IfOk result (λ verdict. (digests : List (List ℕ)) (s : Statement) → IsStatement s → CertificateTells (plain_program program.now) digests s told.old
        → IsStatementVerdict (E.standing evidence.now (plain_program program.now)) (plain_program program.now) digests s verdict) }
{
    match told.stale {
        Some(stale) => Ok(stale_verdict(program, stale)),
        None => verdict_on_claims(alloc, program, told, evidence),
    }
}

/// The verdict on a certificate that speaks of other words.
fn stale_verdict(program: &Program<'_>, stale: StaleAt) -> TextVerdict
    ensures { TellsStale (plain_program program.now) (stale_of stale) result }
{
    TextVerdict::Stale {
        at: name_at(program, stale.number),
        kept: stale.kept,
        found: stale.found,
    }
}

/// The verdict on what a certificate claims, by what its text tells.
fn verdict_on_claims<E: Evidence>(
    alloc: Global,
    program: &Program<'_>,
    told: &mut Told<'_>,
    evidence: &E,
) -> Result<TextVerdict, AllocError>
    requires { IsWholeProgram (plain_program program.now) }
    ensures { IfOk result (λ verdict. (digests : List (List ℕ)) (s : Statement) → IsStatement s → CertificateTells (plain_program program.now) digests s told.old
        → (v : PlainVerdict) × IsVerdict (E.standing evidence.now (plain_program program.now)) (plain_program program.now) (claims_in s) v × (verdict ≡ text_verdict v)) }
{
    let total = told.kept.certificate.total;
    let shape = shape_by_turn(alloc, program, &told.kept.certificate, told.turn)?;
    let first = first_told(alloc, program, told, evidence, shape.as_slice())?;
    Ok(text_verdict(verdict_by(total, first)))
}

/// A verdict on claims, as one on their text.
fn text_verdict(verdict: Verdict) -> TextVerdict
    ensures { result ≡ text_verdict verdict }
{
    match verdict {
        Verdict::Accepted(total) => TextVerdict::Accepted(total),
        Verdict::Refused { k, at } => TextVerdict::Refused { k, at },
    }
}

/// The first condition on claims that fails, where the failing K2, K4, K13 and K14 are given.
fn first_told<E: Evidence>(
    alloc: Global,
    program: &Program<'_>,
    told: &mut Told<'_>,
    evidence: &E,
    shape: &[Fail],
) -> Result<Option<Fail>, AllocError>
    requires { IsWholeProgram (plain_program program.now) }
    ensures { IfOk result (λ first. (digests : List (List ℕ)) (s : Statement) → IsStatement s → CertificateTells (plain_program program.now) digests s told.old
        → option_map failing_of first ≡ first_after (plain_program program.now) (unfit (plain_program program.now) (claims_in s)) (earliest_from (E.standing evidence.now (plain_program program.now)) (plain_program program.now) (claims_in s) (first_failing (failures_of shape.now)) 0 (plain_program program.now).functions)) }
{
    match told.unfit {
        Some(number) => Ok(Some(Fail {
            k: 1,
            at: name_at(program, number),
        })),
        None => {
            let first = first_fail(shape);
            earliest_in_text(alloc, program, &mut told.kept, evidence, first)
        }
    }
}

/// The first of one failing condition and of those in all functions, of each of which there is a claim.
fn earliest_in_text<E: Evidence>(
    alloc: Global,
    program: &Program<'_>,
    kept: &mut Kept<'_>,
    evidence: &E,
    first: Option<Fail>,
) -> Result<Option<Fail>, AllocError>
    requires { IsWholeProgram (plain_program program.now) }
    ensures { IfOk result (λ found. (s : Statement) → IsStatement s → AreKept s.entries (claims_kept kept.old) (lines_kept kept.old) → length (claims_in s).funcs ≡ length (plain_program program.now).functions
        → option_map failing_of found ≡ earliest_from (E.standing evidence.now (plain_program program.now)) (plain_program program.now) (claims_in s) (option_map failing_of first) 0 (plain_program program.now).functions) }
{
    let count = program.functions.as_slice().len();
    if count > u32::MAX as usize {
        return Err(AllocError);
    }
    let mut found = first;
    for number in 0..count {
        let fails = check_in_text(alloc, program, kept, evidence, number as u32)?;
        found = earlier(found, first_fail(fails.as_slice()));
    }
    Ok(found)
}

/// All failing K3 and K5 to K12 of the function with a number, by what its lines claim.
fn check_in_text<E: Evidence>(
    alloc: Global,
    program: &Program<'_>,
    kept: &mut Kept<'_>,
    evidence: &E,
    number: u32,
) -> Result<Vec<Fail>, AllocError>
    requires { IsWholeProgram (plain_program program.now) }
    ensures fails { IfOk result (λ fails. (s : Statement) → IsStatement s → AreKept s.entries (claims_kept kept.old) (lines_kept kept.old) → number < length (claims_in s).funcs
        → failures_of fails.items ≡ function_failures_at (E.standing evidence.now (plain_program program.now)) (plain_program program.now) (claims_in s) number (slice_get (plain_program program.now).functions number)) }
    ensures same { OnOk result (kept.new ≡ kept.old) }
{
    match lines_at(kept, number as usize) {
        Some(lines) => {
            let own = claim(alloc, &lines)?;
            check_whole(alloc, program, &mut kept.certificate, own, number, evidence)
        }
        None => Ok(Vec::new(alloc)),
    }
}

/// The same by its claim, which stands among the others for as long.
fn check_whole<E: Evidence>(
    alloc: Global,
    program: &Program<'_>,
    certificate: &mut Cert,
    own: FuncClaim,
    number: u32,
    evidence: &E,
) -> Result<Vec<Fail>, AllocError>
    requires { IsWholeProgram (plain_program program.now) }
    ensures fails { IfOk result (λ fails. failures_of fails.items ≡ function_failures_at (E.standing evidence.now (plain_program program.now)) (plain_program program.now) (claims_with (claims_of certificate.old) number (func_of own)) number (slice_get (plain_program program.now).functions number)) }
    ensures same { OnOk result (certificate.new ≡ certificate.old) }
{
    let mut own = own;
    certificate.funcs.exchange(number as usize, &mut own);
    let fails = check_one(alloc, program, certificate, number, evidence)?;
    certificate.funcs.exchange(number as usize, &mut own);
    Ok(fails)
}
