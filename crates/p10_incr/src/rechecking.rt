//! The verdict on a certificate after an edit.

ghost use Rattle.std.specs.Prelude.{◌≡◌, ◌++◌, IfOk, OnOk, OnErr, None, option_map};
ghost use Rattle.p10_core.specs.Views.{plain_program};
ghost use Rattle.p10_core.specs.WholePrograms.{IsWholeProgram};
ghost use Rattle.p10_cert.specs.Claims.{claims_of};
ghost use Rattle.p10_cert.specs.Sealed.{HasDigests};
ghost use Rattle.p10_fit.specs.Fits.{unfit};
ghost use Rattle.p10_pass.specs.Leaving.{failing_of};
ghost use Rattle.p10_check.specs.Conditions.{verdict_by};
ghost use Rattle.p10_check.specs.Fails.{failures_of};
ghost use Rattle.p10_check.specs.Places.{name_at};
ghost use Rattle.p10_check.specs.Texts.{TellsStale, text_verdict};
ghost use Rattle.p10_incr.specs.Edits.{edit_of, dirty};
ghost use Rattle.p10_incr.specs.Passing.{PassedFront};
ghost use Rattle.p10_incr.specs.Rechecking.{first_from, failures_among, JudgesAmong, IsRecheckVerdict, passed_where, passed_for};
ghost use Rattle.p10_incr.specs.private.Entries.{stale_of, known_edit};
ghost use Rattle.p10_incr.specs.private.Misfits.{misfit_in};

use crate::dirty::dirty;
use crate::edit::Edit;
use crate::first::first_from;
use crate::passer::Passer;
use crate::stale::{Stale, first_stale};
use p10_base::{Bounds, Digests, Span};
use p10_calls::call_sites;
use p10_cert::{Cert, Cert2};
use p10_check::{Evidence, TextVerdict, check_shape_by_calls};
use p10_core::Program;
use p10_pass::Fail;
use std::alloc::{AllocError, Global};

/// The verdict on the certificate `new` for a program after an edit, of whose words `found` are the digests: `Stale` at the first
/// function whose digests differ; else the first condition that fails, K1, K2, K4, K13 and K14 of all, and K3 and K5 to K12 of the
/// dirty functions alone, by number, then in program order, then in text order; else `Accepted` with the total of `new`. The dirty
/// functions are passed in program order, where the digests agree and K1 holds, and else none is.
///
/// # Errors
///
/// Out of memory: the first of these functions were passed then, or none; 2^32 functions count as that, too.
pub fn recheck<E: Evidence, P: Passer>(
    alloc: Global,
    program: &Program<'_>,
    found: &Digests,
    old: &Cert2,
    new: &Cert2,
    evidence: &E,
    passer: &mut P,
) -> Result<TextVerdict, AllocError>
    requires program { IsWholeProgram (plain_program program.now) }
    requires digests { HasDigests new.now }
    ensures verdict { IfOk result (IsRecheckVerdict (E.standing evidence.now (plain_program program.now)) (plain_program program.now) (edit_of found.now old.now new.now)) }
    ensures passed { OnOk result (P.passed passer.new ≡ P.passed passer.old ++ passed_for (plain_program program.now) (edit_of found.now old.now new.now)) }
    ensures front { OnErr result (PassedFront (P.passed passer.old) (P.passed passer.new) (passed_for (plain_program program.now) (edit_of found.now old.now new.now))) }
{
    let edit = Edit { found, old, new };
    let stale = first_stale(
        new.base.funcs.as_slice(),
        new.digests.as_slice(),
        found.funcs.as_slice(),
    );
    match stale {
        Some(stale) => Ok(stale_verdict(program, stale)),
        None => verdict_on_claims(alloc, program, edit, evidence, passer),
    }
}

/// A program with what is claimed of it.
#[derive(Clone, Copy)]
struct Judged<'a, 's> {
    program: &'a Program<'s>,
    certificate: &'a Cert,
}

/// The verdict on what the certificate after an edit claims.
fn verdict_on_claims<E: Evidence, P: Passer>(
    alloc: Global,
    program: &Program<'_>,
    edit: Edit<'_>,
    evidence: &E,
    passer: &mut P,
) -> Result<TextVerdict, AllocError>
    requires { IsWholeProgram (plain_program program.now) }
    ensures verdict { IfOk result (JudgesAmong (E.standing evidence.now (plain_program program.now)) (plain_program program.now) (claims_of edit.entry.new.now.base) (dirty (plain_program program.now) (known_edit edit.entry))) }
    ensures passed { OnOk result (P.passed passer.new ≡ P.passed passer.old ++ passed_where None (unfit (plain_program program.now) (claims_of edit.entry.new.now.base)) (dirty (plain_program program.now) (known_edit edit.entry))) }
    ensures front { OnErr result (PassedFront (P.passed passer.old) (P.passed passer.new) (passed_where None (unfit (plain_program program.now) (claims_of edit.entry.new.now.base)) (dirty (plain_program program.now) (known_edit edit.entry)))) }
{
    let certificate = &edit.new.base;
    // both K2 and the dirty functions ask for the calls
    let sites = call_sites(alloc, program)?;
    let shape = check_shape_by_calls(alloc, program, certificate, sites.as_slice())?;
    match misfit_in(shape.as_slice()) {
        Some(misfit) => Ok(verdict_by(certificate.total, Some(misfit))),
        None => {
            let numbers = dirty(alloc, program, edit, sites.as_slice())?;
            let judged = Judged {
                program,
                certificate,
            };
            let first = first_from(None, shape.as_slice());
            let first = first_among(alloc, judged, evidence, first, numbers.as_slice(), passer)?;
            Ok(verdict_by(certificate.total, first))
        }
    }
}

/// The first of one failing condition and of those of some functions, which are passed for it.
fn first_among<E: Evidence, P: Passer>(
    alloc: Global,
    judged: Judged<'_, '_>,
    evidence: &E,
    first: Option<Fail>,
    numbers: &[u32],
    passer: &mut P,
) -> Result<Option<Fail>, AllocError>
    requires { IsWholeProgram (plain_program judged.program.now) }
    ensures found { IfOk result (λ found. option_map failing_of found ≡ first_from (option_map failing_of first) (failures_among (E.standing evidence.now (plain_program judged.entry.program.now)) (plain_program judged.entry.program.now) (claims_of judged.entry.certificate.now) numbers.now)) }
    ensures passed { OnOk result (P.passed passer.new ≡ P.passed passer.old ++ numbers.now) }
    ensures front { OnErr result (PassedFront (P.passed passer.old) (P.passed passer.new) numbers.now) }
{
    let mut found = first;
    let mut numbers = numbers;
    while let [number, others @ ..] = numbers {
        let fails = passer.pass_one(alloc, judged.program, judged.certificate, *number, evidence)?;
        found = first_from(found, fails.as_slice());
        numbers = others;
    }
    Ok(found)
}

/// The verdict on a certificate that speaks of other words.
fn stale_verdict(program: &Program<'_>, stale: Stale) -> TextVerdict
    ensures { TellsStale (plain_program program.now) (stale_of stale) result }
{
    TextVerdict::Stale {
        at: name_at(program, stale.number),
        kept: stale.kept,
        found: stale.found,
    }
}

/// The failing K1 among those that speak of no values and sums: where it fails it stands alone.
fn misfit_in(fails: &[Fail]) -> Option<Fail>
    ensures { option_map failing_of result ≡ misfit_in (failures_of fails.now) }
{
    match fails {
        [fail, ..] => { if fail.k == 1 { Some(*fail) } else { None } }
        [] => None,
    }
}

/// The verdict by the first condition that fails.
fn verdict_by(total: Bounds, first: Option<Fail>) -> TextVerdict
    ensures { result ≡ text_verdict (verdict_by total (option_map failing_of first)) }
{
    match first {
        Some(fail) => TextVerdict::Refused {
            k: fail.k,
            at: fail.at,
        },
        None => TextVerdict::Accepted(total),
    }
}

/// The name of the function with a number. In a whole program there is one.
fn name_at(program: &Program<'_>, number: usize) -> Span
    ensures { result ≡ name_at (plain_program program.now) number }
{
    match program.functions.as_slice().get(number) {
        Some(function) => function.span,
        None => Span {
            file: 0,
            start: 0,
            end: 0,
        },
    }
}
