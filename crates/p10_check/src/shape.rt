//! The conditions that speak of no values and sums.

ghost use Rattle.std.specs.Prelude.{◌≡◌, IfOk};
ghost use Rattle.p10_core.specs.Views.{plain_program};
ghost use Rattle.p10_core.specs.WholePrograms.{IsWholeProgram};
ghost use Rattle.p10_cert.specs.Claims.{claims_of};
ghost use Rattle.p10_calls.specs.CallSites.{call_sites};
ghost use Rattle.p10_check.specs.Conditions.{AreShapeFailures};
ghost use Rattle.p10_check.specs.Fails.{failures_of};
ghost use Rattle.p10_check.specs.private.Firsts.{AreAfterFitting};
ghost use Rattle.p10_check.specs.private.ShapesByTurn.{AreShapeFailuresBy};

use crate::effects::push_effects;
use crate::failing::push_if;
use crate::main_claims::{bounds_main, is_main_wrong, main_turn};
use crate::places::name_at;
use crate::ranks::push_rising;
use p10_calls::{CallSite, call_sites};
use p10_cert::Cert;
use p10_core::Program;
use p10_fit::unfit;
use p10_flowrules::late_allocations;
use p10_pass::Fail;
use std::alloc::{AllocError, Global};

/// The failing K1, or else all failing K2, K4, K13 and K14, by number, then in program order, then in text order.
///
/// # Errors
///
/// Out of memory; 2^32 functions count as that, too.
pub fn check_shape(
    alloc: Global,
    program: &Program<'_>,
    certificate: &Cert,
) -> Result<Vec<Fail>, AllocError>
    requires program { IsWholeProgram (plain_program program.now) }
    ensures { IfOk result (λ fails. AreShapeFailures (plain_program program.now) (claims_of certificate.now) (failures_of fails.items)) }
{
    let sites = call_sites(alloc, program)?;
    check_shape_by_calls(alloc, program, certificate, sites.as_slice())
}

/// The same, where the calls of the program are given.
///
/// # Errors
///
/// Out of memory; 2^32 functions count as that, too.
pub fn check_shape_by_calls(
    alloc: Global,
    program: &Program<'_>,
    certificate: &Cert,
    sites: &[CallSite],
) -> Result<Vec<Fail>, AllocError>
    requires program { IsWholeProgram (plain_program program.now) }
    requires calls { sites.now ≡ call_sites (plain_program program.now) }
    ensures { IfOk result (λ fails. AreShapeFailures (plain_program program.now) (claims_of certificate.now) (failures_of fails.items)) }
{
    let mut failing = fitting_shape_by_calls(alloc, program, certificate, sites)?;
    if let Some(number) = unfit(alloc, program, certificate)? {
        failing.clear();
        push_if(true, 1, name_at(program, number), &mut failing)?;
    }
    Ok(failing)
}

/// All failing K2, K4, K13 and K14.
pub(crate) fn fitting_shape(
    alloc: Global,
    program: &Program<'_>,
    certificate: &Cert,
) -> Result<Vec<Fail>, AllocError>
    requires program { IsWholeProgram (plain_program program.now) }
    ensures { IfOk result (λ fails. AreAfterFitting (plain_program program.now) (claims_of certificate.now) (failures_of fails.items)) }
{
    let sites = call_sites(alloc, program)?;
    fitting_shape_by_calls(alloc, program, certificate, sites.as_slice())
}

/// The same, where the calls of the program are given.
fn fitting_shape_by_calls(
    alloc: Global,
    program: &Program<'_>,
    certificate: &Cert,
    sites: &[CallSite],
) -> Result<Vec<Fail>, AllocError>
    requires program { IsWholeProgram (plain_program program.now) }
    requires calls { sites.now ≡ call_sites (plain_program program.now) }
    ensures { IfOk result (λ fails. AreAfterFitting (plain_program program.now) (claims_of certificate.now) (failures_of fails.items)) }
{
    let turn = main_turn(program, certificate.funcs.as_slice());
    shape_by(alloc, program, certificate, sites, turn)
}

/// The same, where this many steps are claimed of a turn of the task loop: of the claims it needs no loops.
pub(crate) fn shape_by_turn(
    alloc: Global,
    program: &Program<'_>,
    certificate: &Cert,
    turn: u64,
) -> Result<Vec<Fail>, AllocError>
    requires program { IsWholeProgram (plain_program program.now) }
    ensures { IfOk result (λ fails. AreShapeFailuresBy (plain_program program.now) (claims_of certificate.now) turn (failures_of fails.items)) }
{
    let sites = call_sites(alloc, program)?;
    shape_by(alloc, program, certificate, sites.as_slice(), turn)
}

/// The same, where the calls of the program are given, too.
fn shape_by(
    alloc: Global,
    program: &Program<'_>,
    certificate: &Cert,
    sites: &[CallSite],
    turn: u64,
) -> Result<Vec<Fail>, AllocError>
    requires program { IsWholeProgram (plain_program program.now) }
    requires calls { sites.now ≡ call_sites (plain_program program.now) }
    ensures { IfOk result (λ fails. AreShapeFailuresBy (plain_program program.now) (claims_of certificate.now) turn (failures_of fails.items)) }
{
    let late = late_allocations(alloc, program)?;
    let main = name_at(program, program.main as usize);
    let mut failing = Vec::new(alloc);
    push_rising(certificate.funcs.as_slice(), sites, &mut failing)?;
    let wrong = is_main_wrong(alloc, program, certificate)?;
    push_if(wrong, 4, main, &mut failing)?;
    push_effects(program, certificate, late.as_slice(), &mut failing)?;
    let bounds = bounds_main(program, certificate, turn);
    push_if(!bounds, 14, main, &mut failing)?;
    Ok(failing)
}
