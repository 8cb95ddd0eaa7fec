//! The limits of certificates: M9 of sums and of turns, M10 of the text.

ghost use Rattle.std.specs.Prelude.{◌≡◌, ◌<◌, length, map, nat_lt, IfOk, IfErr};
ghost use Rattle.p10_core.specs.Views.{plain_program};
ghost use Rattle.p10_core.specs.WholePrograms.{IsWholeProgram};
ghost use Rattle.p10_cert.specs.Claims.{loop_of, func_of, claims_of};
ghost use Rattle.p10_finder.specs.Answers.{PassesSum, PassesText};
ghost use Rattle.p10_finder.specs.private.Limits.{IsPassed, long_among, long_in};

use crate::found::FinderFault;
use crate::text::text_length;
use p10_base::Limit;
use p10_cert::{Cert, FuncClaim, LoopClaim};
use p10_core::Program;
use p10_sums::{SumFault, sums};
use std::alloc::Global;

/// Looks whether a certificate keeps within all limits, M9 before M10.
pub(crate) fn keep_limits(
    alloc: Global,
    program: &Program<'_>,
    certificate: &Cert,
) -> Result<(), FinderFault>
    requires { IsWholeProgram (plain_program program.now) }
    ensures sums { IfOk result (λ _. PassesSum (plain_program program.now) (claims_of certificate.now) → ⊥) }
    ensures text { IfOk result (λ _. PassesText (claims_of certificate.now) → ⊥) }
    ensures fault { IfErr result (IsPassed (plain_program program.now) (claims_of certificate.now)) }
{
    match keep_sums(alloc, program, certificate) {
        Ok(()) => keep_text(alloc, program, certificate),
        Err(fault) => Err(fault),
    }
}

/// Looks whether the sums and the turns of a certificate keep within M9.
fn keep_sums(alloc: Global, program: &Program<'_>, certificate: &Cert) -> Result<(), FinderFault>
    requires { IsWholeProgram (plain_program program.now) }
    ensures sums { IfOk result (λ _. PassesSum (plain_program program.now) (claims_of certificate.now) → ⊥) }
    ensures fault { IfErr result (IsPassed (plain_program program.now) (claims_of certificate.now)) }
{
    match sums(alloc, program, certificate) {
        Ok(_) => {
            if has_long_loop(certificate.funcs.as_slice()) {
                Err(FinderFault::Over(Limit::SUM))
            } else {
                Ok(())
            }
        }
        Err(SumFault::Over(limit)) => Err(FinderFault::Over(limit)),
        Err(SumFault::Memory) => Err(FinderFault::Memory),
    }
}

/// Whether a loop of some functions has more turns than are allowed.
fn has_long_loop(funcs: &[FuncClaim]) -> bool
    ensures { result ≡ long_among (map func_of funcs.now) }
{
    for func in funcs {
        if has_long(func.loops.as_slice()) {
            return true;
        }
    }
    false
}

/// Whether a loop has more turns than are allowed.
fn has_long(loops: &[LoopClaim]) -> bool
    ensures { result ≡ long_in (map loop_of loops.now) }
{
    for claim in loops {
        if claim.turns > Limit::MOST_SUM {
            return true;
        }
    }
    false
}

/// Looks whether the text of a certificate, whose sums and turns keep within M9, keeps within M10.
fn keep_text(alloc: Global, program: &Program<'_>, certificate: &Cert) -> Result<(), FinderFault>
    requires { PassesSum (plain_program program.now) (claims_of certificate.now) → ⊥ }
    ensures text { IfOk result (λ _. PassesText (claims_of certificate.now) → ⊥) }
    ensures fault { IfErr result (IsPassed (plain_program program.now) (claims_of certificate.now)) }
{
    match text_length(alloc, certificate) {
        Ok(bytes) => {
            if bytes as u64 > Limit::MOST_CERTIFICATE_BYTES {
                Err(FinderFault::Over(Limit::CERTIFICATE_BYTES))
            } else {
                Ok(())
            }
        }
        Err(_) => Err(FinderFault::Memory),
    }
}
