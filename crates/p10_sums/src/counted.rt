//! What all functions of a program cost.

ghost use Rattle.std.specs.Prelude.{◌≡◌, ◌++◌, [], ◌∷◌, true, map, IfOk, IfErr, OnOk, All};
ghost use Rattle.p10_core.specs.Views.{plain_program};
ghost use Rattle.p10_core.specs.WholePrograms.{AreWholeStructures, IsWholeProgram};
ghost use Rattle.p10_cert.specs.Claims.{func_of, claims_of};
ghost use Rattle.p10_sums.specs.Sums.{sum_at, all_sums, keeps_limit, IsFault};
ghost use Rattle.p10_sums.specs.private.Totals.{IsFaultAt};

use crate::functions::limited_sum;
use crate::sum::{FuncSum, SumFault, Sums};
use p10_base::ListBuf;
use p10_cert::{Cert, FuncClaim};
use p10_core::Program;
use std::alloc::Global;

/// What each function of a program costs, by what a certificate claims of callees and loops.
///
/// # Errors
///
/// M9 where a sum exceeds 10^18, or out of memory.
pub fn sums(alloc: Global, program: &Program<'_>, certificate: &Cert) -> Result<Sums, SumFault>
    requires program { IsWholeProgram (plain_program program.now) }
    ensures sums { IfOk result (λ found. found.funcs ≡ all_sums (plain_program program.now) (claims_of certificate.now).funcs) }
    ensures within { IfOk result (λ found. All (λ s. keeps_limit s ≡ true) found.funcs) }
    ensures fault { IfErr result (IsFault (all_sums (plain_program program.now) (claims_of certificate.now).funcs)) }
{
    let functions = certificate.funcs.as_slice();
    let mut found = Vec::new(alloc);
    for number in 0..program.functions.as_slice().len() {
        push_sum(program, functions, number, &mut found)?;
    }
    Ok(Sums {
        funcs: ListBuf::of(found),
    })
}

/// Puts down what the function with a number costs.
fn push_sum(
    program: &Program<'_>,
    functions: &[FuncClaim],
    number: usize,
    found: &mut Vec<FuncSum>,
) -> Result<(), SumFault>
    requires structures { AreWholeStructures (plain_program program.now).structures }
    ensures sum { OnOk result (found.new.items ≡ found.old.items ++ sum_at (plain_program program.now) (map func_of functions.now) number ∷ []) }
    ensures within { OnOk result (keeps_limit (sum_at (plain_program program.now) (map func_of functions.now) number) ≡ true) }
    ensures fault { IfErr result (IsFaultAt (sum_at (plain_program program.now) (map func_of functions.now) number)) }
{
    match limited_sum(program, functions, number) {
        Ok(sum) => match found.push(sum) {
            Ok(()) => Ok(()),
            Err(_) => Err(SumFault::Memory),
        },
        Err(limit) => Err(SumFault::Over(limit)),
    }
}
