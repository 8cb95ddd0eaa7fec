//! The trees of the roots are given types.

ghost use Rattle.std.specs.Prelude.{◌≡◌, IfOk, IfErr, IfSome};
ghost use Rattle.p10_core.specs.Views.{plain_program};
ghost use Rattle.p10_core.specs.WholePrograms.{IsWholeProgram};
ghost use Rattle.p10_front.specs.private.Typing.{reading_untyped, IsTyped, IsUntyped};

use crate::fault::FrontFault;
use crate::reading::Reading;
use p10_base::ListBuf;
use p10_elab::{ElabFault, elab};
use p10_expand::Expanded;
use p10_syn::Unit;
use std::alloc::Global;

/// The program of the trees of expanded words, unless they are refused.
///
/// # Errors
/// Something of the program is too large, or out of memory.
pub fn typed<'s>(
    alloc: Global,
    expanded: Expanded<'s>,
    units: ListBuf<Unit<'s>>,
) -> Result<Reading<'s>, FrontFault>
    ensures typed { IfOk result (IsTyped expanded.entry units.entry) }
    ensures fault { IfErr result (IsUntyped expanded.entry units.entry) }
    ensures whole { IfOk result (λ reading. IfSome reading.program (λ p. IsWholeProgram (plain_program p))) }
{
    match elab(alloc, units.as_slice()) {
        Ok(program) => Ok(Reading {
            expanded,
            units: Some(units),
            program: Some(program),
            refusal: None,
        }),
        Err(fault) => without_program(expanded, units, fault),
    }
}

/// What trees are read as that come to no program.
fn without_program<'s>(
    expanded: Expanded<'s>,
    units: ListBuf<Unit<'s>>,
    fault: ElabFault,
) -> Result<Reading<'s>, FrontFault>
    ensures { result ≡ reading_untyped expanded.entry units.entry fault }
{
    match fault {
        ElabFault::Refused(refusal) => Ok(Reading {
            expanded,
            units: Some(units),
            program: None,
            refusal: Some(refusal),
        }),
        ElabFault::Over(limit) => Err(FrontFault::Over(limit)),
        ElabFault::Memory => Err(FrontFault::Memory),
    }
}
