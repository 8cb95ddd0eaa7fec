//! The digests of the words of a reading.

ghost use Rattle.std.specs.Prelude.{◌≡◌, map, length, IfOk, IfSome};
ghost use Rattle.p10_syn.specs.BuiltStatements.{external_of};
ghost use Rattle.p10_core.specs.Views.{plain_program};
ghost use Rattle.p10_front.specs.Answers.{reading_of, trees_of};
ghost use Rattle.p10_front.specs.Digests.{plain_digests, reading_digests, trees_in};

use crate::reading::Reading;
use p10_base::Digests;
use p10_core::Program;
use p10_syn::Unit;
use std::alloc::{AllocError, Global};

/// The digests of the words of a reading: of each function, in program order, and of all words outside their bodies.
///
/// # Errors
///
/// Out of memory. A program with another number of functions than its trees is answered so, too; there is none, which isn't proved.
pub fn digests(alloc: Global, reading: &Reading<'_>) -> Result<Digests, AllocError>
    ensures right { IfOk result (λ found. plain_digests found ≡ reading_digests (reading_of reading.now)) }
    ensures each { IfOk result (λ found. IfSome reading.now.program (λ p. length found.funcs ≡ length (plain_program p).functions)) }
{
    let roots = reading.expanded.roots.as_slice();
    let found = p10_digests::digests(alloc, roots, units_of(reading))?;
    match &reading.program {
        Some(program) => one_each(found, program),
        None => Ok(found),
    }
}

/// The declarations and functions of a reading; there are none of words that are refused.
fn units_of<'r, 's>(reading: &'r Reading<'s>) -> &'r [Unit<'s>]
    ensures { map external_of result.now ≡ trees_in (trees_of reading.now.units) }
{
    match &reading.units {
        Some(units) => units.as_slice(),
        None => &[],
    }
}

/// Digests, if there is one for each function of a program.
fn one_each(found: Digests, program: &Program<'_>) -> Result<Digests, AllocError>
    ensures same { IfOk result (λ given. given ≡ found) }
    ensures each { IfOk result (λ given. length given.funcs ≡ length program.now.functions) }
{
    if found.funcs.as_slice().len() == program.functions.as_slice().len() {
        Ok(found)
    } else {
        Err(AllocError)
    }
}
