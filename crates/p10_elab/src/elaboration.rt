//! What the trees of all roots come to.

ghost use Rattle.std.specs.Prelude.{◌≡◌, IfOk, Ok, map};
ghost use Rattle.p10_syn.specs.BuiltStatements.{external_of};
ghost use Rattle.p10_core.specs.Views.{plain_program};
ghost use Rattle.p10_core.specs.WholePrograms.{IsWholeProgram};
ghost use Rattle.p10_heads.specs.PlainHeads.{plain_heads};
ghost use Rattle.p10_heads.specs.Roots.{roots_of};
ghost use Rattle.p10_elab.specs.Answers.{IsElaborated};
ghost use Rattle.p10_elab.specs.KnownViews.{plain_known};
ghost use Rattle.p10_elab.specs.Programs.{Elaborated, elaborated};
ghost use Rattle.p10_elab.specs.private.Together.{known_together};

use crate::fault::ElabFault;
use crate::known::{Known, nothing_known};
use crate::root_walk::roots_passed;
use crate::settling::{Ground, settle};
use p10_core::Program;
use p10_heads::{Heads, heads_of_units};
use p10_linkage::taken_together;
use p10_syn::Unit;
use p10_whole::is_whole;
use std::alloc::{AllocError, Global};

/// The typed program of the declarations and functions of all roots, which follow one another (C99 6.9).
///
/// # Errors
///
/// The first row of the subset that holds in them: of S1 to S26, S29 and S30 the one whose tree begins first, of these the one with
/// the least number, and of these the one of the smallest tree; then S27; then S28. Else M8, where something is too large. A program
/// that isn't whole is answered as out of memory; there is none, which isn't proved.
pub fn elab<'s>(alloc: Global, units: &[Unit<'s>]) -> Result<Program<'s>, ElabFault>
    ensures elaborated { IsElaborated (elaborated (map external_of units.now)) result }
    ensures whole { IfOk result (λ p. IsWholeProgram (plain_program p)) }
{
    let heads = heads_of_units(alloc, units)?;
    let known = known_of_units(alloc, &heads, units)?;
    let ground = Ground { alloc, units };
    whole_alone(alloc, settle(ground, heads.objects().len(), known))
}

/// What is known of all roots, taken together.
fn known_of_units<'s>(
    alloc: Global,
    heads: &Heads<'s>,
    units: &[Unit<'s>],
) -> Result<Known<'s>, AllocError>
    ensures { IfOk result (λ k. plain_known k ≡ known_together (plain_heads heads.now) (roots_of (map external_of units.now))) }
{
    let mut known = nothing_known(alloc);
    roots_passed(alloc, heads, &mut known, units)?;
    let all = &mut known;
    taken_together(
        alloc,
        heads.functions(),
        heads.objects(),
        all.linked.rows(),
        &mut all.standing,
    )?;
    Ok(known)
}

/// What roots come to, unless it is a program that isn't whole.
fn whole_alone<'s>(
    alloc: Global,
    settled: Result<Program<'s>, ElabFault>,
) -> Result<Program<'s>, ElabFault>
    ensures same { (e : Elaborated) → IsElaborated e settled.entry → IsElaborated e result }
    ensures whole { IfOk result (λ p. IsWholeProgram (plain_program p)) }
{
    match settled {
        Ok(program) => whole_program(alloc, program),
        Err(fault) => Err(fault),
    }
}

/// A program, if it is whole.
fn whole_program<'s>(alloc: Global, program: Program<'s>) -> Result<Program<'s>, ElabFault>
    ensures same { (e : Elaborated) → IsElaborated e (Ok program.entry) → IsElaborated e result }
    ensures whole { IfOk result (λ p. IsWholeProgram (plain_program p)) }
{
    let whole = is_whole(alloc, &program)?;
    if whole {
        Ok(program)
    } else {
        Err(ElabFault::Memory)
    }
}
