//! The declarations and definitions of all roots taken together: what they name with external linkage is one function or object (C99
//! 6.2.2p2).

ghost use Rattle.std.specs.Prelude.{◌≡◌, [], true, false, map, IfOk};
ghost use Rattle.p10_elabx.specs.First.{only_first};
ghost use Rattle.p10_elabd.specs.Views.{plain_standing};
ghost use Rattle.p10_heads.specs.HeadViews.{plain_head};
ghost use Rattle.p10_linkage.specs.LinkedViews.{linked_of_name};
ghost use Rattle.p10_linkage.specs.Between.{all_agreeing, definitions_noted, taken_together};

use crate::between::{agree_in_turn, note_definitions, unite_in_turn};
use crate::linked::LinkedName;
use crate::stands::Stands;
use p10_elabd::Standing;
use p10_heads::Head;
use std::alloc::{AllocError, Global};

/// Takes the roots together: notes where a declaration doesn't agree with those of roots before it, and which names with external
/// linkage are defined in two roots; structures of roots become one that have to be. Out of memory nothing is said of what stands then.
pub fn taken_together<'s>(
    alloc: Global,
    functions: &[Head<'s>],
    objects: &[Head<'s>],
    linked: &[LinkedName<'s>],
    standing: &mut Standing<'s>,
) -> Result<(), AllocError>
    ensures { IfOk result (λ _. plain_standing standing.new ≡ taken_together only_first (record { functions = map plain_head functions.now; objects = map plain_head objects.now }) (map linked_of_name linked.now) (plain_standing standing.old)) }
{
    agree_all(alloc, linked, standing)?;
    note_all(alloc, functions, standing)?;
    note_all(alloc, objects, standing)?;
    Ok(())
}

/// Notes where declarations don't agree with those of roots before them, and makes structures one that have to be. Mostly all can be one
/// with those before them; only else is each compared with them.
fn agree_all<'s>(
    alloc: Global,
    linked: &[LinkedName<'s>],
    standing: &mut Standing<'s>,
) -> Result<(), AllocError>
    ensures { IfOk result (λ _. plain_standing standing.new ≡ all_agreeing only_first [] (map linked_of_name linked.now) (plain_standing standing.old)) }
{
    let united = unite_all(alloc, linked, standing)?;
    if united {
        return Ok(());
    }
    agree_each(alloc, linked, standing)
}

/// Makes declarations one with those of roots before them, if all can be.
fn unite_all<'s>(
    alloc: Global,
    linked: &[LinkedName<'s>],
    standing: &mut Standing<'s>,
) -> Result<bool, AllocError>
    ensures united { IfOk result (λ all. all ≡ true → plain_standing standing.new ≡ all_agreeing only_first [] (map linked_of_name linked.now) (plain_standing standing.old)) }
    ensures kept { IfOk result (λ all. all ≡ false → standing.new ≡ standing.old) }
{
    let numbers = standing.scope.types.representatives(alloc)?;
    let mut stands = Stands::of(alloc, numbers)?;
    let united = unite_in_turn(alloc, &standing.scope.types, &mut stands, linked)?;
    if !united {
        return Ok(false);
    }
    standing.scope.types.represent(stands.numbers.as_slice());
    Ok(true)
}

/// Notes where declarations don't agree with those of roots before them, each compared with these.
fn agree_each<'s>(
    alloc: Global,
    linked: &[LinkedName<'s>],
    standing: &mut Standing<'s>,
) -> Result<(), AllocError>
    ensures { IfOk result (λ _. plain_standing standing.new ≡ all_agreeing only_first [] (map linked_of_name linked.now) (plain_standing standing.old)) }
{
    let numbers = standing.scope.types.representatives(alloc)?;
    let mut stands = Stands::of(alloc, numbers)?;
    let problem = agree_in_turn(
        alloc,
        &standing.scope.types,
        &mut stands,
        linked,
        standing.problem,
    )?;
    standing.scope.types.represent(stands.numbers.as_slice());
    standing.problem = problem;
    Ok(())
}

/// Notes which names with external linkage are defined in two roots.
fn note_all<'s>(
    alloc: Global,
    heads: &[Head<'s>],
    standing: &mut Standing<'s>,
) -> Result<(), AllocError>
    ensures { IfOk result (λ _. plain_standing standing.new ≡ definitions_noted only_first [] (map plain_head heads.now) (plain_standing standing.old)) }
{
    standing.problem = note_definitions(alloc, heads, standing.problem)?;
    Ok(())
}
