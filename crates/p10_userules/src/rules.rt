//! The rules on uses.

ghost use Rattle.std.specs.Prelude.{◌≡◌, ◌≤◌, ◌↔◌, ◌++◌, All, IfOk, length, map, take};
ghost use Rattle.std.specs.List.{Contains, flat_map};
ghost use Rattle.std.specs.List.Sorted.{IsStrictlySortedBy};
ghost use Rattle.p10_base.specs.Order.{violation_cmp};
ghost use Rattle.p10_core.specs.Views.{plain_program, plain_function, plain_object, plain_variable};
ghost use Rattle.p10_userules.specs.Violations.{Violates};
ghost use Rattle.p10_userules.specs.private.Spreads.{HasRising};
ghost use Rattle.p10_userules.specs.private.Laid.{AreFunctions};
ghost use Rattle.p10_userules.specs.private.Listing.{listed_in_function, listed_in_functions};

use crate::functions::{put_all_outside, walk_functions};
use crate::listing::{put_parameters, put_results};
use crate::occurrences::Occurrence;
use crate::parts::{BlockParts, Stretch};
use crate::spreads::{Kind, Spread, spreads_of};
use crate::walking::Walk;
use crate::wide::{FunctionUses, put_blocks, put_objects};
use p10_base::{ListBuf, Violation};
use p10_core::{Func, Global as StaticObject, Program, Variable};
use std::alloc::{AllocError, Global};

/// The violations of rules 6 and 7 by a program, in the order of violations, each once. It fails only where memory runs out.
///
/// Nothing of a built-in header is reported: these define types and macros, and no object and no function.
pub fn use_rules(alloc: Global, program: &Program<'_>) -> Result<Vec<Violation>, AllocError>
    ensures sorted { IfOk result (λ found. IsStrictlySortedBy violation_cmp found.items) }
    ensures exact { IfOk result (λ found. (v : Violation) → Contains found.items v ↔ Violates (plain_program program.now) v.sub v.span) }
{
    let mut violations = violations_of(alloc, program)?;
    violations.sort()?;
    violations.dedup();
    Ok(violations)
}

/// The violations by a program, in any order, and perhaps more than once.
fn violations_of(alloc: Global, program: &Program<'_>) -> Result<Vec<Violation>, AllocError>
    ensures { IfOk result (λ found. (v : Violation) → Contains found.items v ↔ Violates (plain_program program.now) v.sub v.span) }
{
    let objects = program.globals.as_slice();
    let functions = program.functions.as_slice();
    let mut walk = Walk {
        occurrences: Vec::new(alloc),
        blocks: Vec::new(alloc),
    };
    let parts = walk_functions(alloc, objects, functions, &mut walk)?;
    put_all_outside(objects, &mut walk.occurrences)?;
    let all = walk.occurrences.as_slice();
    let spreads = spreads_of(alloc, objects.len(), Kind::Objects, 0, all)?;
    let mut found = Vec::new(alloc);
    put_objects(
        objects,
        spreads.as_slice(),
        parts.stretches.as_slice(),
        &mut found,
    )?;
    let uses = Uses {
        alloc,
        objects,
        spreads: spreads.as_slice(),
        all,
    };
    put_functions(
        &uses,
        functions,
        parts.stretches.as_slice(),
        parts.blocks.as_slice(),
        &mut found,
    )?;
    Ok(found)
}

/// The occurrences in a program, and where those of its objects lie.
#[derive(Clone, Copy)]
struct Uses<'a, 's> {
    alloc: Global,
    objects: &'a [StaticObject<'s>],
    spreads: &'a [Option<Spread>],
    all: &'a [Occurrence],
}

/// The parameters of a function.
fn parameters_of<'a, 's>(f: &'a Func<'s>) -> &'a [Variable<'s>]
    ensures { map plain_variable result.now ≡ take (plain_function f.now).parameters (plain_function f.now).variables }
{
    let all = f.vars.as_slice();
    let count = f.params as usize;
    if count < all.len() {
        &all[..count]
    } else {
        all
    }
}

/// Puts the violations in a function and by its parameters after the others.
fn put_function(
    uses: &Uses<'_, '_>,
    f: &Func<'_>,
    stretch: Stretch,
    blocks: &[BlockParts],
    found: &mut Vec<Violation>,
) -> Result<(), AllocError>
    requires ordered { stretch.start ≤ stretch.end }
    requires inside { stretch.end ≤ length uses.now.all.now }
    requires rising { All HasRising blocks.now }
    ensures { IfOk result (λ _. found.new.items ≡ found.old.items ++ listed_in_function (map plain_object uses.now.objects.now) uses.now.spreads.now uses.now.all.now (plain_function f.now) stretch blocks.now) }
{
    let part = &uses.all[stretch.start..stretch.end];
    let variables = spreads_of(
        uses.alloc,
        f.vars.as_slice().len(),
        Kind::Variables,
        stretch.start,
        part,
    )?;
    let known = FunctionUses {
        function: f,
        variables: variables.as_slice(),
        objects: uses.objects,
        object_spreads: uses.spreads,
    };
    put_blocks(&known, blocks, found)?;
    put_results(uses.alloc, f, found)?;
    put_parameters(parameters_of(f), variables.as_slice(), found)
}

/// Puts the violations in functions and by their parameters after the others, each with its stretch and its blocks.
fn put_functions(
    uses: &Uses<'_, '_>,
    functions: &[Func<'_>],
    stretches: &[Stretch],
    blocks: &[ListBuf<BlockParts>],
    found: &mut Vec<Violation>,
) -> Result<(), AllocError>
    requires are { AreFunctions (map plain_object uses.now.objects.now) uses.now.all.now (map plain_function functions.now) stretches.now blocks.now }
    requires stretches { length stretches.now ≡ length functions.now }
    requires blocks { length blocks.now ≡ length functions.now }
    ensures { IfOk result (λ _. found.new.items ≡ found.old.items ++ listed_in_functions (map plain_object uses.now.objects.now) uses.now.spreads.now uses.now.all.now (map plain_function functions.now) stretches.now blocks.now) }
{
    let mut place = 0;
    while place < functions.len() {
        put_function(
            uses,
            &functions[place],
            stretches[place],
            blocks[place].as_slice(),
            found,
        )?;
        place += 1;
    }
    Ok(())
}
