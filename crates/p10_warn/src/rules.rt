//! The rows of rule 10.

ghost use Rattle.std.specs.Prelude.{◌≡◌, ◌↔◌, ◌++◌, IfOk, map};
ghost use Rattle.std.specs.List.{Contains, filter_map};
ghost use Rattle.std.specs.List.Sorted.{IsStrictlySortedBy};
ghost use Rattle.p10_base.specs.Order.{violation_cmp};
ghost use Rattle.p10_core.specs.Views.{plain_function, plain_object, plain_program};
ghost use Rattle.p10_core.specs.Nodes.{PlainNode};
ghost use Rattle.p10_warn.specs.AllNodes.{nodes_in_bodies, nodes_in_initializers};
ghost use Rattle.p10_warn.specs.Violations.{Violates};
ghost use Rattle.p10_warn.specs.private.Listing.{program_violations};
ghost use Rattle.p10_warn.specs.private.Numbers.{number_named};

use crate::file_scope::FileScope;
use crate::functions::push_by_functions;
use crate::nodes::push_by_nodes;
use crate::number_set::NumberSet;
use crate::numbers::{Named, numbers_named};
use crate::program_nodes::nodes_of_program;
use crate::unused::push_unused_objects;
use p10_base::Violation;
use p10_core::{Func, Global as StaticObject, Program};
use std::alloc::{AllocError, Global};

/// The violations of rule 10 by a typed program, in the order of violations, each once. It fails only where memory runs out.
pub fn warnings(alloc: Global, program: &Program<'_>) -> Result<Vec<Violation>, AllocError>
    ensures sorted { IfOk result (λ found. IsStrictlySortedBy violation_cmp found.items) }
    ensures exact { IfOk result (λ found. (v : Violation) → Contains found.items v ↔ Violates (plain_program program.now) v.sub v.span) }
{
    let mut violations = violations_of(alloc, program)?;
    violations.sort()?;
    violations.dedup();
    Ok(violations)
}

/// The violations by a program, in any order, and perhaps more than once.
fn violations_of(alloc: Global, program: &Program<'_>) -> Result<Vec<Violation>, AllocError>
    ensures { IfOk result (λ found. found.items ≡ program_violations (plain_program program.now)) }
{
    let functions = program.functions.as_slice();
    let objects = program.globals.as_slice();
    let mut violations = Vec::new(alloc);
    let mut nodes = nodes_of_program(alloc, functions, objects)?;
    push_by_nodes(&mut nodes, &mut violations)?;
    let named = numbers_in(alloc, Named::Object, functions, objects)?;
    push_unused_objects(objects, &named, &mut violations)?;
    let called = numbers_in(alloc, Named::Function, functions, objects)?;
    let file = FileScope::of(alloc, objects, program.outside.as_slice())?;
    push_by_functions(
        alloc,
        functions,
        &file,
        program.main,
        &called,
        &mut violations,
    )?;
    Ok(violations)
}

/// The numbers of this kind that are named in functions and initialisers of objects.
fn numbers_in(
    alloc: Global,
    kind: Named,
    functions: &[Func<'_>],
    objects: &[StaticObject<'_>],
) -> Result<NumberSet, AllocError>
    ensures { IfOk result (λ set. set.list.items ≡ filter_map (number_named kind) (nodes_in_bodies (map plain_function functions.now) ++ nodes_in_initializers (map plain_object objects.now))) }
{
    let mut nodes = nodes_of_program(alloc, functions, objects)?;
    numbers_named(alloc, kind, &mut nodes)
}
