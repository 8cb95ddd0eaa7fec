//! The rules on directives.

ghost use Rattle.std.specs.Prelude.{◌↔◌, map, IfOk};
ghost use Rattle.p10_expand.specs.Answers.{plain_obeyed};
ghost use Rattle.std.specs.List.{Contains};
ghost use Rattle.std.specs.List.Sorted.{IsStrictlySortedBy};
ghost use Rattle.p10_base.specs.Order.{violation_cmp};
ghost use Rattle.p10_pprules.specs.Violations.{Violates};

use crate::definitions::definitions_of;
use crate::line::push_lines;
use crate::recursion::{component_numbers, macros_of};
use crate::rows::push_definitions;
use p10_base::Violation;
use p10_expand::{Expanded, Obeyed};
use std::alloc::{AllocError, Global};

/// The violations of rule 8 and row 9.2 by the directives that were obeyed, in the order of violations,
/// each once. It fails only where memory runs out.
pub fn pp_rules(alloc: Global, expanded: &Expanded<'_>) -> Result<Vec<Violation>, AllocError>
    ensures sorted { IfOk result (λ found. IsStrictlySortedBy violation_cmp found.items) }
    ensures exact { IfOk result (λ found. (v : Violation) → Contains found.items v ↔ Violates (map plain_obeyed expanded.now.obeyed) v.sub v.span) }
{
    let mut violations = violations_of(alloc, expanded.obeyed.as_slice())?;
    violations.sort()?;
    violations.dedup();
    Ok(violations)
}

/// The violations by obeyed directives, in any order, and perhaps more than once.
fn violations_of(alloc: Global, obeyed: &[Obeyed<'_>]) -> Result<Vec<Violation>, AllocError>
    ensures { IfOk result (λ found. (v : Violation) → Contains found.items v ↔ Violates (map plain_obeyed obeyed.now) v.sub v.span) }
{
    let mut violations = Vec::new(alloc);
    push_lines(obeyed, &mut violations)?;
    let gathered = definitions_of(alloc, obeyed)?;
    let definitions = gathered.as_slice();
    let names = macros_of(alloc, definitions)?;
    let numbers = component_numbers(alloc, &names, definitions)?;
    push_definitions(
        alloc,
        &names,
        numbers.as_slice(),
        definitions,
        &mut violations,
    )?;
    Ok(violations)
}
