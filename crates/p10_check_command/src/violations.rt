//! All violations in what files were read as.

ghost use Rattle.std.specs.Prelude.{◌↔◌, IfOk};
ghost use Rattle.std.specs.List.{Contains};
ghost use Rattle.p10_base.specs.declared.report.Violation.{Violation};
ghost use Rattle.p10_core.specs.Views.{plain_program};
ghost use Rattle.p10_front.specs.Answers.{reading_of, trees_of, typed_of};
ghost use Rattle.p10_check_command.specs.Reports.{AreViolations, BreaksProgramRow, IsReported};
ghost use Rattle.p10_check_command.specs.private.Telling.{BreaksRowOfSome, BreaksTreeRow};

use p10_base::{ListBuf, Sources, Violation};
use p10_core::Program;
use p10_finder::bound_rules;
use p10_finder::laws::same_loops_lack_bounds;
use p10_front::Reading;
use p10_pprules::pp_rules;
use p10_syn::Unit;
use p10_synrules::syn_rules;
use p10_userules::use_rules;
use p10_warn::warnings;
use std::alloc::{AllocError, Global};

/// The violations that stand, in their order, each once.
///
/// # Errors
///
/// Out of memory.
pub fn violations(
    alloc: Global,
    sources: &Sources,
    reading: &Reading<'_>,
) -> Result<Vec<Violation>, AllocError>
    ensures { IfOk result (λ found. AreViolations sources.now (reading_of reading.now) found.items) }
{
    let mut found = in_reading(alloc, sources, reading)?;
    found.sort()?;
    found.dedup();
    Ok(found)
}

/// The violations that stand, in any order.
fn in_reading(
    alloc: Global,
    sources: &Sources,
    reading: &Reading<'_>,
) -> Result<Vec<Violation>, AllocError>
    ensures { IfOk result (λ found. (v : Violation) → Contains found.items v ↔ IsReported sources.now (reading_of reading.now) v) }
{
    let mut found = pp_rules(alloc, &reading.expanded)?;
    let trees = in_trees(alloc, sources, &reading.units)?;
    found.extend_from_slice(trees.as_slice())?;
    let program = in_program(alloc, &reading.program)?;
    found.extend_from_slice(program.as_slice())?;
    Ok(found)
}

/// The violations of rows on trees, if there are trees.
fn in_trees(
    alloc: Global,
    sources: &Sources,
    units: &Option<ListBuf<Unit<'_>>>,
) -> Result<Vec<Violation>, AllocError>
    ensures { IfOk result (λ found. (v : Violation) → Contains found.items v ↔ BreaksTreeRow sources.now (trees_of units.now) v) }
{
    match units {
        Some(units) => syn_rules(alloc, sources, units.as_slice()),
        None => Ok(Vec::new(alloc)),
    }
}

/// The violations of rows on programs, if there is a program.
fn in_program(alloc: Global, program: &Option<Program<'_>>) -> Result<Vec<Violation>, AllocError>
    ensures { IfOk result (λ found. (v : Violation) → Contains found.items v ↔ BreaksRowOfSome (typed_of program.now) v) }
{
    match program {
        Some(program) => of_program(alloc, program),
        None => Ok(Vec::new(alloc)),
    }
}

/// The violations of rows on programs, in any order.
fn of_program(alloc: Global, program: &Program<'_>) -> Result<Vec<Violation>, AllocError>
    ensures { IfOk result (λ found. (v : Violation) → Contains found.items v ↔ BreaksProgramRow (plain_program program.now) v) }
{
    same_loops_lack_bounds();
    let mut found = bound_rules(alloc, program)?;
    let uses = use_rules(alloc, program)?;
    found.extend_from_slice(uses.as_slice())?;
    let warned = warnings(alloc, program)?;
    found.extend_from_slice(warned.as_slice())?;
    Ok(found)
}
