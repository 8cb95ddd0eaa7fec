//! The rows on calls and the task loop.

ghost use Rattle.std.specs.Prelude.{◌≡◌, ◌↔◌, ◌++◌, IfOk, OnOk, map};
ghost use Rattle.std.specs.List.{Contains};
ghost use Rattle.std.specs.List.Sorted.{IsStrictlySortedBy};
ghost use Rattle.p10_base.specs.Order.{violation_cmp};
ghost use Rattle.p10_core.specs.Views.{plain_program};
ghost use Rattle.p10_flowrules.specs.FlowRows.{ViolatesFlow, allocation_row, recursion_row, task_row};
ghost use Rattle.p10_flowrules.specs.private.FlowListing.{violation_at};

use crate::calls::AnyCall;
use crate::exits::task_exits;
use crate::late::late_allocations;
use p10_base::{At, Sub, Violation};
use p10_calls::{CallSite, recursive_calls};
use p10_core::Program;
use std::alloc::{AllocError, Global};

/// The violations of rows 1.3, 2.2 and 3.1 by a program, in the order of violations, each once. It fails only where memory runs out.
pub fn flow_rules(alloc: Global, program: &Program<'_>) -> Result<Vec<Violation>, AllocError>
    ensures sorted { IfOk result (λ found. IsStrictlySortedBy violation_cmp found.items) }
    ensures exact { IfOk result (λ found. (v : Violation) → Contains found.items v ↔ ViolatesFlow (plain_program program.now) v.sub v.span) }
{
    let mut violations = violations_of(alloc, program)?;
    violations.sort()?;
    violations.dedup();
    Ok(violations)
}

/// The violations, in any order, and perhaps more than once.
fn violations_of(alloc: Global, program: &Program<'_>) -> Result<Vec<Violation>, AllocError>
    ensures { IfOk result (λ found. (v : Violation) → Contains found.items v ↔ ViolatesFlow (plain_program program.now) v.sub v.span) }
{
    let recursive = recursive_calls(alloc, program)?;
    let exits = task_exits(alloc, program)?;
    let late = late_allocations(alloc, program)?;
    let mut violations = Vec::new(alloc);
    push_recursive(recursive.as_slice(), &mut violations)?;
    push_exits(exits.as_slice(), &mut violations)?;
    push_late(late.as_slice(), &mut violations)?;
    Ok(violations)
}

/// Puts violations of row 1.3 after the others.
fn push_recursive(calls: &[CallSite], violations: &mut Vec<Violation>) -> Result<(), AllocError>
    ensures { OnOk result (violations.new.items ≡ violations.old.items ++ map (λ s. violation_at recursion_row s.call.name) calls.now) }
{
    for site in calls {
        let sub = Sub { rule: 1, sub: 3 };
        violations.push(Violation {
            sub,
            span: site.call.name,
        })?;
    }
    Ok(())
}

/// Puts violations of row 2.2 after the others.
fn push_exits(exits: &[At], violations: &mut Vec<Violation>) -> Result<(), AllocError>
    ensures { OnOk result (violations.new.items ≡ violations.old.items ++ map (λ at. violation_at task_row at.span) exits.now) }
{
    for at in exits {
        let sub = Sub { rule: 2, sub: 2 };
        violations.push(Violation { sub, span: at.span })?;
    }
    Ok(())
}

/// Puts violations of row 3.1 after the others.
fn push_late(calls: &[AnyCall], violations: &mut Vec<Violation>) -> Result<(), AllocError>
    ensures { OnOk result (violations.new.items ≡ violations.old.items ++ map (λ c. violation_at allocation_row c.at.span) calls.now) }
{
    for call in calls {
        let sub = Sub { rule: 3, sub: 1 };
        violations.push(Violation {
            sub,
            span: call.at.span,
        })?;
    }
    Ok(())
}
