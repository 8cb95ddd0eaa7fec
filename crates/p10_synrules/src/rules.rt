//! The rules on trees.

ghost use Rattle.std.specs.Prelude.{◌≡◌, ◌++◌, ◌*◌, ◌↔◌, IfOk, OnOk, map, nat_lt, length, filter};
ghost use Rattle.std.specs.List.{Contains};
ghost use Rattle.std.specs.List.Sorted.{IsStrictlySortedBy};
ghost use Rattle.p10_base.specs.Order.{violation_cmp};
ghost use Rattle.p10_syn.specs.BuiltStatements.{external_of};
ghost use Rattle.p10_synrules.specs.Parts.{unit_parts};
ghost use Rattle.p10_synrules.specs.Violations.{Violates};
ghost use Rattle.p10_synrules.specs.private.Views.{plain_parts};
ghost use Rattle.p10_synrules.specs.private.Listing.{all_violations, assertion_violations, is_own};

use crate::assertion::count_assertions;
use crate::function::{chief_name, names_of_functions, put_functions};
use crate::header::is_header;
use crate::listing::put_at;
use crate::part::Part;
use crate::rows::put_parts;
use crate::unit::parts_of_units;
use p10_base::{Sources, Sub, Violation};
use p10_syn::Unit;
use std::alloc::{AllocError, Global};

/// The violations of rules 1, 4, 5 and 9, as far as trees show, by the declarations and functions of all
/// roots, in the order of violations, each once: rows 1.1, 1.2, 4.1, 4.2, 5.1 to 5.5, 9.1, 9.3 and 9.4.
/// None is in a built-in header. It fails only where memory runs out.
///
/// The spans of the trees are places in `sources`, which are read for lines. A place beyond a file's end
/// stands for that end.
pub fn syn_rules(
    alloc: Global,
    sources: &Sources,
    units: &[Unit<'_>],
) -> Result<Vec<Violation>, AllocError>
    ensures sorted { IfOk result (λ found. IsStrictlySortedBy violation_cmp found.items) }
    ensures exact { IfOk result (λ found. (v : Violation) → Contains found.items v ↔ Violates sources.now (map external_of units.now) v.sub v.span) }
{
    let all = violations_of(alloc, sources, units)?;
    let mut violations = own_violations(alloc, sources, all.as_slice())?;
    violations.sort()?;
    violations.dedup();
    Ok(violations)
}

/// The violations by all roots, in any order, perhaps more than once, and also in built-in headers.
fn violations_of(
    alloc: Global,
    sources: &Sources,
    units: &[Unit<'_>],
) -> Result<Vec<Violation>, AllocError>
    ensures { IfOk result (λ found. found.items ≡ all_violations sources.now (map external_of units.now)) }
{
    let mut violations = Vec::new(alloc);
    let parts = parts_of_units(alloc, units)?;
    put_parts(alloc, sources, &parts, &mut violations)?;
    put_functions(alloc, sources, units, &mut violations)?;
    put_assertions(alloc, units, &parts, &mut violations)?;
    Ok(violations)
}

/// Puts down the violation of 5.1, if there are too few assertions among the parts.
fn put_assertions(
    alloc: Global,
    units: &[Unit<'_>],
    parts: &Vec<Part<'_, '_>>,
    violations: &mut Vec<Violation>,
) -> Result<(), AllocError>
    requires { plain_parts parts.now ≡ unit_parts (map external_of units.now) }
    ensures { OnOk result (violations.new.items ≡ violations.old.items ++ assertion_violations (map external_of units.now)) }
{
    let names = names_of_functions(alloc, units)?;
    let count = count_assertions(alloc, parts)?;
    put_at(
        Sub { rule: 5, sub: 1 },
        are_few(count, names.len()),
        chief_name(names.as_slice()),
        violations,
    )
}

/// Whether there are fewer assertions than twice the functions.
fn are_few(assertions: usize, functions: usize) -> bool
    ensures { result ≡ nat_lt assertions (2 * functions) }
{
    assertions / 2 < functions
}

/// The violations that are in no built-in header.
fn own_violations(
    alloc: Global,
    sources: &Sources,
    all: &[Violation],
) -> Result<Vec<Violation>, AllocError>
    ensures { IfOk result (λ found. found.items ≡ filter (is_own sources.now) all.now) }
{
    let mut own = Vec::new(alloc);
    for violation in all {
        if !is_header(sources, violation.span.file) {
            own.push(*violation)?;
        }
    }
    Ok(own)
}
