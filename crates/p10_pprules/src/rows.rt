//! Rows on definitions.

ghost use Rattle.std.specs.Prelude.{◌≡◌, ◌<◌, ◌^◌, ◌++◌, length, map, OnOk};
ghost use Rattle.std.specs.List.{flat_map};
ghost use Rattle.p10_direct.specs.Form.{plain_definition};
ghost use Rattle.p10_pprules.specs.Lines.{pastes};
ghost use Rattle.p10_pprules.specs.private.Listing.{definition_violations};

use crate::dereference::dereferences;
use crate::listing::push_if;
use crate::recursion::is_recursive;
use crate::unit::is_complete;
use p10_base::{NameList, Sub, Violation};
use p10_direct::{Definition, has_pasting, is_variadic};
use std::alloc::{AllocError, Global};

/// Puts the violations of definitions after the others. The numbers are those of the components of the
/// macros with these names.
pub fn push_definitions(
    alloc: Global,
    names: &NameList<'_>,
    numbers: &[u32],
    definitions: &[Definition<'_, '_>],
    violations: &mut Vec<Violation>,
) -> Result<(), AllocError>
    requires few { length names.now < 2 ^ 32 }
    requires numbers { length numbers.now ≡ length names.now }
    ensures { OnOk result (violations.new.items ≡ violations.old.items ++ flat_map (definition_violations names.now numbers.now) (map plain_definition definitions.now)) }
{
    for definition in definitions {
        push_definition(alloc, names, numbers, definition, violations)?;
    }
    Ok(())
}

/// Puts the violations of a definition after the others.
fn push_definition(
    alloc: Global,
    names: &NameList<'_>,
    numbers: &[u32],
    definition: &Definition<'_, '_>,
    violations: &mut Vec<Violation>,
) -> Result<(), AllocError>
    requires few { length names.now < 2 ^ 32 }
    requires numbers { length numbers.now ≡ length names.now }
    ensures { OnOk result (violations.new.items ≡ violations.old.items ++ definition_violations names.now numbers.now (plain_definition definition.now)) }
{
    let at = definition.name.at;
    let recursive = is_recursive(alloc, names, numbers, definition)?;
    let complete = is_complete(alloc, definition.body)?;
    push_if(
        Sub { rule: 8, sub: 2 },
        is_pasting(definition),
        at,
        violations,
    )?;
    push_if(Sub { rule: 8, sub: 3 }, recursive, at, violations)?;
    push_if(Sub { rule: 8, sub: 4 }, !complete, at, violations)?;
    push_if(
        Sub { rule: 9, sub: 2 },
        dereferences(definition.body),
        at,
        violations,
    )
}

/// Whether the definition has `#`, `##` or `...`.
fn is_pasting(definition: &Definition<'_, '_>) -> bool
    ensures { result ≡ pastes (plain_definition definition.now) }
{
    is_variadic(definition) || has_pasting(definition.body)
}
