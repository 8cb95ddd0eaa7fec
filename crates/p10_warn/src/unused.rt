//! Objects and variables that are never named.

ghost use Rattle.std.specs.Prelude.{◌≡◌, ◌++◌, IfOk, map};
ghost use Rattle.std.specs.List.{filter_map};
ghost use Rattle.p10_core.specs.Nodes.{nodes_of_statements};
ghost use Rattle.p10_core.specs.Views.{plain_object, plain_variable, plain_statements};
ghost use Rattle.p10_warn.specs.Naming.{named_variable};
ghost use Rattle.p10_warn.specs.private.Listing.{unused_objects, unused_variables};

use crate::listing::push_if;
use crate::number_set::NumberSet;
use crate::numbers::{Named, numbers_named};
use p10_base::Violation;
use p10_core::{Func, Global as StaticObject, Nodes, Variable};
use std::alloc::{AllocError, Global};

/// Puts the violations by objects that aren't named after the others.
pub(crate) fn push_unused_objects(
    objects: &[StaticObject<'_>],
    named: &NumberSet,
    violations: &mut Vec<Violation>,
) -> Result<(), AllocError>
    ensures { IfOk result (λ _. violations.new.items ≡ violations.old.items ++ unused_objects named.now.list.items 0 (map plain_object objects.now)) }
{
    for (number, object) in objects.iter().enumerate() {
        push_if(1, !named.has(number), object.span, violations)?;
    }
    Ok(())
}

/// Puts the violations by variables that a function doesn't name after the others.
pub(crate) fn push_unused_in(
    alloc: Global,
    function: &Func<'_>,
    violations: &mut Vec<Violation>,
) -> Result<(), AllocError>
    ensures { IfOk result (λ _. violations.new.items ≡ violations.old.items ++ unused_variables (filter_map named_variable (nodes_of_statements (plain_statements function.now.body))) 0 (map plain_variable function.now.vars)) }
{
    let mut nodes = Nodes::of_statements(alloc, function.body.as_slice())?;
    let named = numbers_named(alloc, Named::Variable, &mut nodes)?;
    push_unused_variables(function.vars.as_slice(), &named, violations)
}

/// Puts the violations by variables that aren't named after the others.
fn push_unused_variables(
    variables: &[Variable<'_>],
    named: &NumberSet,
    violations: &mut Vec<Violation>,
) -> Result<(), AllocError>
    ensures { IfOk result (λ _. violations.new.items ≡ violations.old.items ++ unused_variables named.now.list.items 0 (map plain_variable variables.now)) }
{
    for (number, variable) in variables.iter().enumerate() {
        push_if(1, !named.has(number), variable.span, violations)?;
    }
    Ok(())
}
