//! The parts of declarations and functions outside of functions.

ghost use Rattle.std.specs.Prelude.{◌≡◌, ◌++◌, IfOk, map};
ghost use Rattle.p10_syn.specs.BuiltStatements.{definition_of, external_of};
ghost use Rattle.p10_synrules.specs.Parts.{definition_parts, external_parts, unit_parts};
ghost use Rattle.p10_synrules.specs.private.Views.{plain_parts};

use crate::declaration::put_declaration;
use crate::declarator::put_declared;
use crate::part::Part;
use crate::specifier::{make_types, put_specifiers};
use crate::statement::put_statements;
use p10_syn::{Function, Unit};
use std::alloc::{AllocError, Global};

/// The parts of all declarations and functions, in their order.
pub(crate) fn parts_of_units<'t, 's>(
    alloc: Global,
    units: &'t [Unit<'s>],
) -> Result<Vec<Part<'t, 's>>, AllocError>
    ensures { IfOk result (λ parts. plain_parts parts ≡ unit_parts (map external_of units.now)) }
{
    let mut parts = Vec::new(alloc);
    for unit in units {
        put_unit(unit, &mut parts)?;
    }
    Ok(parts)
}

/// Puts down the parts of a declaration or function.
fn put_unit<'t, 's>(unit: &'t Unit<'s>, into: &mut Vec<Part<'t, 's>>) -> Result<(), AllocError>
    ensures { IfOk result (λ done. plain_parts into.new ≡ plain_parts into.old ++ external_parts (external_of unit.now)) }
{
    match unit {
        Unit::Decl(_, declaration) => put_declaration(declaration, into),
        Unit::Function(function) => put_function(function, into),
    }
}

/// Puts down the parts of a function.
fn put_function<'t, 's>(
    function: &'t Function<'s>,
    into: &mut Vec<Part<'t, 's>>,
) -> Result<(), AllocError>
    ensures { IfOk result (λ done. plain_parts into.new ≡ plain_parts into.old ++ definition_parts (definition_of function.now)) }
{
    put_specifiers(&function.specs, false, into)?;
    let typedef = make_types(&function.specs);
    put_declared(&function.declarator, typedef, false, into)?;
    put_statements(&function.body, into)?;
    Ok(())
}
