//! The parts of declarations.

ghost use Rattle.std.specs.Prelude.{◌≡◌, ◌++◌, IfOk, map};
ghost use Rattle.std.specs.List.{flat_map};
ghost use Rattle.p10_syn.specs.Trees.{initializer_row};
ghost use Rattle.p10_syn.specs.BuiltStatements.{initializer_of, initial_of, init_declarator_of, declaration_of};
ghost use Rattle.p10_synrules.specs.Parts.{initializer_parts, initializers_parts, initial_parts, init_declarator_parts, declaration_parts};
ghost use Rattle.p10_synrules.specs.private.Views.{plain_parts};

use crate::declarator::put_declared;
use crate::expression::put_expression;
use crate::part::Part;
use crate::specifier::{make_types, put_specifiers};
use p10_syn::{Decl, Init, InitDeclarator};
use std::alloc::AllocError;

/// Puts down the parts of an initialiser.
#[cycle(initializing)]
fn put_initializer<'t, 's>(
    init: &'t Init<'s>,
    into: &mut Vec<Part<'t, 's>>,
) -> Result<(), AllocError>
    ensures { IfOk result (λ done. plain_parts into.new ≡ plain_parts into.old ++ initializer_parts (initializer_of init.now)) }
{
    match init {
        Init::Value(e) => put_expression(e, false, into),
        Init::Braced(_, items, _) => {
            put_initializers(items, into)?;
            Ok(())
        }
    }
}

/// Puts down the parts of the initialisers between braces.
#[cycle(initializing)]
fn put_initializers<'t, 's>(
    items: &'t [Init<'s>],
    into: &mut Vec<Part<'t, 's>>,
) -> Result<(), AllocError>
    ensures { IfOk result (λ done. plain_parts into.new ≡ plain_parts into.old ++ initializers_parts (initializer_row (map initializer_of items.now))) }
{
    for item in items {
        put_initializer(item, into)?;
    }
    Ok(())
}

/// Puts down the parts of an initialiser that may be left out.
fn put_initial<'t, 's>(
    init: &'t Option<Init<'s>>,
    into: &mut Vec<Part<'t, 's>>,
) -> Result<(), AllocError>
    ensures { IfOk result (λ done. plain_parts into.new ≡ plain_parts into.old ++ initial_parts (initial_of init.now)) }
{
    match init {
        None => Ok(()),
        Some(init) => put_initializer(init, into),
    }
}

/// Puts down the parts of a declarator of a declaration, and of its initialiser.
fn put_init_declarator<'t, 's>(
    declared: &'t InitDeclarator<'s>,
    typedef: bool,
    into: &mut Vec<Part<'t, 's>>,
) -> Result<(), AllocError>
    ensures { IfOk result (λ done. plain_parts into.new ≡ plain_parts into.old ++ init_declarator_parts typedef (init_declarator_of declared.now)) }
{
    put_declared(&declared.declarator, typedef, false, into)?;
    put_initial(&declared.init, into)?;
    Ok(())
}

/// Puts down the parts of what a declaration declares.
fn put_init_declarators<'t, 's>(
    all: &'t [InitDeclarator<'s>],
    typedef: bool,
    into: &mut Vec<Part<'t, 's>>,
) -> Result<(), AllocError>
    ensures { IfOk result (λ done. plain_parts into.new ≡ plain_parts into.old ++ flat_map (init_declarator_parts typedef) (map init_declarator_of all.now)) }
{
    for declared in all {
        put_init_declarator(declared, typedef, into)?;
    }
    Ok(())
}

/// Puts down the parts of a declaration.
pub(crate) fn put_declaration<'t, 's>(
    declaration: &'t Decl<'s>,
    into: &mut Vec<Part<'t, 's>>,
) -> Result<(), AllocError>
    ensures { IfOk result (λ done. plain_parts into.new ≡ plain_parts into.old ++ declaration_parts (declaration_of declaration.now)) }
{
    put_specifiers(&declaration.specs, false, into)?;
    let typedef = make_types(&declaration.specs);
    put_init_declarators(&declaration.declarators, typedef, into)?;
    Ok(())
}
