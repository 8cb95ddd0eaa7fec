//! The parts of specifiers, with the bodies of structures and enumerations.

ghost use Rattle.std.specs.Prelude.{◌≡◌, ◌++◌, IfOk, map};
ghost use Rattle.p10_syn.specs.Trees.{specifier_row, member_row, field_row, enumerator_row};
ghost use Rattle.p10_syn.specs.Built.{specifier_of, structure_of, member_of, field_of, enumeration_of, enumerator_of};
ghost use Rattle.p10_syn.specs.Declaring.{makes_types as are_typedef};
ghost use Rattle.p10_synrules.specs.Parts.{specifiers_parts, specifier_parts, members_parts, member_parts, fields_parts, field_parts, enumerators_parts, enumerator_parts};
ghost use Rattle.p10_synrules.specs.private.Views.{plain_parts};

use crate::declarator::put_declared;
use crate::expression::put_boxed;
use crate::part::{Part, put_name, put_tag};
use p10_syn::{Enumeration, Enumerator, Field, Member, Spec, Structure, makes_types};
use std::alloc::AllocError;

/// Whether declarators after these specifiers make typedef names.
pub(crate) fn make_types(specs: &[Spec<'_>]) -> bool
    ensures { result ≡ are_typedef (specifier_row (map specifier_of specs.now)) }
{
    makes_types(specs)
}

/// Puts down the parts of specifiers.
#[cycle(walking)]
pub(crate) fn put_specifiers<'t, 's>(
    specs: &'t [Spec<'s>],
    within: bool,
    into: &mut Vec<Part<'t, 's>>,
) -> Result<(), AllocError>
    ensures { IfOk result (λ done. plain_parts into.new ≡ plain_parts into.old ++ specifiers_parts within (specifier_row (map specifier_of specs.now))) }
{
    for spec in specs {
        put_specifier(spec, within, into)?;
    }
    Ok(())
}

/// Puts down the parts of a specifier.
#[cycle(walking)]
fn put_specifier<'t, 's>(
    spec: &'t Spec<'s>,
    within: bool,
    into: &mut Vec<Part<'t, 's>>,
) -> Result<(), AllocError>
    ensures { IfOk result (λ done. plain_parts into.new ≡ plain_parts into.old ++ specifier_parts within (specifier_of spec.now)) }
{
    match spec {
        Spec::Keyword(_, _) => Ok(()),
        Spec::Typedef(name) => put_name(name, into),
        Spec::Structure(structure) => {
            put_structure(structure, within, into)?;
            Ok(())
        }
        Spec::Enumeration(enumeration) => {
            put_enumeration(enumeration, within, into)?;
            Ok(())
        }
    }
}

/// Puts down the parts of a structure or union.
#[cycle(walking)]
fn put_structure<'t, 's>(
    structure: &'t Structure<'s>,
    within: bool,
    into: &mut Vec<Part<'t, 's>>,
) -> Result<(), AllocError>
    ensures { IfOk result (λ done. plain_parts into.new ≡ plain_parts into.old ++ specifier_parts within (structure_of structure.now)) }
{
    put_tag(&structure.tag, into)?;
    put_members(&structure.members, within, into)?;
    Ok(())
}

/// Puts down the parts of the members of a structure.
#[cycle(walking)]
fn put_members<'t, 's>(
    members: &'t [Member<'s>],
    within: bool,
    into: &mut Vec<Part<'t, 's>>,
) -> Result<(), AllocError>
    ensures { IfOk result (λ done. plain_parts into.new ≡ plain_parts into.old ++ members_parts within (member_row (map member_of members.now))) }
{
    for member in members {
        put_member(member, within, into)?;
    }
    Ok(())
}

/// Puts down the parts of a declaration of members.
#[cycle(walking)]
fn put_member<'t, 's>(
    member: &'t Member<'s>,
    within: bool,
    into: &mut Vec<Part<'t, 's>>,
) -> Result<(), AllocError>
    ensures { IfOk result (λ done. plain_parts into.new ≡ plain_parts into.old ++ member_parts within (member_of member.now)) }
{
    put_specifiers(&member.specs, within, into)?;
    put_fields(&member.fields, within, into)?;
    Ok(())
}

/// Puts down the parts of what a declaration of members declares.
#[cycle(walking)]
fn put_fields<'t, 's>(
    fields: &'t [Field<'s>],
    within: bool,
    into: &mut Vec<Part<'t, 's>>,
) -> Result<(), AllocError>
    ensures { IfOk result (λ done. plain_parts into.new ≡ plain_parts into.old ++ fields_parts within (field_row (map field_of fields.now))) }
{
    for field in fields {
        put_field(field, within, into)?;
    }
    Ok(())
}

/// Puts down the parts of the declarator of a member, and of its width.
#[cycle(walking)]
fn put_field<'t, 's>(
    field: &'t Field<'s>,
    within: bool,
    into: &mut Vec<Part<'t, 's>>,
) -> Result<(), AllocError>
    ensures { IfOk result (λ done. plain_parts into.new ≡ plain_parts into.old ++ field_parts within (field_of field.now)) }
{
    put_declared(&field.declarator, false, within, into)?;
    put_boxed(&field.width, within, into)?;
    Ok(())
}

/// Puts down the parts of an enumeration.
#[cycle(walking)]
fn put_enumeration<'t, 's>(
    enumeration: &'t Enumeration<'s>,
    within: bool,
    into: &mut Vec<Part<'t, 's>>,
) -> Result<(), AllocError>
    ensures { IfOk result (λ done. plain_parts into.new ≡ plain_parts into.old ++ specifier_parts within (enumeration_of enumeration.now)) }
{
    put_tag(&enumeration.tag, into)?;
    put_enumerators(&enumeration.enumerators, within, into)?;
    Ok(())
}

/// Puts down the parts of the constants of an enumeration.
#[cycle(walking)]
fn put_enumerators<'t, 's>(
    enumerators: &'t [Enumerator<'s>],
    within: bool,
    into: &mut Vec<Part<'t, 's>>,
) -> Result<(), AllocError>
    ensures { IfOk result (λ done. plain_parts into.new ≡ plain_parts into.old ++ enumerators_parts within (enumerator_row (map enumerator_of enumerators.now))) }
{
    for enumerator in enumerators {
        put_enumerator(enumerator, within, into)?;
    }
    Ok(())
}

/// Puts down the parts of a constant of an enumeration.
#[cycle(walking)]
fn put_enumerator<'t, 's>(
    enumerator: &'t Enumerator<'s>,
    within: bool,
    into: &mut Vec<Part<'t, 's>>,
) -> Result<(), AllocError>
    ensures { IfOk result (λ done. plain_parts into.new ≡ plain_parts into.old ++ enumerator_parts within (enumerator_of enumerator.now)) }
{
    put_name(&enumerator.name, into)?;
    put_boxed(&enumerator.value, within, into)?;
    Ok(())
}
