//! The constants of enumerations that specifiers declare (C99 6.7.2.2).

ghost use Rattle.std.specs.Prelude.{◌≡◌, ◌++◌, IfOk, map};
ghost use Rattle.p10_syn.specs.Trees.{specifier_row, member_row, enumerator_row};
ghost use Rattle.p10_syn.specs.Built.{identifier_of, specifier_of, member_of, enumerator_of};
ghost use Rattle.p10_elabs.specs.Addresses.{constants_of, constants_in, constants_in_members, constants_named};

use p10_syn::{Enumerator, Identifier, Member, Spec};
use std::alloc::{AllocError, Global};

/// The constants of enumerations that specifiers declare, in text order.
pub fn constants_of<'s>(
    alloc: Global,
    specs: &[Spec<'s>],
) -> Result<Vec<Identifier<'s>>, AllocError>
    ensures { IfOk result (λ names. map identifier_of names.items ≡ constants_of (specifier_row (map specifier_of specs.now))) }
{
    let mut names = Vec::new(alloc);
    put_constants(specs, &mut names)?;
    Ok(names)
}

/// Puts down the constants that specifiers declare.
#[cycle(constants)]
fn put_constants<'s>(specs: &[Spec<'s>], into: &mut Vec<Identifier<'s>>) -> Result<(), AllocError>
    ensures { IfOk result (λ done. map identifier_of into.new.items ≡ map identifier_of into.old.items ++ constants_of (specifier_row (map specifier_of specs.now))) }
{
    for spec in specs {
        put_constants_in(spec, into)?;
    }
    Ok(())
}

/// Puts down the constants that one specifier declares.
#[cycle(constants)]
fn put_constants_in<'s>(spec: &Spec<'s>, into: &mut Vec<Identifier<'s>>) -> Result<(), AllocError>
    ensures { IfOk result (λ done. map identifier_of into.new.items ≡ map identifier_of into.old.items ++ constants_in (specifier_of spec.now)) }
{
    match spec {
        Spec::Keyword(_, _) | Spec::Typedef(_) => Ok(()),
        Spec::Structure(structure) => {
            put_members(&structure.members, into)?;
            Ok(())
        }
        Spec::Enumeration(enumeration) => {
            put_enumerators(&enumeration.enumerators, into)?;
            Ok(())
        }
    }
}

/// Puts down the constants that members declare.
#[cycle(constants)]
fn put_members<'s>(members: &[Member<'s>], into: &mut Vec<Identifier<'s>>) -> Result<(), AllocError>
    ensures { IfOk result (λ done. map identifier_of into.new.items ≡ map identifier_of into.old.items ++ constants_in_members (member_row (map member_of members.now))) }
{
    for member in members {
        put_constants(&member.specs, into)?;
    }
    Ok(())
}

/// Puts down the constants of an enumeration.
fn put_enumerators<'s>(
    all: &[Enumerator<'s>],
    into: &mut Vec<Identifier<'s>>,
) -> Result<(), AllocError>
    ensures { IfOk result (λ done. map identifier_of into.new.items ≡ map identifier_of into.old.items ++ constants_named (enumerator_row (map enumerator_of all.now))) }
{
    for enumerator in all {
        into.push(enumerator.name)?;
    }
    Ok(())
}
