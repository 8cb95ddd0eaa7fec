//! What is handed on between specifiers and declarators.

ghost use Rattle.std.specs.Prelude.{◌≡◌, ◌+◌, IfOk, option_map};
ghost use Rattle.p10_syn.specs.Built.{tag_of};
ghost use Rattle.p10_core.specs.Types.{plain_type};
ghost use Rattle.p10_elabx.specs.First.{only_first};
ghost use Rattle.p10_elabd.specs.declared.standing.Standing.{Standing};
ghost use Rattle.p10_elabd.specs.Words.{none_allowed};
ghost use Rattle.p10_elabd.specs.Tagged.{ended, structure_made};
ghost use Rattle.p10_elabd.specs.Shapes.{of_type};
ghost use Rattle.p10_elabd.specs.Declaring.{as_named, unless_union};
ghost use Rattle.p10_elabd.specs.Views.{plain_standing, plain_named, plain_declared, told};
ghost use Rattle.p10_elabd.specs.private.NamedMembers.{named_members};

use crate::declaration::Declared;
use crate::named_members::NamedMembers;
use crate::site::Allowed;
use crate::specifiers::unless_union;
use crate::standing::Standing;
use crate::structures::{end, structure_made};
use p10_base::At;
use p10_core::CType;
use p10_syn::{Identifier, Sign};
use std::alloc::{AllocError, Global};

/// Nothing is allowed.
pub fn none_allowed() -> Allowed
    ensures { result ≡ none_allowed }
{
    Allowed {
        inline: false,
        volatile: false,
    }
}

/// A type as what a specifier names.
pub fn as_named(ty: Option<CType>) -> Option<Option<CType>>
    ensures { (s : Standing) → told (plain_named result) s ≡ as_named (told (option_map plain_type ty) s) }
{
    match ty {
        None => None,
        Some(ty) => Some(Some(ty)),
    }
}

/// The type of specifiers, before a declarator.
pub fn based<'s>(ty: Option<CType>) -> Option<Declared<'s>>
    ensures { option_map plain_declared result ≡ option_map of_type (option_map plain_type ty) }
{
    match ty {
        None => None,
        Some(ty) => Some(Declared::Plain(ty)),
    }
}

/// The type of specifiers, before one of several declarators.
pub fn based_on<'s>(alloc: Global, ty: &Option<CType>) -> Result<Option<Declared<'s>>, AllocError>
    ensures { IfOk result (λ made. option_map plain_declared made ≡ option_map of_type (option_map plain_type ty.now)) }
{
    match ty {
        None => Ok(None),
        Some(ty) => Ok(Some(Declared::Plain(ty.copy(alloc)?))),
    }
}

/// The number after one.
pub fn next_number(number: u32) -> Result<u32, AllocError>
    ensures { IfOk result (λ n. n ≡ number + 1) }
{
    if number == u32::MAX {
        Err(AllocError)
    } else {
        Ok(number + 1)
    }
}

/// A structure or union whose members were declared.
pub fn structure_ended<'s>(
    standing: &mut Standing<'s>,
    at: At,
    sign: Sign,
    tag: Option<Identifier<'s>>,
    number: u32,
    members: Option<NamedMembers<'s>>,
) -> Result<Option<CType>, AllocError>
    ensures { IfOk result (λ made. told (option_map plain_type made) standing.new ≡ unless_union only_first at sign (structure_made only_first at (tag_of tag.entry) number (option_map named_members members.entry) (ended (plain_standing standing.old)))) }
{
    end(standing);
    let made = structure_made(standing, at, tag, number, members)?;
    Ok(unless_union(standing, at, sign, made))
}
